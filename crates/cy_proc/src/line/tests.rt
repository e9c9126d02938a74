// A line by itself: what no clause says of a call, that it can succeed, and worked rows.
ghost use Rattle.std.specs.Prelude.{◌≡◌};

use super::*;
use std::process::Abort;
use std::test::Fail;

/// Whether a request is open.
pub(crate) fn is_open(line: &Line) -> bool
    ensures { result ≡ line.now.is_open }
{
    line.is_open
}

/// What the socket tells while no request is open.
fn tell(rt: &impl Abort, line: &mut Line, event: Event, bytes: &[u8]) -> Reply {
    assert!(rt; !is_open(line));
    line.event(0, event, bytes, &Limits::standard(1))
}

/// How it stands while no request is open.
fn settle(rt: &impl Abort, line: &mut Line) -> Standing {
    assert!(rt; !is_open(line));
    line.settle(0, &Limits::standard(1))
}

#[test]
fn a_head_comes_in_pieces(rt: HostRuntime) -> Result<(), Fail> {
    let head = b"GET / HTTP/1.1\r\nHost: a\r\n\r\n";
    let mut line = Line::new(rt.alloc())?;
    assert_eq!(rt; settle(&rt, &mut line), Standing::Waiting);
    assert_eq!(rt;
        tell(&rt, &mut line, Event::In, &head[..26]),
        Reply::Taken(26)
    );
    assert_eq!(rt; settle(&rt, &mut line), Standing::Waiting);
    assert_eq!(rt; tell(&rt, &mut line, Event::In, b"\n"), Reply::Taken(1));
    assert_eq!(rt; settle(&rt, &mut line), Standing::Due);
    assert_eq!(rt; line.cause(), None);

    // A head that waits is due though the input has ended.
    assert_eq!(rt; tell(&rt, &mut line, Event::End, b""), Reply::Done);
    assert_eq!(rt; tell(&rt, &mut line, Event::In, b"G"), Reply::Closed);
    assert_eq!(rt; settle(&rt, &mut line), Standing::Due);
    Ok(())
}

#[test]
fn an_idle_line_closes_at_the_end_of_the_input(rt: HostRuntime) -> Result<(), Fail> {
    let mut line = Line::new(rt.alloc())?;
    assert_eq!(rt;
        tell(&rt, &mut line, Event::In, b"GET / HTTP/1.1"),
        Reply::Taken(14)
    );
    assert_eq!(rt; tell(&rt, &mut line, Event::Took(5), b""), Reply::Taken(0));
    assert_eq!(rt; tell(&rt, &mut line, Event::End, b""), Reply::Done);
    assert_eq!(rt; settle(&rt, &mut line), Standing::Gone);
    assert_eq!(rt; line.cause(), Some(CloseCause::InputEnd));
    assert_eq!(rt; tell(&rt, &mut line, Event::End, b""), Reply::Closed);
    assert_eq!(rt; tell(&rt, &mut line, Event::Took(5), b""), Reply::Closed);

    Ok(())
}

/// Refuses the head that is due, as a processor does.
fn refuse(rt: &impl Abort, line: &mut Line) {
    assert!(rt; !is_open(line));
    assert!(rt; line.unsent_len() <= BEGIN_BOUND);
    line.refuse(400, false);
}

#[test]
fn the_next_connection_finds_nothing_of_the_former(rt: HostRuntime) -> Result<(), Fail> {
    let mut line = Line::new(rt.alloc())?;
    assert_eq!(rt;
        tell(&rt, &mut line, Event::In, b"GET / HTTP/1.1\r\n\r\nGET"),
        Reply::Taken(21)
    );
    assert_eq!(rt; tell(&rt, &mut line, Event::End, b""), Reply::Done);
    assert_eq!(rt; settle(&rt, &mut line), Standing::Due);
    refuse(&rt, &mut line);
    assert_eq!(rt; settle(&rt, &mut line), Standing::Closing);
    assert_eq!(rt; line.cause(), Some(CloseCause::Refused));
    assert!(rt; line.unsent_len() > 0);
    assert!(rt; line.in_room() < 16_384);

    // Bytes that wait, a cause and the end of the input are of the former connection.
    line.renew(0);
    assert_eq!(rt; line.unsent_len(), 0);
    assert_eq!(rt; line.in_room(), 16_384);
    assert_eq!(rt; line.cause(), None);
    assert_eq!(rt; settle(&rt, &mut line), Standing::Waiting);
    assert_eq!(rt; tell(&rt, &mut line, Event::In, b"G"), Reply::Taken(1));
    assert_eq!(rt; tell(&rt, &mut line, Event::Took(5), b""), Reply::Taken(0));
    Ok(())
}

#[test]
fn an_in_ring_takes_what_fits(rt: HostRuntime) -> Result<(), Fail> {
    let letters = [b'x'; 20_000];
    let mut line = Line::new(rt.alloc())?;
    assert_eq!(rt;
        tell(&rt, &mut line, Event::In, &letters),
        Reply::Taken(16_384)
    );
    assert_eq!(rt; tell(&rt, &mut line, Event::In, &letters), Reply::Taken(0));

    // A head without an end is due to be refused.
    assert_eq!(rt; settle(&rt, &mut line), Standing::Due);
    assert_eq!(rt; line.unsent_len(), 0);
    assert_eq!(rt; line.unsent(), b"".as_slice());
    Ok(())
}
