mod calls;

ghost use Rattle.cy_out.specs.Kept.{CanFinish, answering_with};

use super::*;
use cy_event::Reply;
use cy_respond::RespHead;
use cy_rings::ConnKit;
use std::alloc::Global;
use std::process::Abort;
use std::test::Fail;

const DATE: &str = "Date: Thu, 01 Jan 1970 00:00:00 GMT\r\n";

const GET: Answer = Answer {
    minor: 1,
    is_head: false,
    keep: true,
};

const OLD_GET: Answer = Answer { minor: 0, ..GET };

const HEAD: Answer = Answer {
    is_head: true,
    ..GET
};

const LAST_GET: Answer = Answer { keep: false, ..GET };

const OLD_LAST_GET: Answer = Answer {
    keep: false,
    ..OLD_GET
};

const OLD_HEAD: Answer = Answer { minor: 0, ..HEAD };

const LAST_HEAD: Answer = Answer {
    keep: false,
    ..HEAD
};

/// A row of answers: the request, the status, the length that is set, whether the content `ab` is flushed before `c`
/// is put, what the head says of the content and of the connection, and what follows it.
#[derive(Clone, Copy)]
struct Row {
    answer: Answer,
    status: u16,
    length: Option<u64>,
    flushed: bool,
    fields: &'static str,
    connection: &'static str,
    content: &'static str,
}

fn answer_row(
    answer: Answer,
    status: u16,
    length: Option<u64>,
    flushed: bool,
    fields: &'static str,
    connection: &'static str,
    content: &'static str,
) -> Row {
    Row {
        answer,
        status,
        length,
        flushed,
        fields,
        connection,
        content,
    }
}

/// Flushes, where a row says so.
fn flush_where(flushed: bool, body: &mut BodyOut, head: &RespHead, kit: &mut ConnKit) -> Reply
    ensures room { CanFinish (answering_with body.old kit.old) → CanFinish (answering_with body.new kit.new) }
{
    if flushed {
        body.flush(0, head, kit)
    } else {
        Reply::Done
    }
}

fn is_sent(rt: &impl Abort, alloc: Global, row: &Row) -> Result<(), Fail> {
    let mut body = BodyOut::new(alloc)?;
    let mut head = RespHead::new(alloc)?;
    let mut kit = ConnKit::new(alloc)?;
    body.begin(&row.answer);
    assert_eq!(rt; head.set_status(row.status), Reply::Done);
    if let Some(length) = row.length {
        assert_eq!(rt; body.set_length(length), Reply::Done);
    }
    assert_eq!(rt; body.write(b"ab", 0, &head, &mut kit), Reply::Taken(2));
    assert_eq!(rt;
        flush_where(row.flushed, &mut body, &head, &mut kit),
        Reply::Done
    );
    assert_eq!(rt; body.committed(), row.flushed);
    assert_eq!(rt; body.write(b"c", 0, &head, &mut kit), Reply::Taken(1));
    let finished = body.finish(0, &head, &mut kit);
    let text = format!(in alloc;
        "HTTP/1.1 {} \r\n{}{DATE}{}\r\n{}",
        row.status, row.fields, row.connection, row.content
    )?;
    assert_eq!(rt; kit.out_front(), text.as_bytes());
    assert_eq!(rt; finished.close, row.connection == "Connection: close\r\n");
    assert_eq!(rt;
        finished.short,
        row.length == Some(5) && !row.content.is_empty()
    );
    Ok(())
}

#[test]
fn answers_in_each_mode(rt: HostRuntime) -> Result<(), Fail> {
    let close = "Connection: close\r\n";
    let keep = "Connection: keep-alive\r\n";
    let three = "Content-Length: 3\r\n";
    let five = "Content-Length: 5\r\n";
    let chunked = "Transfer-Encoding: chunked\r\n";
    let chunks = "2\r\nab\r\n1\r\nc\r\n0\r\n\r\n";
    let rows = [
        answer_row(GET, 200, None, false, three, "", "abc"),
        answer_row(GET, 200, None, true, chunked, "", chunks),
        answer_row(GET, 200, Some(3), true, three, "", "abc"),
        answer_row(GET, 200, Some(5), false, five, "", "abc"),
        answer_row(GET, 200, Some(5), true, five, "", "abc"),
        answer_row(OLD_GET, 200, None, false, three, keep, "abc"),
        answer_row(OLD_GET, 200, None, true, "", close, "abc"),
        answer_row(OLD_GET, 200, Some(3), true, three, keep, "abc"),
        answer_row(LAST_GET, 200, None, false, three, close, "abc"),
        answer_row(OLD_LAST_GET, 200, None, false, three, close, "abc"),
        answer_row(HEAD, 200, None, false, three, "", ""),
        answer_row(HEAD, 200, None, true, chunked, "", ""),
        answer_row(HEAD, 200, Some(5), false, five, "", ""),
        answer_row(OLD_HEAD, 200, None, true, "", keep, ""),
        answer_row(GET, 204, None, false, "", "", ""),
        answer_row(GET, 304, Some(3), true, "", "", ""),
        answer_row(HEAD, 204, None, false, "", "", ""),
        answer_row(LAST_GET, 200, None, true, chunked, close, chunks),
        answer_row(OLD_LAST_GET, 200, None, true, "", close, "abc"),
        answer_row(OLD_LAST_GET, 200, Some(3), true, three, close, "abc"),
        answer_row(LAST_HEAD, 200, None, true, chunked, close, ""),
        answer_row(OLD_HEAD, 200, None, false, three, keep, ""),
        answer_row(GET, 204, None, true, "", "", ""),
        answer_row(GET, 304, None, false, "", "", ""),
        answer_row(OLD_GET, 304, None, true, "", keep, ""),
        answer_row(LAST_GET, 204, None, false, "", close, ""),
    ];
    for row in &rows {
        is_sent(&rt, rt.alloc(), row)?;
    }
    Ok(())
}

#[test]
fn a_flush_of_nothing_writes_no_chunk(rt: HostRuntime) -> Result<(), Fail> {
    let mut body = BodyOut::new(rt.alloc())?;
    let head = RespHead::new(rt.alloc())?;
    let mut kit = ConnKit::new(rt.alloc())?;
    body.begin(&GET);
    assert_eq!(rt; body.flush(0, &head, &mut kit), Reply::Done);
    let len = kit.out_len();
    assert_eq!(rt; body.flush(0, &head, &mut kit), Reply::Done);
    assert_eq!(rt; body.write(b"", 0, &head, &mut kit), Reply::Taken(0));
    assert_eq!(rt; kit.out_len(), len);
    assert_eq!(rt; body.write(b"x", 0, &head, &mut kit), Reply::Taken(1));
    assert_eq!(rt; kit.out_len(), len);
    assert_eq!(rt; body.flush(0, &head, &mut kit), Reply::Done);
    assert_eq!(rt; kit.out_len(), len + 6);
    Ok(())
}

#[test]
fn a_length_below_the_content(rt: HostRuntime) -> Result<(), Fail> {
    let mut body = BodyOut::new(rt.alloc())?;
    let head = RespHead::new(rt.alloc())?;
    let mut kit = ConnKit::new(rt.alloc())?;
    body.begin(&GET);
    assert_eq!(rt; body.write(b"abc", 0, &head, &mut kit), Reply::Taken(3));
    assert_eq!(rt; body.set_length(2), Reply::BadValue);
    assert_eq!(rt; body.set_length(3), Reply::Done);
    assert_eq!(rt; body.write(b"d", 0, &head, &mut kit), Reply::BadValue);
    Ok(())
}

#[test]
fn a_length_that_is_set_again(rt: HostRuntime) -> Result<(), Fail> {
    let mut body = BodyOut::new(rt.alloc())?;
    let head = RespHead::new(rt.alloc())?;
    let mut kit = ConnKit::new(rt.alloc())?;
    body.begin(&GET);
    assert_eq!(rt; body.set_length(3), Reply::Done);
    assert_eq!(rt; body.set_length(5), Reply::Done);
    assert_eq!(rt; body.write(b"abcdef", 0, &head, &mut kit), Reply::BadValue);
    assert_eq!(rt; body.write(b"abcde", 0, &head, &mut kit), Reply::Taken(5));
    assert_eq!(rt; body.write(b"", 0, &head, &mut kit), Reply::Taken(0));
    Ok(())
}

#[test]
fn a_length_that_is_taken_back(rt: HostRuntime) -> Result<(), Fail> {
    let mut body = BodyOut::new(rt.alloc())?;
    let head = RespHead::new(rt.alloc())?;
    let mut kit = ConnKit::new(rt.alloc())?;
    body.begin(&GET);
    assert_eq!(rt; body.set_length(u64::MAX), Reply::Done);
    body.reset();
    assert_eq!(rt; body.set_length(0), Reply::Done);
    assert_eq!(rt; body.write(b"x", 0, &head, &mut kit), Reply::BadValue);
    assert!(rt; !body.finish(0, &head, &mut kit).short);
    Ok(())
}

#[test]
fn an_error_answer(rt: HostRuntime) -> Result<(), Fail> {
    let mut body = BodyOut::new(rt.alloc())?;
    let mut head = RespHead::new(rt.alloc())?;
    let mut kit = ConnKit::new(rt.alloc())?;
    let table = [
        (GET, "", "Error 404\n"),
        (HEAD, "", ""),
        (LAST_GET, "Connection: close\r\n", "Error 404\n"),
    ];
    for (answer, connection, content) in &table {
        kit.clear();
        body.clear();
        body.begin(answer);
        assert_eq!(rt; head.add_header(b"X", b"y"), Reply::Done);
        assert_eq!(rt; body.set_length(7), Reply::Done);
        assert_eq!(rt; body.write(b"gone", 0, &head, &mut kit), Reply::Taken(4));
        body.error(404, &mut head);
        let finished = body.finish(0, &head, &mut kit);
        let text = format!(in rt.alloc();
            "HTTP/1.1 404 \r\nContent-Type: text/plain\r\nContent-Length: 10\r\n{DATE}{connection}\r\n{content}"
        )?;
        assert_eq!(rt; kit.out_front(), text.as_bytes());
        assert!(rt; !finished.short);
        head.reset();
    }
    Ok(())
}

#[test]
fn an_answer_that_is_given_up(rt: HostRuntime) -> Result<(), Fail> {
    let mut body = BodyOut::new(rt.alloc())?;
    let head = RespHead::new(rt.alloc())?;
    let mut kit = ConnKit::new(rt.alloc())?;
    body.begin(&GET);
    assert_eq!(rt; body.write(b"ab", 0, &head, &mut kit), Reply::Taken(2));
    assert_eq!(rt; body.flush(0, &head, &mut kit), Reply::Done);
    let len = kit.out_len();
    body.abort();
    body.set_close();
    assert_eq!(rt;
        body.write(&[b'x'; 50_000], 0, &head, &mut kit),
        Reply::Taken(50_000)
    );
    assert_eq!(rt; body.flush(0, &head, &mut kit), Reply::Done);
    assert_eq!(rt; body.write(b"y", 0, &head, &mut kit), Reply::Taken(1));
    assert!(rt; body.committed());
    let finished = body.finish(0, &head, &mut kit);
    assert_eq!(rt;
        finished,
        Finished {
            short: false,
            close: false
        }
    );
    assert_eq!(rt; kit.out_len(), len);
    Ok(())
}

#[test]
fn a_client_that_takes_nothing(rt: HostRuntime) -> Result<(), Fail> {
    let mut body = BodyOut::new(rt.alloc())?;
    let head = RespHead::new(rt.alloc())?;
    let mut kit = ConnKit::new(rt.alloc())?;
    let page = [b'x'; 100_000];
    body.begin(&GET);
    // the first cut finds an empty ring, the second one too few bytes free
    assert_eq!(rt; body.write(&page, 0, &head, &mut kit), Reply::Taken(16_384));
    assert!(rt; !body.is_writable(&kit));
    assert_eq!(rt; body.write(&page, 0, &head, &mut kit), Reply::Again);
    assert_eq!(rt; body.write(b"", 0, &head, &mut kit), Reply::Taken(0));
    assert_eq!(rt; body.flush(0, &head, &mut kit), Reply::Again);
    let len = kit.out_len();
    assert_eq!(rt; len, 8282);
    kit.took_out(len);
    assert!(rt; body.is_writable(&kit));
    assert_eq!(rt; body.flush(0, &head, &mut kit), Reply::Done);
    assert_eq!(rt; kit.out_len(), PIECE_SIZE + 8);
    Ok(())
}

#[test]
fn a_close_that_is_asked_for(rt: HostRuntime) -> Result<(), Fail> {
    let mut body = BodyOut::new(rt.alloc())?;
    let head = RespHead::new(rt.alloc())?;
    let mut kit = ConnKit::new(rt.alloc())?;
    body.begin(&GET);
    body.set_close();
    assert!(rt; body.finish(0, &head, &mut kit).close);
    let text = format!(in rt.alloc();
        "HTTP/1.1 200 \r\nContent-Length: 0\r\n{DATE}Connection: close\r\n\r\n"
    )?;
    assert_eq!(rt; kit.out_front(), text.as_bytes());
    Ok(())
}

#[test]
fn laws_hold() {
    laws::writes_take_the_most();
    laws::no_content_is_unframed();
    laws::aborted_gains_nothing();
    laws::pieces_are_the_content();
    laws::pieces_have_bytes();
    laws::pieces_end_at_cuts();
    laws::pieces_follow_the_head();
    laws::answers_are_whole();
    laws::all_calls_make_one_answer();
    laws::uncut_answers_are_one_text();
    laws::writes_fill_the_buffer();
    laws::head_is_framed_as_get();
    laws::all_calls_frame_alike();
    laws::clients_read_the_content();
    laws::all_calls_are_read();
    laws::heads_say_the_mode();
    laws::finishes_find_room();
    laws::beginnings_find_room();
    laws::all_calls_find_room();
}

#[test]
fn each_call_of_the_laws(rt: HostRuntime) -> Result<(), Fail> {
    let mut body = BodyOut::new(rt.alloc())?;
    let mut head = RespHead::new(rt.alloc())?;
    let mut kit = ConnKit::new(rt.alloc())?;
    body.begin(&GET);
    calls::set_status(201, &body, &mut head);
    calls::add_header(b"X", b"y", &body, &mut head);
    calls::reset(&mut body, &mut head);
    calls::put_error(404, &mut body, &mut head);
    calls::put_error(199, &mut body, &mut head);
    calls::set_status(405, &body, &mut head);
    calls::add_header(b"Allow", b"GET", &body, &mut head);
    calls::set_length(12, &mut body);
    calls::abort(&mut body);
    calls::set_close(&mut body);
    calls::write(b"ab", 0, &mut body, &head, &mut kit);
    calls::flush(0, &mut body, &head, &mut kit);
    // the head is out
    calls::set_status(200, &body, &mut head);
    calls::add_header(b"X", b"y", &body, &mut head);
    calls::set_length(20, &mut body);
    calls::reset(&mut body, &mut head);
    calls::put_error(500, &mut body, &mut head);
    calls::abort(&mut body);
    calls::write(b"", 0, &mut body, &head, &mut kit);
    calls::flush(0, &mut body, &head, &mut kit);
    assert_eq!(rt; calls::receive(9, &mut kit), 9);
    let text = format!(in rt.alloc();
        "405 \r\nContent-Type: text/plain\r\nAllow: GET\r\nContent-Length: 12\r\n{DATE}Connection: close\r\n\r\nError 404\nab"
    )?;
    assert_eq!(rt; kit.out_front(), text.as_bytes());
    assert_eq!(rt; calls::receive(1000, &mut kit), text.len());
    assert_eq!(rt; kit.out_len(), 0);
    assert_eq!(rt; head.status(), 405);
    Ok(())
}
