//! What the contracts leave open, and tables that are proved too: the tests of the crate.
ghost use Rattle.std.specs.Prelude.{◌≤◌};
ghost use Rattle.cy_event.specs.declared.head.TheConstants.{HEAD_ROOM, FIELD_ROOM};

use super::*;
use cy_event::{Limits, RequestHead};
use httparse::spans::EMPTY_HEADER_SPAN;
use std::process::Abort;
use std::test::Fail;

fn found(length: usize) -> Front {
    Front::Head { length }
}

/// The table in which the rows of a test are read.
fn table(rt: &HostRuntime) -> Result<RequestHead, Fail> {
    Ok(RequestHead::new(rt.alloc(), &Limits::standard(1))?)
}

fn expect(rt: &impl Abort, text: &[u8], limits: &Limits, into: &mut RequestHead, want: Front)
    requires head_room { limits.now.max_head ≤ HEAD_ROOM }
    requires field_room { limits.now.max_fields ≤ FIELD_ROOM }
{
    let found = head_front(text, limits, into);
    assert_eq!(rt; found, want, "{text:?}");
    assert_eq!(rt;
        head_due(text, limits) == Due::Wait,
        found == Front::Wait,
        "{text:?}"
    );
}

#[test]
fn the_parts_of_a_head_are_exact(rt: HostRuntime) -> Result<(), Fail> {
    let limits = Limits::standard(1);
    let mut head = table(&rt)?;
    let text = b"\r\nPOST /a?b HTTP/1.0\nhost:a:80\r\nX: \t one two\t \r\nEmpty:\r\n\r\nrest";
    assert_eq!(rt; head_front(text, &limits, &mut head), found(text.len() - 4));
    assert_eq!(rt; head.method(), b"POST".as_slice());
    assert_eq!(rt; head.target(), b"/a?b".as_slice());
    assert_eq!(rt; (head.minor(), head.field_count()), (0, 3));
    let fields: [(&[u8], &[u8]); 3] = [(b"host", b"a:80"), (b"X", b"one two"), (b"Empty", b"")];
    for (i, (name, value)) in fields.into_iter().enumerate() {
        if i < head.field_count() {
            let field = head.field(i);
            assert_eq!(rt; field.0, name);
            assert_eq!(rt; field.1, value);
        }
    }

    // The table stays where there is no head, and nothing of it is left where there is another.
    assert_eq!(rt; head_front(b"GET", &limits, &mut head), Front::Wait);
    assert_eq!(rt; head_front(b"GET\n\n", &limits, &mut head), Front::Bad);
    assert_eq!(rt; head.method(), b"POST".as_slice());
    assert_eq!(rt; head.field_count(), 3);
    assert_eq!(rt;
        head_front(b"GET / HTTP/1.0\n\n", &limits, &mut head),
        found(16)
    );
    assert_eq!(rt; head.method(), b"GET".as_slice());
    assert_eq!(rt; head.field_count(), 0);
    Ok(())
}

#[test]
fn heads_and_what_is_none(rt: HostRuntime) -> Result<(), Fail> {
    let rows: [(&[u8], Front); 30] = [
        // whole, and what follows
        (b"GET / HTTP/1.1\r\nHost: a\r\n\r\n", found(27)),
        (b"\r\n\nGET / HTTP/1.1\nHOST:a\n\nrest", found(26)),
        (b"GET / HTTP/1.1\nHost: a\n\n", found(24)),
        (b"OPTIONS * HTTP/1.1\r\nHost:\r\n\r\n", found(29)),
        (b"GET http://b/ HTTP/1.1\r\nHost: a\r\n\r\n", found(35)),
        // not whole
        (b"", Front::Wait),
        (b"\r\n\r\n\r\n", Front::Wait),
        (b"GET / HTTP/1.1\r\nHost: a\r\n\r", Front::Wait),
        (b"nonsense\r\nmore\r\n", Front::Wait),
        // no head
        (b"nonsense\r\n\r\n", Front::Bad),
        (b"GET / HTTP/1.2\r\nHost: a\r\n\r\n", Front::Bad),
        (b"GET / http/1.1\r\nHost: a\r\n\r\n", Front::Bad),
        (b"GET /\r\nHost: a\r\n\r\n", Front::Bad),
        (b"GET  / HTTP/1.1\r\nHost: a\r\n\r\n", Front::Bad),
        (b" GET / HTTP/1.1\r\nHost: a\r\n\r\n", Front::Bad),
        (b"G(T / HTTP/1.1\r\nHost: a\r\n\r\n", Front::Bad),
        // fields
        (b"GET / HTTP/1.1\r\nHost : a\r\n\r\n", Front::Bad),
        (b"GET / HTTP/1.1\r\nHost: a\r\n b\r\n\r\n", Front::Bad),
        (b"GET / HTTP/1.1\r\nHost: a\r\n\tb: c\r\n\r\n", Front::Bad),
        (b"GET / HTTP/1.1\r\nHost: a\r\nX\r\n\r\n", Front::Bad),
        (b"GET / HTTP/1.1\r\nHost: a\r\n: x\r\n\r\n", Front::Bad),
        (b"GET / HTTP/1.1\r\nHost: a\r\nX: a\0b\r\n\r\n", Front::Bad),
        (b"GET / HTTP/1.1\r\nHost: a\r\nX: a\rb\r\n\r\n", Front::Bad),
        (
            b"GET / HTTP/1.1\r\nHost: a\r\nX: a\x7fb\r\n\r\n",
            Front::Bad,
        ),
        (b"GET / HTTP/1.1\r\nHost: a\r\r\n\r\n", Front::Bad),
        // bytes past ASCII
        (b"GET /%ff HTTP/1.1\r\nHost: a\r\n\r\n", found(30)),
        (b"GET /\xc3\xa9 HTTP/1.1\r\nHost: a\r\n\r\n", found(29)),
        (b"GET /\xff HTTP/1.1\r\nHost: a\r\n\r\n", Front::Bad),
        (b"GET / HTTP/1.1\r\nHost: a\r\nX: \xff\r\n\r\n", found(33)),
        (b"GET / HTTP/1.1\r\nHost: a\r\n\xff: x\r\n\r\n", Front::Bad),
    ];
    let mut head = table(&rt)?;
    for (text, want) in rows {
        expect(&rt, text, &Limits::standard(1), &mut head, want);
    }
    Ok(())
}

#[test]
fn hosts_right_and_wrong(rt: HostRuntime) -> Result<(), Fail> {
    let rows: [(&[u8], Front); 14] = [
        (b"GET / HTTP/1.1\nHost: a:8080\n\n", found(29)),
        (b"GET / HTTP/1.1\nHost: [::1]:80\n\n", found(31)),
        (b"GET / HTTP/1.1\nHost:\n\n", found(22)),
        (b"GET / HTTP/1.1\nHost: a%41.b\n\n", found(29)),
        (b"GET / HTTP/1.1\nHost: a:b\n\n", Front::Bad),
        (b"GET / HTTP/1.1\nHost: [::1\n\n", Front::Bad),
        (b"GET / HTTP/1.1\nHost: u@a\n\n", Front::Bad),
        (b"GET / HTTP/1.1\nHost: a b\n\n", Front::Bad),
        (b"GET / HTTP/1.1\nHost: a%4\n\n", Front::Bad),
        // how many there are
        (b"GET / HTTP/1.1\n\n", Front::Bad),
        (b"GET / HTTP/1.0\n\n", found(16)),
        (b"GET / HTTP/1.1\nHost: a\nhost: a\n\n", Front::Bad),
        (b"GET / HTTP/1.0\nHost: a\nhost: a\n\n", Front::Bad),
        (b"GET / HTTP/1.0\nHost: a/b\n\n", Front::Bad),
    ];
    let mut head = table(&rt)?;
    for (text, want) in rows {
        expect(&rt, text, &Limits::standard(1), &mut head, want);
    }
    Ok(())
}

/// A head of so many bytes.
fn head_of_size(rt: &HostRuntime, size: usize) -> Result<Vec<u8>, Fail> {
    let mut text = Vec::from_slice(rt.alloc(), b"GET / HTTP/1.1\r\nHost: a\r\nX: ")?;
    for _ in text.len() + 4..size {
        text.push(b'x')?;
    }
    text.extend_from_slice(b"\r\n\r\n")?;
    Ok(text)
}

/// A head of so many fields.
fn head_of_fields(rt: &HostRuntime, count: usize) -> Result<Vec<u8>, Fail> {
    let mut text = Vec::from_slice(rt.alloc(), b"GET / HTTP/1.1\nHost: a\n")?;
    for _ in 1..count {
        text.extend_from_slice(b"A: b\n")?;
    }
    text.extend_from_slice(b"\n")?;
    Ok(text)
}

#[test]
fn heads_at_their_limits(rt: HostRuntime) -> Result<(), Fail> {
    let limits = Limits::standard(1);
    let mut head = table(&rt)?;
    expect(
        &rt,
        &head_of_size(&rt, 8192)?,
        &limits,
        &mut head,
        found(8192),
    );
    expect(
        &rt,
        &head_of_size(&rt, 8193)?,
        &limits,
        &mut head,
        Front::Bad,
    );
    let endless = [b'a'; 8192];
    expect(&rt, &endless[..8191], &limits, &mut head, Front::Wait);
    expect(&rt, &endless, &limits, &mut head, Front::Bad);
    assert_eq!(rt; head_due(&endless, &limits), Due::TooLong);
    assert_eq!(rt; head_due(b"a\n\nb", &limits), Due::Front { length: 3 });

    for (count, size) in [(32, 179), (33, 184), (100, 519)] {
        let text = head_of_fields(&rt, count)?;
        expect(&rt, &text, &limits, &mut head, found(size));
        assert_eq!(rt; head.field_count(), count);
    }
    expect(
        &rt,
        &head_of_fields(&rt, 101)?,
        &limits,
        &mut head,
        Front::Bad,
    );

    let text = b"GET / HTTP/1.1\r\nHost: a\r\n\r\n";
    let mut small = limits;
    (small.max_head, small.max_fields) = (27, 1);
    expect(&rt, text, &small, &mut head, found(27));
    (small.max_head, small.max_fields) = (26, 1);
    expect(&rt, text, &small, &mut head, Front::Bad);
    (small.max_head, small.max_fields) = (27, 0);
    expect(&rt, text, &small, &mut head, Front::Bad);
    heads_are_the_grammar();
    fronts_stay();
    Ok(())
}

#[test]
fn a_head_is_found_by_its_spans(rt: HostRuntime) -> Result<(), Fail> {
    let text = b"GET / HTTP/1.1\r\nHost: a\r\n\r\nrest";
    let mut spans = [EMPTY_HEADER_SPAN; 2];
    match find_spans(text, 8192, &mut spans) {
        FrontSpans::Head(head) => assert_eq!(rt; (head.len, head.headers), (27, 1)),
        other => assert!(rt; false, "{other:?}"),
    }
    Ok(())
}
