//! What the contracts leave open, and tables that are proved too: the tests of the crate.
use super::*;
use cy_event::Reply;
use cy_rings::ConnKit;
use std::test::Fail;

/// A head that says neither how its content is framed nor whether the connection stays.
const PLAIN: Shape = Shape {
    length: None,
    chunked: false,
    connection: Connection::Silent,
};

fn shaped(length: Option<u64>, chunked: bool, connection: Connection) -> Shape {
    Shape {
        length,
        chunked,
        connection,
    }
}

/// Writes the head alone, and tells how long it is to be.
fn write_alone(head: &RespHead, shape: &Shape, kit: &mut ConnKit) -> usize {
    kit.clear();
    let len = head.head_len(shape);
    head.write_head(shape, 784_111_777_000, kit);
    len
}

#[test]
fn heads_of_each_shape(rt: HostRuntime) -> Result<(), Fail> {
    let mut head = RespHead::new(rt.alloc())?;
    let mut kit = ConnKit::new(rt.alloc())?;
    let table = [
        (PLAIN, "", ""),
        (
            shaped(Some(0), false, Connection::Close),
            "Content-Length: 0\r\n",
            "Connection: close\r\n",
        ),
        (
            shaped(Some(u64::MAX), false, Connection::KeepAlive),
            "Content-Length: 18446744073709551615\r\n",
            "Connection: keep-alive\r\n",
        ),
        (
            shaped(None, true, Connection::Silent),
            "Transfer-Encoding: chunked\r\n",
            "",
        ),
        (
            shaped(None, false, Connection::Close),
            "",
            "Connection: close\r\n",
        ),
    ];
    assert_eq!(rt; head.set_status(404), Reply::Done);
    assert_eq!(rt; head.add_header(b"X-A", b"1"), Reply::Done);
    assert_eq!(rt; head.add_header(b"x-b", b""), Reply::Done);
    for (shape, framing, connection) in &table {
        let text = format!(in rt.alloc();
            "HTTP/1.1 404 \r\nX-A: 1\r\nx-b: \r\n{framing}Date: Sun, 06 Nov 1994 08:49:37 GMT\r\n{connection}\r\n"
        )?;
        assert_eq!(rt; write_alone(&head, shape, &mut kit), text.len());
        assert_eq!(rt; kit.out_front(), text.as_bytes());
    }
    head.reset();
    assert_eq!(rt; head.head_len(&PLAIN), 54);
    Ok(())
}

#[test]
fn statuses_from_200_to_599(rt: HostRuntime) -> Result<(), Fail> {
    let mut head = RespHead::new(rt.alloc())?;
    for (status, reply) in [
        (0, Reply::BadValue),
        (199, Reply::BadValue),
        (200, Reply::Done),
        (599, Reply::Done),
        (600, Reply::BadValue),
        (u16::MAX, Reply::BadValue),
    ] {
        assert_eq!(rt; head.set_status(status), reply, "{status}");
    }
    assert_eq!(rt; head.status(), 599);
    Ok(())
}

#[test]
fn names_and_values_that_are_refused(rt: HostRuntime) -> Result<(), Fail> {
    let mut head = RespHead::new(rt.alloc())?;
    let table: [(&[u8], &[u8], Reply); 17] = [
        (b"Content-Length", b"1", Reply::BadValue),
        (b"content-length", b"1", Reply::BadValue),
        (b"TRANSFER-encoding", b"chunked", Reply::BadValue),
        (b"cOnNeCtIoN", b"close", Reply::BadValue),
        (b"DATE", b"now", Reply::BadValue),
        (b"trailer", b"X", Reply::BadValue),
        (b"Trailers", b"X", Reply::Done),
        (b"Content-Length-", b"X", Reply::Done),
        (b"", b"X", Reply::BadValue),
        (b"a b", b"X", Reply::BadValue),
        (b"a:", b"X", Reply::BadValue),
        (b"A", b"x\r", Reply::BadValue),
        (b"A", b"\nx", Reply::BadValue),
        (b"A", b"x\0y", Reply::BadValue),
        (b"A", b"x\r\nB: y", Reply::BadValue),
        (b"A", b"", Reply::Done),
        (b"!#$%&'*+-.^_`|~", b" \t\x7f\xff:", Reply::Done),
    ];
    for (name, value, reply) in &table {
        assert_eq!(rt; head.add_header(name, value), *reply);
    }
    Ok(())
}

#[test]
fn as_many_fields_as_there_may_be(rt: HostRuntime) -> Result<(), Fail> {
    let mut head = RespHead::new(rt.alloc())?;
    for _ in 0..100 {
        assert_eq!(rt; head.add_header(b"A", b""), Reply::Done);
    }
    assert_eq!(rt; head.add_header(b"A", b""), Reply::TooMany(100));
    assert_eq!(rt; head.add_header(b"A", b"\n"), Reply::BadValue);
    assert_eq!(rt; head.add_header(b"A", &[b'x'; 7000]), Reply::TooMany(100));
    assert_eq!(rt; head.head_len(&PLAIN), 554);
    Ok(())
}

#[test]
fn as_long_fields_as_there_may_be(rt: HostRuntime) -> Result<(), Fail> {
    let mut head = RespHead::new(rt.alloc())?;
    assert_eq!(rt; head.add_header(b"A", &[b'x'; 7000]), Reply::TooMany(7000));
    assert_eq!(rt; head.add_header(b"A", &[b'x'; 6998]), Reply::Done);
    assert_eq!(rt; head.add_header(b"B", b"y"), Reply::TooMany(7000));
    assert_eq!(rt; head.add_header(&[b'B'; 7001], b"y"), Reply::TooMany(7000));
    assert_eq!(rt; head.add_header(b"B", b""), Reply::Done);
    assert_eq!(rt; head.add_header(b"C", b""), Reply::TooMany(7000));
    assert_eq!(rt; head.head_len(&PLAIN), 54 + 7008);
    Ok(())
}

#[test]
fn dates(rt: HostRuntime) -> Result<(), Fail> {
    let table = [
        (0, b"Thu, 01 Jan 1970 00:00:00 GMT"),
        (951_782_400_999, b"Tue, 29 Feb 2000 00:00:00 GMT"),
        (253_402_300_799_999, b"Fri, 31 Dec 9999 23:59:59 GMT"),
    ];
    for (at, text) in table {
        assert_eq!(rt; &date_of(at), text);
    }
    Ok(())
}

/// A law says all in its contract; a call shows that nothing is asked of the caller.
#[test]
fn laws_ask_for_nothing() {
    laws::fields_stand_alone();
    laws::heads_end_once();
    laws::reserved_names_are_kept();
}
