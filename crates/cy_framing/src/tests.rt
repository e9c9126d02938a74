//! What the contracts leave open, and tables that are proved too: the tests of the crate.
use super::*;
use cy_event::{FIELD_ROOM, Framing, Limits, RequestHead};
use std::process::Abort;
use std::test::Fail;

/// A head's minor version, its field lines, and what is told of it: body, keep and go on; or the status that refuses it.
type Row = (u8, &'static str, Result<(Framing, bool, bool), u16>);

/// Tells of the head with these field lines.
fn told(
    rt: &impl Abort,
    head: &mut RequestHead,
    minor: u8,
    fields: &str,
) -> Result<(Framing, bool, bool), u16> {
    assert!(rt; minor <= 1);
    head.clear();
    head.set_request_line(b"POST", b"/", minor);
    for line in fields.lines() {
        push_line(rt, head, line);
    }
    let told = framing(head)?;
    Ok((told.body, told.keep, told.go_on))
}

/// Adds the field of a line `name: value`.
fn push_line(rt: &impl Abort, head: &mut RequestHead, line: &str) {
    let Some((name, value)) = line.split_once(": ") else {
        assert!(rt; false, "no field: {line}");
        return;
    };
    assert!(rt; head.field_count() < FIELD_ROOM && head.field_bytes.len() <= 4096);
    assert!(rt; name.len() <= 1024 && value.len() <= 1024);
    head.push_field(name.as_bytes(), value.as_bytes());
}

#[test]
fn heads_are_framed_as_the_table_says(rt: HostRuntime) -> Result<(), Fail> {
    let table: [Row; 69] = [
        (1, "", Ok((Framing::None, true, false))),
        (0, "", Ok((Framing::None, false, false))),
        (1, "X: Content-Length: 5", Ok((Framing::None, true, false))),
        (
            1,
            "Content-Length: 5",
            Ok((Framing::Length(5), true, false)),
        ),
        (
            0,
            "Content-Length: 5",
            Ok((Framing::Length(5), false, false)),
        ),
        (
            1,
            "content-LENGTH: 0",
            Ok((Framing::Length(0), true, false)),
        ),
        (
            1,
            "Content-Length: 0005",
            Ok((Framing::Length(5), true, false)),
        ),
        (
            1,
            "Content-Length: 5, 5",
            Ok((Framing::Length(5), true, false)),
        ),
        (
            1,
            "Content-Length: 5\nContent-Length: 5",
            Ok((Framing::Length(5), true, false)),
        ),
        (
            1,
            "Content-Length: 1,,0001\nContent-Length: ",
            Ok((Framing::Length(1), true, false)),
        ),
        (
            1,
            "Content-Length: \t5 ,",
            Ok((Framing::Length(5), true, false)),
        ),
        (
            1,
            "Content-Length: 4611686018427387904",
            Ok((Framing::Length(4611686018427387904), true, false)),
        ),
        (1, "Content-Length: 4611686018427387905", Err(400)),
        (1, "Content-Length: 18446744073709551616", Err(400)),
        (
            1,
            "Content-Length: 00000000000000000000000000000000",
            Ok((Framing::Length(0), true, false)),
        ),
        (1, "Content-Length: ", Err(400)),
        (1, "Content-Length:  , ,", Err(400)),
        (1, "Content-Length: 5, 6", Err(400)),
        (1, "Content-Length: 5\nContent-Length: 6", Err(400)),
        (1, "Content-Length: -5", Err(400)),
        (1, "Content-Length: +5", Err(400)),
        (1, "Content-Length: 5a", Err(400)),
        (1, "Content-Length: 0x5", Err(400)),
        (1, "Content-Length: 5 5", Err(400)),
        (1, "Content-Length: 5, x", Err(400)),
        (1, "Content-Length: 5;a", Err(400)),
        (1, "Content-Length: 5\nTransfer-Encoding: chunked", Err(400)),
        (1, "Transfer-Encoding: chunked\nContent-Length: 5", Err(400)),
        (1, "tRANSFER-eNCODING: \ncONTENT-lENGTH: ", Err(400)),
        (0, "Transfer-Encoding: chunked\nContent-Length: 5", Err(400)),
        (
            1,
            "Content-Length: 0\nX: a\nContent-Length: 0\nTransfer-Encoding: gzip, chunked",
            Err(400),
        ),
        (
            1,
            "Transfer-Encoding: chunked",
            Ok((Framing::Chunked, true, false)),
        ),
        (
            1,
            "Transfer-Encoding:  CHUNKED ,",
            Ok((Framing::Chunked, true, false)),
        ),
        (
            1,
            "Transfer-Encoding: \nTransfer-Encoding: chunked",
            Ok((Framing::Chunked, true, false)),
        ),
        (0, "Transfer-Encoding: chunked", Err(400)),
        (0, "Transfer-Encoding: ", Err(400)),
        (1, "Transfer-Encoding: ", Err(400)),
        (1, "Transfer-Encoding: gzip", Err(400)),
        (1, "Transfer-Encoding: chunked, gzip", Err(400)),
        (1, "Transfer-Encoding: chunked, chunked", Err(400)),
        (
            1,
            "Transfer-Encoding: chunked\nTransfer-Encoding: chunked",
            Err(400),
        ),
        (1, "Transfer-Encoding: gzip, chunked, gzip", Err(400)),
        (1, "Transfer-Encoding: chunked, gzip, chunked", Err(400)),
        (1, "Transfer-Encoding: gzip, chunked", Err(501)),
        (
            1,
            "Transfer-Encoding: gzip\nTransfer-Encoding: chunked",
            Err(501),
        ),
        (1, "Transfer-Encoding: chunked;a=b", Err(400)),
        (1, "Transfer-Encoding: xchunked", Err(400)),
        (1, "Connection: close", Ok((Framing::None, false, false))),
        (
            1,
            "Connection: Keep-Alive, CLOSE",
            Ok((Framing::None, false, false)),
        ),
        (
            1,
            "Connection: upgrade\nconnection: close",
            Ok((Framing::None, false, false)),
        ),
        (1, "Connection: closed", Ok((Framing::None, true, false))),
        (1, "Connection: ", Ok((Framing::None, true, false))),
        (
            0,
            "Connection: keep-alive",
            Ok((Framing::None, true, false)),
        ),
        (
            0,
            "Connection: x, Keep-Alive",
            Ok((Framing::None, true, false)),
        ),
        (
            0,
            "Connection: keep-alive, close",
            Ok((Framing::None, false, false)),
        ),
        (
            0,
            "Connection: keep alive",
            Ok((Framing::None, false, false)),
        ),
        (
            1,
            "Expect: 100-continue\nContent-Length: 5",
            Ok((Framing::Length(5), true, true)),
        ),
        (
            1,
            "Expect: 100-Continue, 100-continue\nTransfer-Encoding: chunked",
            Ok((Framing::Chunked, true, true)),
        ),
        (
            1,
            "Expect: 100-continue\nContent-Length: 0",
            Ok((Framing::Length(0), true, false)),
        ),
        (1, "Expect: 100-continue", Ok((Framing::None, true, false))),
        (
            1,
            "Expect: \nContent-Length: 5",
            Ok((Framing::Length(5), true, false)),
        ),
        (1, "Expect: x", Err(417)),
        (1, "Expect: 100-continue, x\nContent-Length: 5", Err(417)),
        (1, "Expect: 100-continue;a", Err(417)),
        (0, "Expect: x", Ok((Framing::None, false, false))),
        (
            0,
            "Expect: 100-continue\nContent-Length: 5",
            Ok((Framing::Length(5), false, false)),
        ),
        (1, "Expect: x\nContent-Length: a", Err(400)),
        (1, "Expect: x\nTransfer-Encoding: gzip, chunked", Err(501)),
        (1, "Expect: x\nConnection: close", Err(417)),
    ];
    let mut head = RequestHead::new(rt.alloc(), &Limits::standard(1))?;
    for (number, (minor, fields, wanted)) in table.iter().enumerate() {
        assert_eq!(rt;
            told(&rt, &mut head, *minor, fields),
            *wanted,
            "row {number}"
        );
    }
    Ok(())
}

#[test]
fn laws_hold() {
    lines_are_joined_by_commas();
    lines_may_be_split();
    both_fields_are_refused();
}
