//! What the contracts leave open, and tables that are proved too: the tests of the crate.
use super::*;
use cy_event::{HEAD_ROOM, Limits, RequestHead};
use std::process::Abort;
use std::test::Fail;

/// Reads the target of a request into a head that another target left.
fn read(
    rt: &impl Abort,
    head: &mut RequestHead,
    method: &[u8],
    target: &[u8],
) -> Result<(), BadTarget> {
    assert!(rt; method.len() <= HEAD_ROOM && target.len() <= HEAD_ROOM);
    head.set_request_line(method, target, 1);
    read_target(head)
}

#[test]
fn targets_name_paths_and_queries(rt: HostRuntime) -> Result<(), Fail> {
    let table: [(&[u8], &[u8], Option<&[u8]>); 34] = [
        (b"/", b"/", None),
        (b"/a%20b;p=1/c?q", b"/a b/c", Some(b"q")),
        (b"/a/./b/../c", b"/a/c", None),
        (b"//a//b/", b"/a/b/", None),
        (b"///", b"/", None),
        (b"/a/..", b"/", None),
        (b"/a//..", b"/", None),
        (b"/a/b/..", b"/a/", None),
        (b"/a/b/.", b"/a/b/", None),
        (b"/.", b"/", None),
        (b"/...", b"/...", None),
        (b"/.a/..b", b"/.a/..b", None),
        (b"/a/%2e%2E/b", b"/b", None),
        (b"/a/%2e", b"/a/", None),
        (b"/a;", b"/a", None),
        (b"/;a/b", b"/b", None),
        (b"/a;%zz/b", b"/a/b", None),
        (b"/a;/..;x/b", b"/b", None),
        (b"/%3B", b"/;", None),
        (b"/%25", b"/%", None),
        (b"/%3f?", b"/?", Some(b"")),
        (b"/%23", b"/#", None),
        (b"/%ff", b"/\xff", None),
        (b"/\xc3\xa9", b"/\xc3\xa9", None),
        (b"/?%zz/../;?x", b"/", Some(b"%zz/../;?x")),
        (b"/a?b=/c", b"/a", Some(b"b=/c")),
        (b"http://h:1", b"/", None),
        (b"http://h:1/a/b?c", b"/a/b", Some(b"c")),
        (b"HTTPS://h?a/b", b"/", Some(b"a/b")),
        (b"https://", b"/", None),
        (b"hTTp:///x", b"/x", None),
        (b"http://u#\\@h/x", b"/x", None),
        (b"http://h//x", b"/x", None),
        (b"/http://h/x", b"/http:/h/x", None),
    ];
    let mut head = RequestHead::new(rt.alloc(), &Limits::standard(1))?;
    for (row, (target, path, query)) in table.iter().enumerate() {
        assert_eq!(rt; read(&rt, &mut head, b"GET", target), Ok(()), "row {row}");
        assert_eq!(rt; head.path(), *path, "row {row}");
        assert_eq!(rt; head.query(), *query, "row {row}");
    }
    assert_eq!(rt; read(&rt, &mut head, b"OPTIONS", b"*"), Ok(()));
    assert_eq!(rt; head.path(), b"*".as_slice());
    assert!(rt; head.query().is_none());
    Ok(())
}

#[test]
fn bad_targets_name_nothing(rt: HostRuntime) -> Result<(), Fail> {
    let table: [&[u8]; 26] = [
        b"",
        b"a",
        b"*",
        b"?",
        b"/..",
        b"//../x",
        b"/a/../..",
        b"/%2e%2e",
        b"/a/..;/..",
        b"/%2f",
        b"/%2F",
        b"/%5c",
        b"/%00",
        b"/%zz",
        b"/%",
        b"/a%4",
        b"/%4;1",
        b"/%4/1",
        b"/a#b",
        b"/a?b#c",
        b"/a\\b",
        b"/a?b\\c",
        b"http:/h/x",
        b"ftp://h/x",
        b"http://h/..",
        b"http://h/%zz",
    ];
    let mut head = RequestHead::new(rt.alloc(), &Limits::standard(1))?;
    for (row, target) in table.iter().enumerate() {
        assert_eq!(rt;
            read(&rt, &mut head, b"GET", b"/left?behind"),
            Ok(()),
            "row {row}"
        );
        assert_eq!(rt;
            read(&rt, &mut head, b"GET", target),
            Err(BadTarget),
            "row {row}"
        );
        assert!(rt;
            head.path().is_empty() && head.query().is_none(),
            "row {row}"
        );
        assert_eq!(rt; head.target(), *target, "row {row}");
    }
    Ok(())
}

#[test]
fn a_target_may_fill_its_room(rt: HostRuntime) -> Result<(), Fail> {
    let mut head = RequestHead::new(rt.alloc(), &Limits::standard(1))?;
    let mut long = [b'a'; HEAD_ROOM];
    long[0] = b'/';
    assert_eq!(rt; read(&rt, &mut head, b"GET", &long), Ok(()));
    assert_eq!(rt; head.path(), long.as_slice());
    long[1] = b'?';
    assert_eq!(rt; read(&rt, &mut head, b"GET", &long), Ok(()));
    assert_eq!(rt; head.query().map(|query| query.len()), Some(HEAD_ROOM - 2));
    Ok(())
}

#[test]
fn the_fault_is_printed(rt: HostRuntime) -> Result<(), Fail> {
    let text = format!(in rt.alloc(); "{BadTarget}")?;
    assert_eq!(rt; text.as_str(), "bad target");
    Ok(())
}

#[test]
fn laws_hold() {
    paths_are_clean();
    paths_stay_below_the_root();
    own_paths_are_read_back();
    unescaping_is_decoding();
}
