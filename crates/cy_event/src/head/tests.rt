use super::*;
use std::test::Fail;

#[test]
fn a_head_is_filled_and_read(rt: HostRuntime) -> Result<(), Fail> {
    let mut head = RequestHead::new(rt.alloc(), &Limits::standard(1))?;
    assert_eq!(rt; (head.field_count(), head.minor()), (0, 0));
    assert!(rt; head.method().is_empty() && head.target().is_empty() && head.path().is_empty());
    assert!(rt; head.query().is_none());

    head.set_request_line(b"GET", b"/a?b", 1);
    head.push_field(b"Host", b"localhost");
    head.push_field(b"X", b"");
    head.path_bytes.clear();
    extend_in_room(&mut head.path_bytes, b"/a");
    head.query_bytes.clear();
    extend_in_room(&mut head.query_bytes, b"b");
    head.has_query = true;
    assert_eq!(rt; head.method(), b"GET".as_slice());
    assert_eq!(rt; head.target(), b"/a?b".as_slice());
    assert_eq!(rt; head.path(), b"/a".as_slice());
    assert_eq!(rt; head.query(), Some(b"b".as_slice()));
    assert_eq!(rt; (head.minor(), head.field_count()), (1, 2));
    assert_eq!(rt;
        head.field(0),
        (b"Host".as_slice(), b"localhost".as_slice())
    );
    assert_eq!(rt; head.field(1), (b"X".as_slice(), b"".as_slice()));

    head.clear();
    assert_eq!(rt; (head.field_count(), head.minor()), (0, 0));
    assert!(rt; head.method().is_empty() && head.path().is_empty() && head.query().is_none());
    Ok(())
}

#[test]
fn a_head_holds_all_that_it_has_room_for(rt: HostRuntime) -> Result<(), Fail> {
    let mut head = RequestHead::new(rt.alloc(), &Limits::standard(1))?;
    let long = [b'a'; HEAD_ROOM];
    head.set_request_line(&long, &long, 0);
    assert_eq!(rt;
        (head.method().len(), head.target().len()),
        (HEAD_ROOM, HEAD_ROOM)
    );
    let (name, value) = long.split_at(HEAD_ROOM / 2);
    head.push_field(name, value);
    assert_eq!(rt; head.field_count(), 1);
    assert_eq!(rt; head.field(0), (name, value));
    Ok(())
}

#[test]
fn want_of_memory_is_printed(rt: HostRuntime) -> Result<(), Fail> {
    let text = format!(in rt.alloc(); "{NoMemory}")?;
    assert_eq!(rt; text.as_str(), "out of memory");
    Ok(())
}
