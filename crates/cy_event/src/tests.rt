use super::*;
use std::test::Fail;

#[test]
fn plain_data(rt: HostRuntime) -> Result<(), Fail> {
    let bytes = Bytes::of(b"hello".to_vec(rt.alloc())?);
    assert_eq!(rt; bytes.as_slice(), b"hello".as_slice());
    assert_eq!(rt; bytes.into_vec().as_slice(), b"hello".as_slice());
    let limits = Limits::standard(3);
    assert_eq!(rt;
        (limits.max_connections, limits.max_head, limits.max_fields),
        (256, 8192, 100)
    );
    assert_eq!(rt;
        (
            limits.max_keep_alive,
            limits.max_swallow,
            limits.max_trailer
        ),
        (100, 2_097_152, 8192)
    );
    assert_eq!(rt;
        (
            limits.connection_timeout,
            limits.async_timeout,
            limits.parts
        ),
        (20_000, 30_000, 3)
    );
    Ok(())
}

#[test]
fn bytes_are_cut_at_the_first_of_a_kind(rt: HostRuntime) -> Result<(), Fail> {
    for (text, before, behind) in [
        ("a:b", "a", "b"),
        (":b", "", "b"),
        ("a:", "a", ""),
        ("a:b:c", "a", "b:c"),
    ] {
        let parts = cut(text.as_bytes(), b':');
        assert!(rt;
            parts == Some((before.as_bytes(), behind.as_bytes())),
            "{text}"
        );
    }
    for text in ["", "a", "a;b"] {
        assert!(rt; cut(text.as_bytes(), b':').is_none(), "{text}");
    }
    Ok(())
}
