use super::*;
use std::alloc::{AllocError, Global};
use std::test::Fail;

/// The spelling of a byte by the rule of the format, with std's hexadecimal digits.
fn spelling(alloc: Global, byte: u8) -> Result<String, AllocError> {
    match byte {
        13 => String::from_str(alloc, "\\r"),
        10 => String::from_str(alloc, "\\n"),
        9 => String::from_str(alloc, "\\t"),
        34 => String::from_str(alloc, "\\\""),
        92 => String::from_str(alloc, "\\\\"),
        0x20..=0x7e => format!(in alloc; "{}", char::from(byte)),
        _ => format!(in alloc; "\\x{byte:02x}"),
    }
}

#[test]
fn each_byte_has_its_spelling_and_is_read_again(rt: HostRuntime) -> Result<(), Fail> {
    for byte in 0..=255u8 {
        let expected = spelling(rt.alloc(), byte)?;
        let text = quote(rt.alloc(), &[byte])?;
        assert_eq!(rt; text.as_slice(), expected.as_bytes(), "quoting {byte}");
        let bytes = unquote(rt.alloc(), expected.as_bytes())?;
        assert_eq!(rt; bytes.as_slice(), [byte].as_slice(), "unquoting {byte}");
    }
    Ok(())
}

#[test]
fn texts_are_read_to_their_end_or_first_fault(rt: HostRuntime) {
    let table: [(&[u8], Result<&[u8], u64>); 15] = [
        (b"", Ok(b"")),
        (b"say \\\"hi\\\"\\r\\n", Ok(b"say \"hi\"\r\n")),
        (b"\\x4F\\xaB\\xFf\\x00", Ok(b"\x4f\xab\xff\x00")),
        (b"\\\\x41", Ok(b"\\x41")),
        (b"a\\q", Err(1)),
        (b"\\x4", Err(0)),
        (b"\\x4\"", Err(0)),
        (b"\\x4g1", Err(0)),
        (b"\\X41", Err(0)),
        (b"ab\"c", Err(2)),
        (b"\\\\\\", Err(2)),
        (b"\\x41\\x4", Err(4)),
        (b"tab\there", Err(3)),
        (b"~\x7f", Err(1)),
        (b"caf\xc3\xa9", Err(3)),
    ];
    for (row, (inner, expected)) in table.iter().enumerate() {
        match unquote(rt.alloc(), inner) {
            Ok(bytes) => assert_eq!(rt; Ok(bytes.as_slice()), *expected, "row {row}"),
            Err(QuoteFault::BadEscape { place }) => {
                assert_eq!(rt; Err(place), *expected, "row {row}")
            }
            Err(QuoteFault::NoMemory) => assert!(rt; false, "no memory in row {row}"),
        }
    }
}

#[test]
fn bytes_give_their_vector_back(rt: HostRuntime) -> Result<(), Fail> {
    let bytes = Bytes::of(Vec::from_slice(rt.alloc(), b"\x00text\xff")?);
    assert_eq!(rt; bytes.as_slice(), b"\x00text\xff".as_slice());
    assert_eq!(rt; bytes.into_vec().as_slice(), b"\x00text\xff".as_slice());
    Ok(())
}

#[test]
fn faults_are_printed(rt: HostRuntime) -> Result<(), Fail> {
    let bad_escape = QuoteFault::BadEscape { place: 12 };
    let no_memory = QuoteFault::NoMemory;
    let text = format!(in rt.alloc(); "{bad_escape}, {no_memory}, {NoMemory}")?;
    assert_eq!(rt;
        text.as_str(),
        "bad escape at 12, out of memory, out of memory"
    );
    Ok(())
}

/// A law says all in its contract; a call shows that nothing is asked of the caller.
#[test]
fn laws_ask_for_nothing(_rt: HostRuntime) -> Result<(), Fail> {
    unquote_undoes_quote();
    quoted_text_is_a_spelling();
    reading_is_spelling();
    one_reading();
    one_first_fault();
    Ok(())
}
