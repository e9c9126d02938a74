// What the contracts leave open: which calls fail and how much they move, on tables whose answers were worked out by
// hand, through the traits.
use super::*;
use std::alloc::Global;
use std::test::Fail;

/// One read into a slice of so many zeros: the answer, and the slice afterwards.
fn read_once<S: Source>(
    alloc: Global,
    source: &mut S,
    len: usize,
) -> Result<(Read, Vec<u8>), Fail> {
    let mut into = vec![in alloc; 0u8; len]?;
    if into.is_empty() {
        return Ok((Read::End, into));
    }
    let answer = source.read(into.as_mut_slice());
    Ok((answer, into))
}

/// One write of some bytes.
fn write_once<K: Sink>(sink: &mut K, bytes: &[u8]) -> Write {
    if bytes.is_empty() {
        return Write::NotYet;
    }
    sink.write(bytes)
}

#[test]
fn a_source_gives_its_bytes_but_for_the_calls_that_fail(rt: HostRuntime) -> Result<(), Fail> {
    let alloc = rt.alloc();
    let content = b"abcdefg".as_slice().to_vec(alloc)?;
    let failing = vec![in alloc; 1, 2, 6]?;
    let mut source = MemSource::new(content, failing, 3);
    let rows: [(usize, Read, &[u8], u64); 8] = [
        (5, Read::Got(3), b"abc\0\0", 0),
        (5, Read::Failed, b"\0\0\0\0\0", 1),
        (5, Read::Failed, b"\0\0\0\0\0", 2),
        (2, Read::Got(2), b"de", 2),
        (9, Read::Got(2), b"fg\0\0\0\0\0\0\0", 2),
        (1, Read::End, b"\0", 2),
        (1, Read::Failed, b"\0", 3),
        (1, Read::End, b"\0", 3),
    ];
    for (len, answer, bytes, faults) in rows {
        let (got, into) = read_once(alloc, &mut source, len)?;
        assert_eq!(rt; got, answer);
        assert_eq!(rt; into.as_slice(), bytes);
        assert_eq!(rt; source.faults(), faults);
    }
    Ok(())
}

#[test]
fn a_sink_keeps_what_it_took_but_for_the_calls_that_fail(rt: HostRuntime) -> Result<(), Fail> {
    let alloc = rt.alloc();
    let content = b"<".as_slice().to_vec(alloc)?;
    let failing = vec![in alloc; 0, 3]?;
    let mut sink = MemSink::new(content, failing, 3);
    let rows: [(&[u8], Write, &[u8], u64); 5] = [
        (b"abcd", Write::Failed, b"<", 1),
        (b"abcd", Write::Took(3), b"<abc", 1),
        (b"d", Write::Took(1), b"<abcd", 1),
        (b"e", Write::Failed, b"<abcd", 2),
        (b"e", Write::Took(1), b"<abcde", 2),
    ];
    for (bytes, answer, held, faults) in rows {
        assert_eq!(rt; write_once(&mut sink, bytes), answer);
        assert_eq!(rt; sink.held(), held);
        assert_eq!(rt; sink.faults(), faults);
    }
    assert_eq!(rt; sink.into_vec().as_slice(), b"<abcde".as_slice());
    Ok(())
}
