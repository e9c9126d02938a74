// What the contracts leave open: that a text is read, whatever its pieces, and that a fault at each call ends in its
// answer.
use super::*;
use cy_link::MemSource;
use std::io::Error;
use std::test::Fail;

/// The most bytes that one read of a test's source gives.
const PIECE: usize = 5;

// It is read in five pieces, and a sixth read tells the end.
const TEXT: &[u8] = b"in 0 GET / HTTP/1.1\nend";

/// What is read from a source of these bytes, or nothing.
fn read_or_nothing<S: Source>(alloc: Global, source: &mut S) -> Vec<u8> {
    match read_all(alloc, source) {
        Ok(input) => input,
        Err(_) => Vec::new(alloc),
    }
}

#[test]
fn a_read_that_fails_is_told_at_each_call(rt: HostRuntime) -> Result<(), Fail> {
    let alloc = rt.alloc();
    for number in 0..6 {
        let failing = vec![in alloc; number]?;
        let mut source = MemSource::new(TEXT.to_vec(alloc)?, failing, PIECE);
        let fault = read_all(alloc, &mut source).err();
        assert_eq!(rt; fault, Some(InputFault::Failed), "at {number}");
        assert_eq!(rt; source.faults(), 1);
    }
    let failing = vec![in alloc; 6]?;
    let mut source = MemSource::new(TEXT.to_vec(alloc)?, failing, PIECE);
    assert_eq!(rt; read_or_nothing(alloc, &mut source).as_slice(), TEXT);
    assert_eq!(rt; source.faults(), 0);
    Ok(())
}

#[test]
fn the_greatest_input_is_read_and_a_byte_more_is_refused(rt: HostRuntime) -> Result<(), Fail> {
    let alloc = rt.alloc();
    let rows = [
        (GREATEST_INPUT, Ok(GREATEST_INPUT)),
        (GREATEST_INPUT + 1, Err(InputFault::TooLarge)),
    ];
    for (len, read) in rows {
        let content = vec![in alloc; b'x'; len]?;
        let mut source = MemSource::new(content, Vec::new(alloc), usize::MAX);
        let input = read_all(alloc, &mut source);
        assert_eq!(rt; input.map(|input| input.len()), read, "of {len}");
    }
    Ok(())
}

#[test]
fn pieces_of_any_size_give_the_same_bytes(rt: HostRuntime) -> Result<(), Fail> {
    let alloc = rt.alloc();
    let mut text = Vec::new(alloc);
    for at in 0..40_000u32 {
        text.push((at % 251) as u8)?;
    }
    for piece in [1, 3, 1_021, 16_383, 16_384, 16_385, 40_000] {
        let mut source = MemSource::new(text.to_vec(alloc)?, Vec::new(alloc), piece);
        let input = read_or_nothing(alloc, &mut source);
        assert!(rt; input.as_slice() == text.as_slice(), "read by {piece}");
    }
    Ok(())
}

/// A reader of single bytes, the last of them first. A signal breaks off every second call, and the call of the
/// number `failing` fails.
#[derive(Drop)]
struct Rough {
    bytes: Vec<u8>,
    calls: u64,
    failing: u64,
}

impl io::Read for Rough {
    fn read(&mut self, buf: &mut [u8]) -> io::Result<usize> {
        self.calls = self.calls.saturating_add(1);
        if self.calls == self.failing {
            return Err(Error::from(ErrorKind::BrokenPipe));
        }
        if self.calls % 2 == 0 {
            return Err(Error::from(ErrorKind::Interrupted));
        }
        match (buf.first_mut(), self.bytes.pop()) {
            (Some(place), Some(byte)) => {
                *place = byte;
                Ok(1)
            }
            _ => Ok(0),
        }
    }
}

#[test]
fn a_broken_off_read_is_tried_again_and_a_failed_one_told(rt: HostRuntime) -> Result<(), Fail> {
    let alloc = rt.alloc();
    for (failing, fault, faults) in [(0, None, 0), (4, Some(InputFault::Failed), 1)] {
        let bytes = b"cba".as_slice().to_vec(alloc)?;
        let mut source = StdSource::new(Rough {
            bytes,
            calls: 0,
            failing,
        });
        let input = read_all(alloc, &mut source);
        assert_eq!(rt; source.faults(), faults);
        match input {
            Ok(input) => assert_eq!(rt; input.as_slice(), b"abc".as_slice()),
            Err(told) => assert_eq!(rt; Some(told), fault),
        }
    }
    Ok(())
}
