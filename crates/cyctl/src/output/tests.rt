// What the contracts leave open: that a text is written, whatever its pieces, and that a fault at each call ends in its
// answer.
use super::*;
use cy_link::MemSink;
use std::io::Error;
use std::test::Fail;

/// The most bytes that one write to a test's sink takes.
const PIECE: usize = 5;

// It is written in five pieces.
const TEXT: &[u8] = b"out 0 HTTP/1.1 200\\r\\nend";

#[test]
fn a_write_that_fails_leaves_a_front_at_each_call(rt: HostRuntime) -> Result<(), Fail> {
    let alloc = rt.alloc();
    let fronts = [
        "",
        "out 0",
        "out 0 HTTP",
        "out 0 HTTP/1.1 ",
        "out 0 HTTP/1.1 200\\r",
    ];
    for (number, front) in fronts.iter().enumerate() {
        let failing = vec![in alloc; number as u64]?;
        let mut sink = MemSink::new(Vec::new(alloc), failing, PIECE);
        assert_eq!(rt; write_all(&mut sink, TEXT), Err(OutputFault), "at {number}");
        assert_eq!(rt; sink.held(), front.as_bytes());
        assert_eq!(rt; sink.faults(), 1);
    }
    let failing = vec![in alloc; 5]?;
    let mut sink = MemSink::new(Vec::new(alloc), failing, PIECE);
    assert_eq!(rt; write_all(&mut sink, TEXT), Ok(()));
    assert_eq!(rt; sink.held(), TEXT);
    assert_eq!(rt; sink.faults(), 0);
    Ok(())
}

#[test]
fn pieces_of_any_size_take_the_same_bytes(rt: HostRuntime) -> Result<(), Fail> {
    let alloc = rt.alloc();
    for piece in [1, 3, 7, 24, 25, 1_000] {
        let mut sink = MemSink::new(Vec::new(alloc), Vec::new(alloc), piece);
        assert_eq!(rt; write_all(&mut sink, TEXT), Ok(()));
        assert_eq!(rt; sink.held(), TEXT, "written by {piece}");
    }
    Ok(())
}

/// A writer that takes single bytes. A signal breaks off every second call, and the call of the number `failing`
/// fails.
#[derive(Drop)]
struct Rough {
    bytes: Vec<u8>,
    calls: u64,
    failing: u64,
}

impl io::Write for Rough {
    fn write(&mut self, buf: &[u8]) -> io::Result<usize> {
        self.calls = self.calls.saturating_add(1);
        if self.calls == self.failing {
            return Err(Error::from(ErrorKind::BrokenPipe));
        }
        if self.calls % 2 == 0 {
            return Err(Error::from(ErrorKind::Interrupted));
        }
        match buf.first() {
            Some(byte) => {
                self.bytes.push(*byte)?;
                Ok(1)
            }
            None => Ok(0),
        }
    }

    fn flush(&mut self) -> io::Result<()> {
        Ok(())
    }
}

#[test]
fn a_broken_off_write_is_tried_again_and_a_failed_one_told(rt: HostRuntime) -> Result<(), Fail> {
    let alloc = rt.alloc();
    let rows: [(u64, Result<(), OutputFault>, &[u8], u64); 2] = [
        (0, Ok(()), b"abc", 0),
        (4, Err(OutputFault), b"ab", 1),
    ];
    for (failing, written, text, faults) in rows {
        let rough = Rough {
            bytes: Vec::new(alloc),
            calls: 0,
            failing,
        };
        let mut sink = StdSink::new(rough);
        assert_eq!(rt; write_all(&mut sink, b"abc"), written);
        assert_eq!(rt; sink.faults(), faults);
        assert_eq!(rt; sink.writer.bytes.as_slice(), text);
    }
    Ok(())
}

#[test]
fn a_writer_that_takes_nothing_has_failed(rt: HostRuntime) {
    let mut place = [0; 2];
    let mut sink = StdSink::new(place.as_mut_slice());
    assert_eq!(rt; write_all(&mut sink, b"abc"), Err(OutputFault));
    assert_eq!(rt; sink.faults(), 1);
}
