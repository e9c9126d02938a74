//! Heads that are read into their table.

use cy_event::{Limits, NoMemory, RequestHead};
use cy_head::{Front, head_front};
use std::alloc::Global;

const FIRST_LINES: &[u8] = b"GET /index.html HTTP/1.1\r\nHost: localhost\r\n";

const FIELD: &[u8] =
    b"Accept: text/html,application/xhtml+xml,application/xml;q=0.9,image/avif,image/webp,*/*;q=0.8\r\n";

const LAST_NAME: &[u8] = b"X: ";

const END: &[u8] = b"\r\n\r\n";

/// Reads a head of 100 bytes so often, and adds up the lengths and the numbers of fields.
pub fn heads_of_100(alloc: Global, times: u64) -> Result<u64, NoMemory> {
    read_heads(alloc, 100, times)
}

/// The same with a head of 1,000 bytes.
pub fn heads_of_1000(alloc: Global, times: u64) -> Result<u64, NoMemory> {
    read_heads(alloc, 1000, times)
}

/// The same with a head of 8,000 bytes.
pub fn heads_of_8000(alloc: Global, times: u64) -> Result<u64, NoMemory> {
    read_heads(alloc, 8000, times)
}

fn read_heads(alloc: Global, size: usize, times: u64) -> Result<u64, NoMemory> {
    let text = head_of_size(alloc, size)?;
    let limits = Limits::standard(1);
    let mut head = RequestHead::new(alloc, &limits)?;
    let mut checksum: u64 = 0;
    for _ in 0..times {
        if let Front::Head { length } = head_front(&text, &limits, &mut head) {
            checksum = checksum
                .wrapping_add(length as u64)
                .wrapping_add(head.field_count() as u64);
        }
    }
    Ok(checksum)
}

/// A head of so many bytes, with as many whole fields as there is room for.
fn head_of_size(alloc: Global, size: usize) -> Result<Vec<u8>, NoMemory> {
    let around = FIRST_LINES.len() + LAST_NAME.len() + END.len();
    let fields = size.saturating_sub(around) / FIELD.len();
    let mut head = Vec::from_slice(alloc, FIRST_LINES)?;
    for _ in 0..fields {
        head.extend_from_slice(FIELD)?;
    }
    head.extend_from_slice(LAST_NAME)?;
    for _ in head.len()..size.saturating_sub(END.len()) {
        head.push(b'x')?;
    }
    head.extend_from_slice(END)?;
    Ok(head)
}
