//! Targets that are read into their path and query, and heads whose framing is told.

use cy_event::{Framing, HEAD_ROOM, Limits, NoMemory, RequestHead};
use cy_framing::framing;
use cy_target::read_target;
use std::alloc::Global;

/// A path without anything to resolve.
const PLAIN: &[u8] = b"/shop/catalog/items/4711/pictures/large";

/// The same with parameters, escapes, dots and a query.
const SPELLED: &[u8] =
    b"/shop;v=1/./catalog//%69tems/4710/../4711/p%69ctures/large?page=2&sort=name";

/// Reads a plain target so often, and adds up the lengths of its path.
pub fn plain_targets(alloc: Global, times: u64) -> Result<u64, NoMemory> {
    read_targets(alloc, PLAIN, times)
}

/// The same with a target that needs every rule.
pub fn spelled_targets(alloc: Global, times: u64) -> Result<u64, NoMemory> {
    read_targets(alloc, SPELLED, times)
}

fn read_targets(alloc: Global, target: &[u8], times: u64) -> Result<u64, NoMemory> {
    let mut head = RequestHead::new(alloc, &Limits::standard(1))?;
    if target.len() <= HEAD_ROOM {
        head.set_request_line(b"GET", target, 1);
    }
    let mut checksum: u64 = 0;
    for _ in 0..times {
        if read_target(&mut head).is_ok() {
            checksum = checksum.wrapping_add(head.path().len() as u64);
        }
    }
    Ok(checksum)
}

/// Tells the framing of a head of six fields so often, and adds up the lengths of its body.
pub fn framings(alloc: Global, times: u64) -> Result<u64, NoMemory> {
    let mut head = RequestHead::new(alloc, &Limits::standard(1))?;
    head.set_request_line(b"POST", b"/", 1);
    head.push_field(b"Host", b"localhost:8080");
    head.push_field(b"User-Agent", b"bench");
    head.push_field(b"Accept", b"text/html, application/xml;q=0.9, */*;q=0.8");
    head.push_field(b"Connection", b"keep-alive");
    head.push_field(b"Expect", b"100-continue");
    head.push_field(b"Content-Length", b"1024");
    let mut checksum: u64 = 0;
    for _ in 0..times {
        if let Ok(told) = framing(&head) {
            if let Framing::Length(length) = told.body {
                checksum = checksum.wrapping_add(length);
            }
        }
    }
    Ok(checksum)
}
