//! Answers.

use anyhow::Result;
use cy_event::Reply;
use cy_out::{Answer, BodyOut, PIECE_SIZE};
use cy_respond::RespHead;
use cy_rings::ConnKit;
use std::alloc::Global;

/// The request that is answered.
const GET: Answer = Answer {
    minor: 1,
    is_head: false,
    keep: true,
};

/// A moment of 1994.
const MOMENT: u64 = 784_111_777_000;

/// How many bytes a write takes, as far as a checksum needs it.
fn taken(reply: Reply) -> u64 {
    match reply {
        Reply::Taken(count) => count,
        _ => 0,
    }
}

/// Writes so many pieces of 8,192 bytes, each of which the client takes at once.
pub fn pieces_of_8192(alloc: Global, times: u64) -> Result<u64> {
    let page = [b'x'; PIECE_SIZE];
    let mut body = BodyOut::new(alloc)?;
    let head = RespHead::new(alloc)?;
    let mut kit = ConnKit::new(alloc)?;
    let mut sum = 0u64;
    body.begin(&GET);
    for _ in 0..times {
        let count = taken(body.write(&page, MOMENT, &head, &mut kit));
        sum = sum.wrapping_add(count).wrapping_add(kit.out_len() as u64);
        kit.clear();
    }
    Ok(sum)
}

/// Makes so many answers of 100 bytes with two fields.
pub fn answers_of_100(alloc: Global, times: u64) -> Result<u64> {
    let content = [b'x'; 100];
    let mut body = BodyOut::new(alloc)?;
    let mut head = RespHead::new(alloc)?;
    let mut kit = ConnKit::new(alloc)?;
    let mut sum = 0u64;
    for _ in 0..times {
        kit.clear();
        head.reset();
        let _ = head.add_header(b"Content-Type", b"text/plain");
        let _ = head.add_header(b"Cache-Control", b"no-cache");
        body.begin(&GET);
        let count = taken(body.write(&content, MOMENT, &head, &mut kit));
        let _ = body.finish(MOMENT, &head, &mut kit);
        sum = sum.wrapping_add(count).wrapping_add(kit.out_len() as u64);
    }
    Ok(sum)
}
