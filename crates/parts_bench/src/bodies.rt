//! Bodies.
ghost use Rattle.std.specs.Prelude.{◌≡◌, ◌+◌, ◌≤◌, None, length};
ghost use Rattle.cy_in.specs.Intakes.{IsShort};

use anyhow::Result;
use cy_event::{Limits, Reply};
use cy_in::{BodyIn, Framing, GREATEST_RAW, Scan};
use cy_rings::ConnKit;
use std::alloc::Global;

/// How much a component reads at once.
const PAGE: usize = 8192;

/// How many bytes a body has that comes byte by byte.
const LONGEST: usize = 16_000;

/// Reads a body of 8,192 bytes with a `Content-Length` so often, and adds up the content.
pub fn bodies_of_8192(alloc: Global, times: u64) -> Result<u64> {
    read_bodies(alloc, Framing::Length(8192), &[b'x'; PAGE], times)
}

/// The same in eight chunks of 1,000 bytes: 8,061 bytes with what stands around them.
pub fn chunks_of_1000(alloc: Global, times: u64) -> Result<u64> {
    let text = chunks(alloc, 8, b"3e8\r\n", 1000)?;
    read_bodies(alloc, Framing::Chunked, &text, times)
}

/// The same in 1,000 chunks of one byte: 6,005 bytes with what stands around them.
pub fn chunks_of_1(alloc: Global, times: u64) -> Result<u64> {
    let text = chunks(alloc, 1000, b"1\r\n", 1)?;
    read_bodies(alloc, Framing::Chunked, &text, times)
}

/// Scans the first 1,000 bytes of a body after each of them, so often, and adds up how often it was a part.
pub fn scans_of_1000(alloc: Global, times: u64) -> Result<u64> {
    scan_bytes(alloc, 1000, times)
}

/// The same with 15,999 bytes.
pub fn scans_of_15999(alloc: Global, times: u64) -> Result<u64> {
    scan_bytes(alloc, 15_999, times)
}

/// A body of so many chunks with this line and so many letters.
fn chunks(alloc: Global, count: usize, line: &[u8], size: usize) -> Result<Vec<u8>> {
    let mut text = Vec::new(alloc);
    for _ in 0..count {
        text.extend_from_slice(line)?;
        for _ in 0..size {
            text.push(b'x')?;
        }
        text.extend_from_slice(b"\r\n")?;
    }
    text.extend_from_slice(b"0\r\n\r\n")?;
    Ok(text)
}

fn read_bodies(alloc: Global, body: Framing, text: &[u8], times: u64) -> Result<u64>
    requires { IsShort body }
{
    let limits = Limits::standard(1);
    let mut kit = ConnKit::new(alloc)?;
    let mut input = BodyIn::none();
    let mut page = [0u8; PAGE];
    let mut sum = 0u64;
    for _ in 0..times {
        kit.clear();
        input.start(body);
        kit.put_in(text);
        let _ = input.scan(&mut kit, &limits);
        sum = sum.wrapping_add(delivered(&mut input, &mut kit, &mut page));
    }
    Ok(sum)
}

/// How much content a read gives where the next one tells the end.
fn delivered(input: &mut BodyIn, kit: &mut ConnKit, page: &mut [u8]) -> u64
    requires size { input.old.taken.raw + length kit.old.input ≤ GREATEST_RAW }
    requires unswallowed { input.old.swallowed_from ≡ None }
{
    let first = input.read(kit, page);
    match (first, input.read(kit, page)) {
        (Reply::Got(count), Reply::GotEnd) => count,
        _ => 0,
    }
}

fn scan_bytes(alloc: Global, count: usize, times: u64) -> Result<u64>
    requires { count ≤ LONGEST }
{
    let limits = Limits::standard(1);
    let mut kit = ConnKit::new(alloc)?;
    let mut input = BodyIn::none();
    let mut sum = 0u64;
    for _ in 0..times {
        kit.clear();
        input.start(Framing::Length(LONGEST as u64));
        sum = sum.wrapping_add(parts(&mut input, &mut kit, &limits, count));
    }
    Ok(sum)
}

/// How often a body is a part, scanned after each of so many bytes.
fn parts(input: &mut BodyIn, kit: &mut ConnKit, limits: &Limits, count: usize) -> u64
    requires { input.old.taken.raw + length kit.old.input + count ≤ GREATEST_RAW }
{
    let mut sum = 0u64;
    for _ in 0..count {
        kit.put_in(b"x");
        if input.scan(kit, limits) == Scan::Partial {
            sum = sum.wrapping_add(1);
        }
    }
    sum
}
