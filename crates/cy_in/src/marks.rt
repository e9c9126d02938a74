//! Marks that move over the bytes of a body.

ghost use Rattle.std.specs.Prelude.{◌≡◌, ◌+◌, ◌<◌, ◌≤◌, ◌++◌, drop, length, min, take};
ghost use Rattle.cy_event.specs.Bodies.{content_left, give_bytes, is_bad, is_content, run_after, run_stage, scan_byte, scan_bytes};
ghost use Rattle.cy_in.specs.Moves.{IsContentWithin, MovesOn};

use crate::stages::{is_over, next_stage};
use cy_event::{BodyMark, BodyStage};

/// How many raw bytes of a body are taken at most.
pub const GREATEST_RAW: u64 = 1 << 62;

/// How many of the next bytes are content, whatever they are.
fn content_left(stage: BodyStage) -> u64
    ensures { result ≡ content_left stage }
{
    match stage {
        BodyStage::Counted(left) | BodyStage::InChunk(left) => left,
        _ => 0,
    }
}

/// Whether the next byte is content.
fn is_content(stage: BodyStage) -> bool
    ensures { result ≡ is_content stage }
{
    content_left(stage) > 0
}

/// Whether no continuation is a body.
fn is_bad(stage: BodyStage) -> bool
    ensures { result ≡ is_bad stage }
{
    matches!(stage, BodyStage::Malformed | BodyStage::TooLong)
}

/// What may come next behind a run of content.
fn run_stage(stage: BodyStage, run: u64) -> BodyStage
    ensures { result ≡ run_stage stage run }
{
    match stage {
        BodyStage::Counted(left) if left <= run => BodyStage::Whole,
        BodyStage::Counted(left) => BodyStage::Counted(left - run),
        BodyStage::InChunk(left) if left <= run => BodyStage::ChunkEnds,
        BodyStage::InChunk(left) => BodyStage::InChunk(left - run),
        _ => stage,
    }
}

/// The mark behind a run of content.
fn run_after(mark: BodyMark, run: usize) -> BodyMark
    requires raw { mark.raw + run ≤ GREATEST_RAW }
    requires content { IsContentWithin mark }
    ensures mark { result ≡ run_after mark run }
    ensures moves { MovesOn mark result run }
{
    let run = run as u64;
    BodyMark {
        raw: mark.raw + run,
        content: mark.content + run,
        stage: run_stage(mark.stage, run),
    }
}

/// The mark behind one byte more.
// Inlined, so that the mark stays in registers from byte to byte.
#[inline(always)]
fn scan_byte(max_trailer: u32, mark: BodyMark, byte: u8) -> BodyMark
    requires raw { mark.raw < GREATEST_RAW }
    requires content { IsContentWithin mark }
    ensures mark { result ≡ scan_byte max_trailer mark byte }
    ensures moves { MovesOn mark result 1 }
{
    if is_over(mark.stage) {
        return mark;
    }
    let next = next_stage(max_trailer, mark.stage, byte);
    if is_bad(next) {
        return BodyMark {
            stage: next,
            ..mark
        };
    }
    BodyMark {
        raw: mark.raw + 1,
        content: mark.content + u64::from(is_content(mark.stage)),
        stage: next,
    }
}

/// The mark behind the next run of content, or behind the next byte, and how many bytes were passed by.
fn step(max_trailer: u32, mark: BodyMark, rest: &[u8]) -> (BodyMark, usize)
    requires some { 1 ≤ length rest.now }
    requires raw { mark.raw + length rest.now ≤ GREATEST_RAW }
    requires content { IsContentWithin mark }
    ensures passes { 1 ≤ result.1 }
    ensures within { result.1 ≤ length rest.now }
    ensures mark { scan_bytes max_trailer mark rest.now ≡ scan_bytes max_trailer result.0 (drop result.1 rest.now) }
    ensures moves { MovesOn mark result.0 result.1 }
{
    let run = run_within(mark.stage, rest.len());
    if run > 0 {
        (run_after(mark, run), run)
    } else {
        (scan_byte(max_trailer, mark, rest[0]), 1)
    }
}

/// The mark behind the bytes.
pub fn scan_bytes(max_trailer: u32, from: BodyMark, bytes: &[u8]) -> BodyMark
    requires raw { from.raw + length bytes.now ≤ GREATEST_RAW }
    requires content { IsContentWithin from }
    ensures mark { result ≡ scan_bytes max_trailer from bytes.now }
    ensures moves { MovesOn from result (length bytes.now) }
{
    let mut mark = from;
    let mut rest = bytes;
    while !rest.is_empty() {
        let (next, passed) = step(max_trailer, mark, rest);
        mark = next;
        rest = &rest[passed..];
    }
    mark
}

/// Gives the first `most` bytes of content behind the mark, where there are as many, to the front of `into`, and tells
/// the mark behind the shortest part of the bytes that holds them, and how many they are.
pub fn give_bytes(
    max_trailer: u32,
    from: BodyMark,
    bytes: &[u8],
    most: usize,
    into: &mut [u8],
) -> (BodyMark, usize)
    requires raw { from.raw + length bytes.now ≤ GREATEST_RAW }
    requires content { IsContentWithin from }
    requires room { most ≤ length into.old }
    ensures mark { result.0 ≡ (give_bytes max_trailer most from bytes.now).mark }
    ensures given { into.new ≡ (give_bytes max_trailer most from bytes.now).content ++ drop result.1 into.old }
    ensures count { result.1 ≡ length (give_bytes max_trailer most from bytes.now).content }
    ensures moves { MovesOn from result.0 (length bytes.now) }
{
    let mut mark = from;
    let mut rest = bytes;
    let mut filled = 0;
    while filled < most && !rest.is_empty() {
        let run = run_within(mark.stage, rest.len().min(most - filled));
        if run > 0 {
            put_at(into, filled, &rest[..run]);
            filled += run;
            mark = run_after(mark, run);
            rest = &rest[run..];
        } else {
            mark = scan_byte(max_trailer, mark, rest[0]);
            rest = &rest[1..];
        }
    }
    (mark, filled)
}

/// How many of the next bytes are content, at most so many.
fn run_within(stage: BodyStage, most: usize) -> usize
    ensures { result ≡ min (content_left stage) most }
{
    content_left(stage).min(most as u64) as usize
}

/// Writes the bytes over those from a place on.
fn put_at(into: &mut [u8], at: usize, bytes: &[u8])
    requires { at + length bytes.now ≤ length into.old }
    ensures front { take (at + length bytes.now) into.new ≡ take at into.old ++ bytes.now }
    ensures behind { drop (at + length bytes.now) into.new ≡ drop (at + length bytes.now) into.old }
{
    into[at..at + bytes.len()].copy_from_slice(bytes);
}
