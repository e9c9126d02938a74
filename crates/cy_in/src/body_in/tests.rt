//! Bodies by tables, each put in at once and byte by byte; and each call on its happy path, with ample memory.
ghost use Rattle.std.specs.Prelude.{◌≡◌, ◌+◌, ◌≤◌, None, IsTrue, length};

use super::*;
use crate::laws::{
    bad_bodies_have_no_continuation, bad_exactly_where_nothing_goes_on, bodies_stay,
    content_is_given_in_order, every_course_delivers, no_more_content_stands,
    one_body_stands_in_front, partial_bodies_go_on, partial_content_stays, pieces_are_the_whole,
    reads_take_the_fewest, ready_tells_reads, the_first_bad_byte_decides, whole_bodies_are_written,
    written_bodies_are_whole,
};
use std::alloc::Global;
use std::process::Abort;
use std::test::Fail;

/// What fills long lines.
const LETTERS: [u8; 8_200] = [b'x'; 8_200];

/// Blanks behind a chunk's size: one more than may stand there, since `;`, CR and LF must follow.
const BLANKS: [u8; 1_021] = [b' '; 1_021];

/// A body on its way through a ring.
#[derive(Drop)]
struct Course {
    kit: ConnKit,
    input: BodyIn,
    limits: Limits,
}

/// Whether few enough bytes came.
fn is_small(input: &BodyIn, kit: &ConnKit) -> bool
    ensures { IsTrue result → input.now.taken.raw + length kit.now.input ≤ GREATEST_RAW }
{
    input.taken.raw <= GREATEST_RAW / 2 && kit.in_len() <= cy_rings::IN_CAPACITY
}

/// Whether nothing was swallowed.
fn is_unswallowed(input: &BodyIn) -> bool
    ensures { IsTrue result → input.now.swallowed_from ≡ None }
{
    input.swallowed_from.is_none()
}

fn begin(rt: &impl Abort, alloc: Global, body: Framing) -> Result<Course, Fail> {
    if let Framing::Length(length) = body {
        assert!(rt; length <= GREATEST_RAW);
    }
    let mut input = BodyIn::none();
    start(rt, &mut input, body);
    Ok(Course {
        kit: ConnKit::new(alloc)?,
        input,
        limits: Limits::standard(1),
    })
}

fn start(rt: &impl Abort, input: &mut BodyIn, body: Framing) {
    match body {
        Framing::None => input.start(Framing::None),
        Framing::Length(length) => {
            assert!(rt; length <= GREATEST_RAW);
            input.start(Framing::Length(length));
        }
        Framing::Chunked => input.start(Framing::Chunked),
    }
}

fn scan(rt: &impl Abort, course: &mut Course) -> Scan {
    assert!(rt; is_small(&course.input, &course.kit));
    course.input.scan(&mut course.kit, &course.limits)
}

fn read(rt: &impl Abort, course: &mut Course, into: &mut [u8]) -> Reply {
    assert!(rt; is_small(&course.input, &course.kit));
    assert!(rt; is_unswallowed(&course.input));
    course.input.read(&mut course.kit, into)
}

fn swallow(rt: &impl Abort, course: &mut Course) -> Scan {
    assert!(rt; is_small(&course.input, &course.kit));
    course.input.swallow(&mut course.kit, &course.limits)
}

fn is_ready(rt: &impl Abort, course: &Course) -> bool {
    assert!(rt; is_unswallowed(&course.input));
    course.input.is_ready()
}

/// Puts the bytes in by pieces of this size, with a scan after each, and tells the last one.
fn put_in(rt: &impl Abort, course: &mut Course, bytes: &[u8], size: usize) -> Scan {
    let mut last = scan(rt, course);
    for piece in bytes.chunks(size.max(1)) {
        course.kit.put_in(piece);
        last = scan(rt, course);
    }
    last
}

/// What a body of chunks is that has these bytes, then so many letters, and then these.
fn scan_filled(
    rt: &impl Abort,
    alloc: Global,
    max_trailer: u32,
    head: &[u8],
    letters: usize,
    tail: &[u8],
    size: usize,
) -> Result<Scan, Fail> {
    let mut course = begin(rt, alloc, Framing::Chunked)?;
    course.limits.max_trailer = max_trailer;
    put_in(rt, &mut course, head, size);
    put_in(
        rt,
        &mut course,
        &LETTERS[..letters.min(LETTERS.len())],
        size,
    );
    Ok(put_in(rt, &mut course, tail, size))
}

/// That it is this under this limit of the trailers, put in at once and byte by byte.
fn expect_limited(
    rt: &impl Abort,
    alloc: Global,
    max_trailer: u32,
    head: &[u8],
    letters: usize,
    tail: &[u8],
    want: Scan,
) -> Result<(), Fail> {
    let whole = cy_rings::IN_CAPACITY;
    let at_once = scan_filled(rt, alloc, max_trailer, head, letters, tail, whole)?;
    let by_bytes = scan_filled(rt, alloc, max_trailer, head, letters, tail, 1)?;
    assert!(rt; at_once == want);
    assert!(rt; by_bytes == want);
    Ok(())
}

fn expect_filled(
    rt: &impl Abort,
    alloc: Global,
    head: &[u8],
    letters: usize,
    tail: &[u8],
    want: Scan,
) -> Result<(), Fail> {
    expect_limited(rt, alloc, 8_192, head, letters, tail, want)
}

fn expect(rt: &impl Abort, alloc: Global, bytes: &[u8], want: Scan) -> Result<(), Fail> {
    expect_filled(rt, alloc, bytes, 0, b"", want)
}

fn bad(place: u64) -> Scan {
    Scan::Bad(BodyFault::BadChunk { place })
}

#[test]
fn lines_of_chunks(rt: HostRuntime) -> Result<(), Fail> {
    let alloc = rt.alloc();
    expect_filled(
        &rt,
        alloc,
        b"5;",
        1_020,
        b"\r\nhello\r\n0\r\n\r\n",
        Scan::Whole,
    )?;
    expect_filled(&rt, alloc, b"5;", 1_021, b"\r\n", bad(1_022))?;
    expect(&rt, alloc, b"4000000000000000", Scan::Partial)?;
    expect(&rt, alloc, b"4000000000000001", bad(15))?;
    expect(
        &rt,
        alloc,
        b"0000000000000001\r\na\r\n0\r\n\r\n",
        Scan::Whole,
    )?;
    expect(&rt, alloc, b"00000000000000001", bad(16))?;
    expect(
        &rt,
        alloc,
        b"a\r\n0123456789\r\nA\r\n0123456789\r\n0\r\n\r\n",
        Scan::Whole,
    )?;
    expect(&rt, alloc, b"5 \r\n", bad(2))?;
    expect(&rt, alloc, b"5 \t;x\r\nhello\r\n0\r\n\r\n", Scan::Whole)?;
    expect(&rt, alloc, b"g", bad(0))?;
    expect(&rt, alloc, b"\r\n", bad(0))?;
    expect(&rt, alloc, b"3\nabc", bad(1))?;
    expect(&rt, alloc, b"3\r\r", bad(2))?;
    expect(&rt, alloc, b"3\r\nabcX", bad(6))?;
    expect(&rt, alloc, b"3\r\nabc\n", bad(6))?;
    expect(&rt, alloc, b"3\r\nabc\rX", bad(7))?;
    expect(&rt, alloc, b"3;x\ny", bad(3))
}

#[test]
fn blanks_fill_a_line(rt: HostRuntime) -> Result<(), Fail> {
    for size in [cy_rings::IN_CAPACITY, 1] {
        let mut fits = begin(&rt, rt.alloc(), Framing::Chunked)?;
        put_in(&rt, &mut fits, b"5", size);
        assert!(rt; put_in(&rt, &mut fits, &BLANKS[..1_020], size) == Scan::Partial);
        assert!(rt; put_in(&rt, &mut fits, b";\r\nhello\r\n0\r\n\r\n", size) == Scan::Whole);
        let mut passes = begin(&rt, rt.alloc(), Framing::Chunked)?;
        put_in(&rt, &mut passes, b"5", size);
        assert!(rt; put_in(&rt, &mut passes, &BLANKS, size) == bad(1_021));
    }
    Ok(())
}

#[test]
fn trailers(rt: HostRuntime) -> Result<(), Fail> {
    let alloc = rt.alloc();
    let too_large = Scan::Bad(BodyFault::TrailerTooLarge);
    expect_filled(&rt, alloc, b"0\r\nT: ", 8_185, b"\r\n\r\n", Scan::Whole)?;
    expect_filled(&rt, alloc, b"0\r\nT: ", 8_186, b"\r\n\r\n", too_large)?;
    expect_filled(&rt, alloc, b"0\r\n", 8_187, b":\r\n\r\n", Scan::Whole)?;
    expect_filled(&rt, alloc, b"0\r\n", 8_188, b":\r\n\r\n", too_large)?;
    expect(&rt, alloc, b"0\r\n", Scan::Partial)?;
    expect(&rt, alloc, b"0\r\n\r\n", Scan::Whole)?;
    expect(&rt, alloc, b"0\r\n\n", bad(3))?;
    expect(&rt, alloc, b"0\r\n:", bad(3))?;
    expect(&rt, alloc, b"0\r\nT \r\n", bad(4))?;
    expect(&rt, alloc, b"0\r\nT:a\n", bad(6))?;
    expect(&rt, alloc, b"0\r\nT:\0", bad(5))?;
    expect(&rt, alloc, b"0\r\nT:a\r\n b", bad(8))?;
    expect_limited(&rt, alloc, 6, b"0\r\nT:\r\n\r\n", 0, b"", Scan::Whole)?;
    expect_limited(&rt, alloc, 6, b"0\r\nT: ", 0, b"", too_large)
}

/// That this much content comes, and then the end, whatever the size of the pieces.
fn expect_content(
    rt: &impl Abort,
    alloc: Global,
    body: Framing,
    bytes: &[u8],
    content: &[u8],
    size: usize,
) -> Result<(), Fail> {
    let mut course = begin(rt, alloc, body)?;
    assert!(rt; put_in(rt, &mut course, bytes, size) == Scan::Whole);
    let mut page = [0u8; 16];
    assert!(rt; is_ready(rt, &course));
    assert!(rt; read(rt, &mut course, &mut page) == Reply::Got(content.len() as u64));
    assert!(rt; page.starts_with(content));
    assert!(rt; is_ready(rt, &course));
    assert!(rt; read(rt, &mut course, &mut page) == Reply::GotEnd);
    assert!(rt; course.kit.in_front() == b"GET".as_slice());
    Ok(())
}

#[test]
fn content_is_read(rt: HostRuntime) -> Result<(), Fail> {
    let alloc = rt.alloc();
    let chunks = b"3;x=1\r\nabc\r\n2\r\nde\r\n0\r\nT: v\r\n\r\nGET";
    expect_content(&rt, alloc, Framing::Chunked, chunks, b"abcde", 100)?;
    expect_content(&rt, alloc, Framing::Chunked, chunks, b"abcde", 1)?;
    expect_content(&rt, alloc, Framing::Length(3), b"xyzGET", b"xyz", 100)?;
    expect_content(&rt, alloc, Framing::Length(3), b"xyzGET", b"xyz", 1)
}

#[test]
fn reads_wait_for_content(rt: HostRuntime) -> Result<(), Fail> {
    let mut course = begin(&rt, rt.alloc(), Framing::Chunked)?;
    let mut page = [0u8; 4];
    assert!(rt; put_in(&rt, &mut course, b"5\r\nab", 100) == Scan::Partial);
    assert!(rt; read(&rt, &mut course, &mut []) == Reply::Got(0));
    assert!(rt; read(&rt, &mut course, &mut page[..1]) == Reply::Got(1));
    assert!(rt; page[0] == b'a');
    assert!(rt; course.kit.in_front() == b"b".as_slice());
    assert!(rt; read(&rt, &mut course, &mut page) == Reply::Got(1));
    assert!(rt; page[0] == b'b');
    assert!(rt; read(&rt, &mut course, &mut page) == Reply::Again);
    assert!(rt; read(&rt, &mut course, &mut []) == Reply::Again);
    assert!(rt; !is_ready(&rt, &course));
    assert!(rt; put_in(&rt, &mut course, b"cde\r\n0\r\n\r\n", 100) == Scan::Whole);
    assert!(rt; read(&rt, &mut course, &mut page) == Reply::Got(3));
    assert!(rt; read(&rt, &mut course, &mut []) == Reply::GotEnd);
    Ok(())
}

#[test]
fn no_body_is_whole(rt: HostRuntime) -> Result<(), Fail> {
    let mut course = begin(&rt, rt.alloc(), Framing::None)?;
    assert!(rt; is_ready(&rt, &course));
    assert!(rt; put_in(&rt, &mut course, b"GET", 1) == Scan::Whole);
    assert!(rt; read(&rt, &mut course, &mut []) == Reply::GotEnd);
    assert!(rt; course.kit.in_len() == 3);
    Ok(())
}

/// What swallowing says of the bytes, put in by pieces of this size with a `swallow` after each, and how many are left.
fn swallow_pieces(
    rt: &impl Abort,
    alloc: Global,
    body: Framing,
    max_swallow: u64,
    bytes: &[u8],
    size: usize,
) -> Result<(Scan, usize), Fail> {
    let mut course = begin(rt, alloc, body)?;
    course.limits.max_swallow = max_swallow;
    let mut last = Scan::Partial;
    for piece in bytes.chunks(size.max(1)) {
        course.kit.put_in(piece);
        last = swallow(rt, &mut course);
    }
    Ok((last, course.kit.in_len()))
}

/// That it is this, put in at once and byte by byte.
fn expect_swallowed(
    rt: &impl Abort,
    alloc: Global,
    body: Framing,
    max_swallow: u64,
    bytes: &[u8],
    want: (Scan, usize),
) -> Result<(), Fail> {
    let at_once = swallow_pieces(rt, alloc, body, max_swallow, bytes, 100)?;
    let by_bytes = swallow_pieces(rt, alloc, body, max_swallow, bytes, 1)?;
    assert!(rt; at_once == want);
    assert!(rt; by_bytes == want);
    Ok(())
}

#[test]
fn bodies_are_swallowed(rt: HostRuntime) -> Result<(), Fail> {
    let alloc = rt.alloc();
    let limit = Scan::Bad(BodyFault::SwallowLimit);
    let twenty = b"01234567890123456789GET";
    let whole = (Scan::Whole, 3);
    let partial = (Scan::Partial, 0);
    expect_swallowed(&rt, alloc, Framing::Length(20), 20, twenty, whole)?;
    expect_swallowed(&rt, alloc, Framing::Length(20), 19, twenty, (limit, 3))?;
    expect_swallowed(&rt, alloc, Framing::Length(30), 23, twenty, partial)?;
    // The bad byte stands at place 6.
    let bad_end = b"3\r\nabcXY";
    expect_swallowed(&rt, alloc, Framing::Chunked, 7, bad_end, (bad(6), 2))?;
    expect_swallowed(&rt, alloc, Framing::Chunked, 6, bad_end, (bad(6), 2))?;
    expect_swallowed(&rt, alloc, Framing::Chunked, 5, bad_end, (limit, 2))
}

#[test]
fn what_follows_the_content_is_swallowed(rt: HostRuntime) -> Result<(), Fail> {
    let mut course = begin(&rt, rt.alloc(), Framing::Chunked)?;
    let mut page = [0u8; 4];
    course.limits.max_swallow = 7;
    assert!(rt; put_in(&rt, &mut course, b"1\r\na", 100) == Scan::Partial);
    assert!(rt; read(&rt, &mut course, &mut page) == Reply::Got(1));
    assert!(rt; swallow(&rt, &mut course) == Scan::Partial);
    course.kit.put_in(b"\r\n0\r\n\r\nGET");
    assert!(rt; swallow(&rt, &mut course) == Scan::Whole);
    assert!(rt; course.kit.in_front() == b"GET".as_slice());
    Ok(())
}

/// Reads all that waits, which are letters, and says how much it was.
fn read_letters(rt: &impl Abort, course: &mut Course) -> usize {
    let mut page = [0u8; 1_000];
    let Reply::Got(count) = read(rt, course, &mut page) else {
        return 0;
    };
    assert!(rt; count <= 1_000);
    let count = count as usize;
    assert!(rt; page[..count].iter().all(|byte| *byte == b'x'));
    count
}

/// That 40,000 bytes come out of a ring of 16,384, read after each 999 of them, whatever the size of the pieces.
fn expect_long(rt: &impl Abort, alloc: Global, size: usize) -> Result<(), Fail> {
    let mut course = begin(rt, alloc, Framing::Length(40_000))?;
    let mut total = 0u64;
    for place in 0..41u64 {
        let count = if place < 40 { 999 } else { 40 };
        put_in(rt, &mut course, &LETTERS[..count], size);
        total = total.saturating_add(read_letters(rt, &mut course) as u64);
    }
    assert!(rt; total == 40_000);
    assert!(rt; read(rt, &mut course, &mut []) == Reply::GotEnd);
    Ok(())
}

#[test]
fn a_long_body_goes_through_a_smaller_ring(rt: HostRuntime) -> Result<(), Fail> {
    expect_long(&rt, rt.alloc(), 999)?;
    expect_long(&rt, rt.alloc(), 1)
}

#[test]
fn faults_are_printed(rt: HostRuntime) -> Result<(), Fail> {
    let place = BodyFault::BadChunk { place: 6 };
    assert_eq!(rt;
        format!(in rt.alloc(); "{place}")?.as_str(),
        "bad chunk at 6"
    );
    assert_eq!(rt;
        format!(in rt.alloc(); "{}", BodyFault::TrailerTooLarge)?.as_str(),
        "trailers too large"
    );
    assert_eq!(rt;
        format!(in rt.alloc(); "{}", BodyFault::SwallowLimit)?.as_str(),
        "too much to swallow"
    );
    Ok(())
}

#[test]
fn laws() {
    pieces_are_the_whole();
    bodies_stay();
    content_is_given_in_order();
    written_bodies_are_whole();
    whole_bodies_are_written();
    bad_bodies_have_no_continuation();
    partial_bodies_go_on();
    bad_exactly_where_nothing_goes_on();
    the_first_bad_byte_decides();
    partial_content_stays();
    no_more_content_stands();
    one_body_stands_in_front();
    reads_take_the_fewest();
    ready_tells_reads();
    every_course_delivers();
}
