// Requests with bodies: read, left unread, bad, cut off and passed over, in one piece and in single bytes.
use super::*;

const CHUNKED: &[u8] = b"POST /a HTTP/1.1\r\nHost: a\r\nTransfer-Encoding: chunked\r\n\r\n";

const OF_TEN: &[u8] = b"POST /a HTTP/1.1\r\nHost: a\r\nContent-Length: 10\r\n\r\n";

const ABSENT: &[u8] = b"POST /b HTTP/1.1\r\nHost: a\r\nTransfer-Encoding: chunked\r\n\r\n";

/// What a read of so many bytes at most is answered.
fn read(rt: &impl Abort, course: &mut Course, into: &mut [u8]) -> Reply {
    assert!(rt; into.len() <= 65_536);
    assert!(rt; is_open(&course.line));
    assert!(rt; course.processor.is_open());
    let count = into.len() as u32;
    course
        .processor
        .act(&mut course.line, 0, &Act::Read(count), b"", into)
}

/// Bytes come in one piece, or each by itself.
fn come(rt: &impl Abort, course: &mut Course, bytes: &[u8], singly: bool) {
    let size = if singly { 1 } else { bytes.len().max(1) };
    for piece in bytes.chunks(size) {
        tell(rt, course, Event::In, piece);
        settle(course);
    }
}

#[test]
fn a_body_in_chunks_is_read(rt: HostRuntime) -> Result<(), Fail> {
    for singly in [false, true] {
        let mut course = begin(rt.alloc(), 100)?;
        come(&rt, &mut course, CHUNKED, singly);
        come(
            &rt,
            &mut course,
            b"3;x=1\r\nabc\r\n2\r\nde\r\n0\r\nT: v\r\n\r\n",
            singly,
        );
        run(&rt, &mut course);
        let mut into = [b'.'; 10];
        assert_eq!(rt; read(&rt, &mut course, &mut into), Reply::Got(5));
        assert_eq!(rt; into.as_slice(), b"abcde.....".as_slice());
        assert_eq!(rt; read(&rt, &mut course, &mut into), Reply::GotEnd);
        assert_eq!(rt; into.as_slice(), b"abcde.....".as_slice());
        assert_eq!(rt; course.line.in_room(), 16_384);
    }
    Ok(())
}

#[test]
fn a_read_gives_what_waits(rt: HostRuntime) -> Result<(), Fail> {
    let mut course = begin(rt.alloc(), 100)?;
    come(&rt, &mut course, OF_TEN, false);
    run(&rt, &mut course);
    let mut into = [b'.'; 4];
    assert_eq!(rt; read(&rt, &mut course, &mut into), Reply::Again);
    come(&rt, &mut course, b"012345", false);
    assert_eq!(rt; course.line.in_room(), 16_378);
    assert_eq!(rt; read(&rt, &mut course, &mut []), Reply::Got(0));
    assert_eq!(rt; read(&rt, &mut course, &mut into), Reply::Got(4));
    assert_eq!(rt; into.as_slice(), b"0123".as_slice());
    assert_eq!(rt; course.line.in_room(), 16_382);
    come(&rt, &mut course, b"6789GET", false);
    assert_eq!(rt; read(&rt, &mut course, &mut [0; 20]), Reply::Got(6));
    assert_eq!(rt; read(&rt, &mut course, &mut []), Reply::GotEnd);
    assert_eq!(rt; course.line.in_room(), 16_381);
    Ok(())
}

/// What comes of a head, bytes that come while its request is open, those that come behind its end, and whether the input
/// then ends.
#[derive(Clone, Copy)]
struct Row {
    head: &'static [u8],
    open: &'static [u8],
    behind: &'static [u8],
    ends: bool,
    max_swallow: u64,
    answer: &'static str,
    cause: Option<CloseCause>,
}

fn expect_row(rt: &impl Abort, alloc: Global, row: &Row, singly: bool) -> Result<(), Fail> {
    let mut course = begin(alloc, 100)?;
    course.processor.limits.max_swallow = row.max_swallow;
    come(rt, &mut course, row.head, singly);
    come(rt, &mut course, row.open, singly);
    let ends_open = row.ends && row.behind.is_empty();
    if ends_open {
        tell(rt, &mut course, Event::End, b"");
    }
    if run(rt, &mut course) == Reply::Begun(Job::Service { part: 0 }) {
        write(rt, &mut course, 2, b"hi");
        give_back(rt, &mut course, 0);
    }
    settle(&mut course);
    come(rt, &mut course, row.behind, singly);
    if row.ends && !ends_open {
        tell(rt, &mut course, Event::End, b"");
    }
    settle(&mut course);
    assert_eq!(rt; course.line.unsent(), answer(row.answer), "{}", row.answer);
    assert_eq!(rt; course.line.cause(), row.cause);
    Ok(())
}

/// A body that comes so, of which as much may be passed over as comes.
fn came(
    head: &'static [u8],
    open: &'static [u8],
    behind: &'static [u8],
    answer: &'static str,
    cause: Option<CloseCause>,
) -> Row {
    Row {
        head,
        open,
        behind,
        ends: false,
        max_swallow: 1_000,
        answer,
        cause,
    }
}

#[test]
fn bodies_close_their_connection(rt: HostRuntime) -> Result<(), Fail> {
    let rows = [
        came(
            CHUNKED,
            b"3\r\nabc\r\nX",
            b"",
            "bad",
            Some(CloseCause::BadBody),
        ),
        came(
            CHUNKED,
            b"3\r\nab",
            b"c\r\nX",
            "served",
            Some(CloseCause::BadBody),
        ),
        came(ABSENT, b"3\r\nabX", b"", "absent", None),
        came(
            ABSENT,
            b"3\r\nabcX",
            b"",
            "absent",
            Some(CloseCause::BadBody),
        ),
        came(OF_TEN, b"", b"0123456789", "served", None),
        Row {
            max_swallow: 10,
            ..came(OF_TEN, b"", b"0123456789", "served", None)
        },
    ];
    for row in &rows {
        expect_row(&rt, rt.alloc(), row, false)?;
        expect_row(&rt, rt.alloc(), row, true)?;
    }
    Ok(())
}

/// A body of which so many bytes may be passed over.
fn passed(
    head: &'static [u8],
    behind: &'static [u8],
    max_swallow: u64,
    cause: Option<CloseCause>,
) -> Row {
    Row {
        max_swallow,
        ..came(head, b"", behind, "served", cause)
    }
}

#[test]
fn bodies_are_passed_over_up_to_the_limit(rt: HostRuntime) -> Result<(), Fail> {
    let long = Some(CloseCause::SwallowLimit);
    let bad = Some(CloseCause::BadBody);
    let rows = [
        passed(OF_TEN, b"0123456789", 9, long),
        passed(OF_TEN, b"0123456789", 10, None),
        passed(OF_TEN, b"", 0, None),
        passed(OF_TEN, b"0", 0, long),
        passed(CHUNKED, b"3\r\nabcX", 5, long),
        passed(CHUNKED, b"3\r\nabcX", 6, bad),
        passed(CHUNKED, b"X", 0, bad),
    ];
    for row in &rows {
        expect_row(&rt, rt.alloc(), row, false)?;
        expect_row(&rt, rt.alloc(), row, true)?;
    }
    Ok(())
}

#[test]
fn the_input_ends_inside_a_body(rt: HostRuntime) -> Result<(), Fail> {
    let cut_off = Some(CloseCause::InputEnd);
    let rows = [
        Row {
            ends: true,
            ..came(OF_TEN, b"", b"", "bad", cut_off)
        },
        Row {
            ends: true,
            ..came(OF_TEN, b"012345678", b"", "bad", cut_off)
        },
        Row {
            ends: true,
            ..came(CHUNKED, b"1\r\na\r\n0\r\n\r", b"", "bad", cut_off)
        },
        Row {
            ends: true,
            ..came(CHUNKED, b"1\r\na\r\n", b"0", "served", cut_off)
        },
        Row {
            ends: true,
            ..came(OF_TEN, b"0123456789", b"", "served", cut_off)
        },
    ];
    for row in &rows {
        expect_row(&rt, rt.alloc(), row, false)?;
        expect_row(&rt, rt.alloc(), row, true)?;
    }
    Ok(())
}
