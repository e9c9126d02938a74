// A line and a processor, driven as who holds them drives them: the worked answers, and each call on its happy path, with
// ample memory.
use super::*;
use crate::line::Standing;
use crate::line::tests::is_open;
use cy_bytes::Bytes;
use cy_event::CloseCause;
use cy_map::Rule;
use std::process::Abort;
use std::test::Fail;

mod bodies;

/// A connection whose component 0 serves `/a` and what is below it.
#[derive(Drop)]
struct Course {
    line: Line,
    processor: Processor,
    rules: Mapper,
}

fn begin(alloc: Global, max_keep_alive: i64) -> Result<Course, Fail> {
    let mut limits = Limits::standard(1);
    limits.max_keep_alive = max_keep_alive;
    let rule = Rule {
        pattern: Bytes::of(Vec::from_slice(alloc, b"/a/*")?),
        part: 0,
        can_async: false,
    };
    Ok(Course {
        line: Line::new(alloc)?,
        processor: Processor::new(alloc, &limits)?,
        rules: Mapper::new(alloc, &[rule])?,
    })
}

/// Takes up a head that is due, and says how the connection stands where none is due and no request is open.
fn open_due(course: &mut Course) -> Option<Standing> {
    if is_open(&course.line) {
        return None;
    }
    let standing = course.line.settle(0, &course.processor.limits);
    if standing != Standing::Due {
        return Some(standing);
    }
    course.processor.clear();
    let _done = course.processor.open(&mut course.line, 0, &course.rules);
    None
}

/// Takes up the heads that are due, one after another, and says how the connection stands behind them.
fn settle(course: &mut Course) -> Option<Standing> {
    for _ in 0..4u32 {
        if course.processor.is_over() {
            course.processor.clear();
        }
        if let Some(standing) = open_due(course) {
            return Some(standing);
        }
    }
    None
}

fn tell(rt: &impl Abort, course: &mut Course, event: Event, bytes: &[u8]) -> Reply {
    if !is_open(&course.line) {
        return course.line.event(0, event, bytes, &course.processor.limits);
    }
    assert!(rt; course.processor.is_open());
    course.processor.event(&mut course.line, 0, event, bytes)
}

fn run(rt: &impl Abort, course: &mut Course) -> Reply {
    settle(course);
    if !is_open(&course.line) {
        return Reply::Idle;
    }
    assert!(rt; course.processor.is_open());
    course.processor.run(&mut course.line, 0)
}

fn write(rt: &impl Abort, course: &mut Course, count: u32, bytes: &[u8]) -> Reply {
    assert!(rt; count as usize <= bytes.len());
    assert!(rt; is_open(&course.line));
    assert!(rt; course.processor.is_open());
    course
        .processor
        .act(&mut course.line, 0, &Act::Write(count), bytes, &mut [])
}

fn give_back(rt: &impl Abort, course: &mut Course, at: u64) -> Reply {
    assert!(rt; at <= cy_event::GREATEST_MOMENT);
    assert!(rt; is_open(&course.line));
    assert!(rt; course.processor.is_open());
    course
        .processor
        .act(&mut course.line, at, &Act::Return, b"", &mut [])
}

/// The socket takes these bytes, which are the first that wait.
fn expect_sent(rt: &impl Abort, course: &mut Course, bytes: &[u8]) {
    assert!(rt; course.line.unsent().starts_with(bytes), "{bytes:?}");
    let count = bytes.len() as u64;
    assert_eq!(rt;
        tell(rt, course, Event::Took(count), b""),
        Reply::Taken(count)
    );
}

/// The bytes of an answer of this name.
fn answer(name: &str) -> &'static [u8] {
    match name {
        "served" => {
            b"HTTP/1.1 200 \r\nContent-Length: 2\r\nDate: Thu, 01 Jan 1970 00:00:00 GMT\r\n\r\nhi"
        }
        "served-kept" => {
            b"HTTP/1.1 200 \r\nContent-Length: 2\r\nDate: Thu, 01 Jan 1970 00:00:00 GMT\r\n\
            Connection: keep-alive\r\n\r\nhi"
        }
        "served-last" => {
            b"HTTP/1.1 200 \r\nContent-Length: 2\r\nDate: Thu, 01 Jan 1970 00:00:00 GMT\r\n\
            Connection: close\r\n\r\nhi"
        }
        "absent" => {
            b"HTTP/1.1 404 \r\nContent-Type: text/plain\r\nContent-Length: 10\r\n\
            Date: Thu, 01 Jan 1970 00:00:00 GMT\r\n\r\nError 404\n"
        }
        "absent-last" => {
            b"HTTP/1.1 404 \r\nContent-Type: text/plain\r\nContent-Length: 10\r\n\
            Date: Thu, 01 Jan 1970 00:00:00 GMT\r\nConnection: close\r\n\r\nError 404\n"
        }
        "bad" => {
            b"HTTP/1.1 400 \r\nContent-Type: text/plain\r\nContent-Length: 10\r\n\
            Date: Thu, 01 Jan 1970 00:00:00 GMT\r\nConnection: close\r\n\r\nError 400\n"
        }
        "unbuilt" => {
            b"HTTP/1.1 501 \r\nContent-Type: text/plain\r\nContent-Length: 10\r\n\
            Date: Thu, 01 Jan 1970 00:00:00 GMT\r\nConnection: close\r\n\r\nError 501\n"
        }
        "unbuilt-head" => {
            b"HTTP/1.1 501 \r\nContent-Type: text/plain\r\nContent-Length: 10\r\n\
            Date: Thu, 01 Jan 1970 00:00:00 GMT\r\nConnection: close\r\n\r\n"
        }
        _ => b"no such answer",
    }
}

/// That these bytes, which come in one piece, have these answers and no others, where each service writes `hi`; and why
/// the connection then closes.
fn expect(
    rt: &impl Abort,
    alloc: Global,
    bytes: &[u8],
    answers: &str,
    cause: Option<CloseCause>,
) -> Result<(), Fail> {
    let mut course = begin(alloc, 100)?;
    let count = bytes.len() as u64;
    assert_eq!(rt;
        tell(rt, &mut course, Event::In, bytes),
        Reply::Taken(count)
    );
    for name in answers.split(' ') {
        if run(rt, &mut course) == Reply::Begun(Job::Service { part: 0 }) {
            assert_eq!(rt; write(rt, &mut course, 2, b"hi!"), Reply::Taken(2));
            assert_eq!(rt; give_back(rt, &mut course, 0), Reply::Done);
        }
        expect_sent(rt, &mut course, answer(name));
    }
    let standing = match cause {
        Some(_) => Standing::Gone,
        None => Standing::Waiting,
    };
    assert_eq!(rt; settle(&mut course), Some(standing));
    assert_eq!(rt; course.line.unsent_len(), 0);
    assert_eq!(rt; course.line.cause(), cause);
    Ok(())
}

#[test]
fn heads_have_their_answers(rt: HostRuntime) -> Result<(), Fail> {
    let rows: [(&[u8], &str, Option<CloseCause>); 15] = [
        (b"GET /a HTTP/1.1\r\nHost: a\r\n\r\n", "served", None),
        (
            b"GET /a HTTP/1.1\r\nHost: a\r\n\r\nGET /a/b HTTP/1.1\r\nHost: a\r\n\r\n",
            "served served",
            None,
        ),
        // A path without a rule says nothing of the connection, which goes on.
        (
            b"GET /b HTTP/1.1\r\nHost: a\r\n\r\nGET /a HTTP/1.1\r\nHost: a\r\n\r\n",
            "absent served",
            None,
        ),
        (
            b"GET /b HTTP/1.1\r\nHost: a\r\nConnection: close\r\n\r\n",
            "absent-last",
            Some(CloseCause::LastAnswer),
        ),
        // Versions, and what a head says of its connection.
        (
            b"GET /a HTTP/1.0\r\n\r\nGET /a HTTP/1.0\r\n\r\n",
            "served-last",
            Some(CloseCause::LastAnswer),
        ),
        (
            b"GET /a HTTP/1.0\r\nConnection: keep-alive\r\n\r\n",
            "served-kept",
            None,
        ),
        (
            b"GET /a HTTP/1.1\r\nHost: a\r\nConnection: close\r\n\r\n",
            "served-last",
            Some(CloseCause::LastAnswer),
        ),
        // A head that is refused is the last one.
        (
            b"GET /a\r\n\r\nGET /a HTTP/1.1\r\nHost: a\r\n\r\n",
            "bad",
            Some(CloseCause::Refused),
        ),
        (
            b"POST /a HTTP/1.1\r\nHost: a\r\nContent-Length: 5\r\nTransfer-Encoding: chunked\r\n\r\n",
            "bad",
            Some(CloseCause::Refused),
        ),
        (
            b"GET /.. HTTP/1.1\r\nHost: a\r\n\r\n",
            "bad",
            Some(CloseCause::Refused),
        ),
        // Nothing of the former head is left.
        (
            b"GET /a HTTP/1.1\r\nHost: a\r\n\r\nGET /a HTTP/1.1\r\n\r\n",
            "served bad",
            Some(CloseCause::Refused),
        ),
        // A body that nobody reads, where a rule serves its path and where none does.
        (
            b"POST /a HTTP/1.1\r\nHost: a\r\nContent-Length: 3\r\n\r\nxyzGET /a HTTP/1.1\r\nHost: a\r\n\r\n",
            "served served",
            None,
        ),
        (
            b"POST /b HTTP/1.1\r\nHost: a\r\nContent-Length: 3\r\n\r\nxyzGET /a HTTP/1.1\r\nHost: a\r\n\r\n",
            "absent served",
            None,
        ),
        // What isn't served so far.
        (
            b"CONNECT a:1 HTTP/1.1\r\nHost: a\r\n\r\n",
            "unbuilt",
            Some(CloseCause::Refused),
        ),
        (
            b"HEAD /a HTTP/1.1\r\nHost: a\r\n\r\n",
            "unbuilt-head",
            Some(CloseCause::Refused),
        ),
    ];
    for (bytes, answers, cause) in rows {
        expect(&rt, rt.alloc(), bytes, answers, cause)?;
    }
    Ok(())
}

#[test]
fn a_service_runs_between_two_heads(rt: HostRuntime) -> Result<(), Fail> {
    let heads = b"GET /a HTTP/1.1\r\nHost: a\r\n\r\nGET /a HTTP/1.1\r\nHost: a\r\n\r\n";
    let begun = Reply::Begun(Job::Service { part: 0 });
    let letters = [b'x'; 9_000];
    let mut course = begin(rt.alloc(), -1)?;
    tell(&rt, &mut course, Event::In, &heads[..27]);
    assert_eq!(rt; run(&rt, &mut course), Reply::Idle);
    assert_eq!(rt;
        tell(&rt, &mut course, Event::In, &heads[27..]),
        Reply::Taken(29)
    );
    assert_eq!(rt; settle(&mut course), None);

    // The callback is owed, and then it runs.
    let owed = Some(Job::Service { part: 0 });
    assert_eq!(rt; course.processor.next_job(&course.line), owed);
    assert_eq!(rt; give_back(&rt, &mut course, 0), Reply::NotActive);
    assert_eq!(rt; run(&rt, &mut course), begun);
    assert_eq!(rt; course.processor.next_job(&course.line), None);
    assert_eq!(rt; run(&rt, &mut course), Reply::Idle);

    // Content waits until it returns.
    assert_eq!(rt;
        write(&rt, &mut course, 8_190, &letters),
        Reply::Taken(8_190)
    );
    assert_eq!(rt; write(&rt, &mut course, 5, &letters), Reply::Taken(2));
    assert_eq!(rt; write(&rt, &mut course, 1, &letters), Reply::Again);
    assert_eq!(rt; write(&rt, &mut course, 0, &letters), Reply::Taken(0));
    assert_eq!(rt; course.line.unsent_len(), 0);
    assert_eq!(rt; give_back(&rt, &mut course, 0), Reply::Done);

    // 76 bytes of the head, and the content.
    assert_eq!(rt; course.line.unsent_len(), 8_268);
    assert!(rt; course.processor.is_over());
    assert!(rt; course.processor.has_request());
    assert_eq!(rt; course.processor.chart_len(), 2);
    assert!(rt; course.processor.chart_item(0) == ChartItem::One(Call::Run));
    assert!(rt; course.processor.chart_item(1) == ChartItem::One(Call::Return));
    assert_eq!(rt; run(&rt, &mut course), begun);
    assert!(rt; course.processor.is_open());
    Ok(())
}

#[test]
fn a_refused_head_is_no_request(rt: HostRuntime) -> Result<(), Fail> {
    for head in [
        b"GET /a\r\n\r\n".as_slice(),
        b"HEAD /a HTTP/1.1\r\nHost: a\r\n\r\n",
    ] {
        let mut course = begin(rt.alloc(), 100)?;
        assert!(rt; !course.processor.has_request());
        tell(&rt, &mut course, Event::In, head);
        assert_eq!(rt; open_due(&mut course), None);
        assert!(rt; course.processor.is_over());
        assert!(rt; !course.processor.has_request());
        assert!(rt; !course.processor.is_open());
        assert_eq!(rt; course.processor.chart_len(), 0);
        course.processor.clear();
        assert!(rt; !course.processor.is_over());
    }
    Ok(())
}

#[test]
fn the_last_request_of_a_connection(rt: HostRuntime) -> Result<(), Fail> {
    let mut course = begin(rt.alloc(), 1)?;
    tell(
        &rt,
        &mut course,
        Event::In,
        b"GET /a HTTP/1.1\r\nHost: a\r\n\r\n",
    );
    run(&rt, &mut course);
    write(&rt, &mut course, 2, b"hi");
    assert_eq!(rt; give_back(&rt, &mut course, 784_111_777_000), Reply::Done);
    let answer = b"HTTP/1.1 200 \r\nContent-Length: 2\r\nDate: Sun, 06 Nov 1994 08:49:37 GMT\r\n\
        Connection: close\r\n\r\nhi";
    assert_eq!(rt; course.line.unsent(), answer.as_slice());
    assert_eq!(rt; settle(&mut course), Some(Standing::Closing));
    assert_eq!(rt;
        tell(&rt, &mut course, Event::Took(100), b""),
        Reply::Taken(94)
    );
    assert_eq!(rt; settle(&mut course), Some(Standing::Gone));
    assert_eq!(rt; tell(&rt, &mut course, Event::In, b"x"), Reply::Closed);
    assert_eq!(rt; course.line.cause(), Some(CloseCause::LastAnswer));
    Ok(())
}
