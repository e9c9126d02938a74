//! The texts of every reply and of a connection, written down by hand.
use super::*;
use cy_bytes::Bytes;
use cy_event::{Call, ChartItem, CloseCause, Job, Reply, State};
use std::alloc::{AllocError, Global};
use std::test::Fail;

#[test]
fn names_each_reply(rt: HostRuntime) -> Result<(), Fail> {
    let rows = [
        (Reply::Done, "Done"),
        (Reply::Wake, "Wake"),
        (Reply::Entered, "Entered"),
        (Reply::Full(8192), "Full 8192"),
        (Reply::Taken(0), "Taken 0"),
        (
            Reply::Taken(18_446_744_073_709_551_615),
            "Taken 18446744073709551615",
        ),
        (Reply::Got(2), "Got \"a\\n\""),
        (Reply::GotEnd, "GotEnd"),
        (Reply::Again, "Again"),
        (Reply::Ready(true), "Ready true"),
        (Reply::Ready(false), "Ready false"),
        (Reply::Begun(Job::Resume), "Begun resume"),
        (Reply::Idle, "Idle"),
        (
            Reply::Illegal(State::CompletePending),
            "Illegal COMPLETE_PENDING",
        ),
        (Reply::Unsupported, "Unsupported"),
        (Reply::AlreadySet, "AlreadySet"),
        (Reply::Committed, "Committed"),
        (Reply::BadValue, "BadValue"),
        (Reply::NotActive, "NotActive"),
        (Reply::NoConn, "NoConn"),
        (Reply::NoPass, "NoPass"),
        (Reply::Ended, "Ended"),
        (Reply::Closed, "Closed"),
        (Reply::TooMany(64), "TooMany 64"),
    ];
    for (reply, text) in rows {
        let mut into = Bytes::of(Vec::new(rt.alloc()));
        print_reply(rt.alloc(), &reply, b"a\n", &mut into)?;
        assert_eq!(rt; into.as_slice(), text.as_bytes());
    }
    Ok(())
}

#[test]
fn names_each_job(rt: HostRuntime) -> Result<(), Fail> {
    let rows = [
        (Job::Service { part: 3 }, "service 3"),
        (
            Job::Again {
                part: 4_294_967_295,
            },
            "again 4294967295",
        ),
        (Job::Resume, "resume"),
        (Job::Readable, "readable"),
        (Job::AllRead, "allread"),
        (Job::Writable, "writable"),
        (Job::ReadError, "readerror"),
        (Job::WriteError, "writeerror"),
        (
            Job::OnTimeout {
                listener: 0,
                tag: 255,
            },
            "ontimeout 0 255",
        ),
        (
            Job::OnError {
                listener: 15,
                tag: 0,
            },
            "onerror 15 0",
        ),
        (
            Job::OnComplete {
                listener: 1,
                tag: 2,
            },
            "oncomplete 1 2",
        ),
    ];
    for (job, name) in rows {
        let mut into = Bytes::of(Vec::new(rt.alloc()));
        print_reply(rt.alloc(), &Reply::Begun(job), b"", &mut into)?;
        let text = format!(in rt.alloc(); "Begun {name}")?;
        assert_eq!(rt; into.as_slice(), text.as_bytes());
    }
    Ok(())
}

/// The chart of two calls and twelve cycles.
fn chart(alloc: Global, request: u64) -> Result<Chart, AllocError> {
    let items = [
        ChartItem::One(Call::Run),
        ChartItem::Cycles(12),
        ChartItem::One(Call::Return),
    ];
    let items = ChartItems::of(Vec::from_slice(alloc, &items)?);
    Ok(Chart { request, items })
}

#[test]
fn writes_a_connection_behind_what_stands_there(rt: HostRuntime) -> Result<(), Fail> {
    let alloc = rt.alloc();
    let mut charts = Vec::new(alloc);
    charts.push(chart(alloc, 1)?)?;
    charts.push(Chart {
        request: 2,
        items: ChartItems::of(Vec::new(alloc)),
    })?;
    let lines =
        b"1 Done\nconn 7 InputEnd took 2 of 5\nout \"a\\r\\n\\\"\\x00\"\nchart 7 1 Run Cycles 12 Return\nchart 7 2\n";
    let mut into = Bytes::of(b"1 Done\n".to_vec(alloc)?);
    let cause = Some(CloseCause::InputEnd);
    print_conn(alloc, 7, cause, 2, b"a\r\n\"\x00", &charts, &mut into)?;
    assert_eq!(rt; into.as_slice(), lines.as_slice());
    Ok(())
}

#[test]
fn numbers_a_chart_by_its_own_request(rt: HostRuntime) -> Result<(), Fail> {
    let alloc = rt.alloc();
    let mut charts = Vec::new(alloc);
    charts.push(chart(alloc, 9)?)?;
    let lines = b"conn 1 open took 0 of 0\nout \"\"\nchart 1 9 Run Cycles 12 Return\n";
    let mut into = Bytes::of(Vec::new(alloc));
    print_conn(alloc, 1, None, 0, b"", &charts, &mut into)?;
    assert_eq!(rt; into.as_slice(), lines.as_slice());
    Ok(())
}

#[test]
fn laws_hold() {
    laws::numbered_charts_are_the_report();
}
