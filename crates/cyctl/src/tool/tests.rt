use super::*;
use cy_link::{MemSink, MemSource};
use std::test::Fail;

const SCRIPT: &[u8] =
    b"coyote-script 1\nrule / 0 async\nadmit 1\nin 1 \"GET / HTTP/1.1\\r\\nHost: a\\r\\n\\r\\n\"\nrun 1\nact 1 write \"hello\"\nreturn 1\n";

const REPORT: &[u8] =
    b"1 Entered\n2 Taken 27\n3 Begun service 0\n4 Taken 5\n5 Done\nconn 1 open took 0 of 78\nout \"HTTP/1.1 200 \\r\\nContent-Length: 5\\r\\nDate: Thu, 01 Jan 1970 00:00:00 GMT\\r\\n\\r\\nhello\"\nchart 1 1 Run Return\n";

const USAGE_TEXT: &[u8] = b"usage: cyctl replay | check | gen <n> | burn <n>\n";

/// What the program answers and what its sink gets, over a source and a sink that pass pieces of these sizes and fail
/// at these calls.
#[derive(Drop)]
struct Outside {
    reads: (usize, Option<u64>),
    writes: (usize, Option<u64>),
}

/// A list of one call, or of none.
fn calls(alloc: Global, call: Option<u64>) -> Result<Vec<u64>, Fail> {
    let mut calls = Vec::new(alloc);
    if let Some(call) = call {
        calls.push(call)?;
    }
    Ok(calls)
}

/// The words of a command line.
fn words_of(alloc: Global, words: &[&str]) -> Result<Vec<String>, Fail> {
    let mut all = Vec::new(alloc);
    for word in words {
        all.push(String::from_str(alloc, word)?)?;
    }
    Ok(all)
}

fn play(
    alloc: Global,
    words: &[&str],
    input: Vec<u8>,
    outside: Outside,
) -> Result<(u8, Vec<u8>), Fail> {
    let words = words_of(alloc, words)?;
    let mut source = MemSource::new(
        input,
        calls(alloc, outside.reads.1)?,
        outside.reads.0.max(1),
    );
    let mut sink = MemSink::new(
        Vec::new(alloc),
        calls(alloc, outside.writes.1)?,
        outside.writes.0.max(1),
    );
    let status = tool(alloc, &words, &mut source, &mut sink);
    Ok((status, sink.into_vec()))
}

#[test]
fn worked_example(rt: HostRuntime) -> Result<(), Fail> {
    for piece in [1, 7, 4096] {
        let outside = Outside {
            reads: (piece, None),
            writes: (piece, None),
        };
        let (status, written) = play(rt.alloc(), &["replay"], SCRIPT.to_vec(rt.alloc())?, outside)?;
        assert_eq!(rt; status, 0);
        assert_eq!(rt; written.as_slice(), REPORT);
    }
    Ok(())
}

#[test]
fn other_words(rt: HostRuntime) -> Result<(), Fail> {
    let lines: [&[&str]; 5] = [
        &[],
        &["replay", "x"],
        &["Replay"],
        &["gen", "0"],
        &["--help"],
    ];
    for words in lines {
        for (fails, told) in [(None, USAGE_TEXT), (Some(0), b"".as_slice())] {
            let outside = Outside {
                reads: (64, None),
                writes: (64, fails),
            };
            let (status, written) = play(rt.alloc(), words, SCRIPT.to_vec(rt.alloc())?, outside)?;
            assert_eq!(rt; status, 2);
            assert_eq!(rt; written.as_slice(), told);
        }
    }
    Ok(())
}

/// The source fails at each of its reads in turn, until none fails.
#[test]
fn failing_reads(rt: HostRuntime) -> Result<(), Fail> {
    for call in 0..20 {
        let outside = Outside {
            reads: (16, Some(call)),
            writes: (64, None),
        };
        let (status, written) = play(rt.alloc(), &["replay"], SCRIPT.to_vec(rt.alloc())?, outside)?;
        if status == 0 {
            assert_eq!(rt; written.as_slice(), REPORT);
            // The script has 115 bytes, so it is read in eight pieces, and a ninth read tells its end.
            assert_eq!(rt; call, 9);
            return Ok(());
        }
        assert_eq!(rt; status, 4);
        assert_eq!(rt; written.as_slice(), b"source fault\n".as_slice());
    }
    assert!(rt; false, "each run failed");
    Ok(())
}

/// The sink fails at each of its writes in turn, until none fails: it got a front of the report.
#[test]
fn failing_writes(rt: HostRuntime) -> Result<(), Fail> {
    for call in 0..20 {
        let outside = Outside {
            reads: (64, None),
            writes: (16, Some(call)),
        };
        let (status, written) = play(rt.alloc(), &["replay"], SCRIPT.to_vec(rt.alloc())?, outside)?;
        if status == 0 {
            assert_eq!(rt; written.as_slice(), REPORT);
            return Ok(());
        }
        assert_eq!(rt; status, 5);
        assert_eq!(rt; written.len() as u64, 16 * call);
        assert!(rt; REPORT.starts_with(written.as_slice()));
    }
    assert!(rt; false, "each run failed");
    Ok(())
}

#[test]
fn greatest_size(rt: HostRuntime) -> Result<(), Fail> {
    for (size, status, told) in [
        (67_108_864, 3, b"refused: script\n".as_slice()),
        (67_108_865, 7, b"too large\n".as_slice()),
    ] {
        let outside = Outside {
            reads: (65_536, None),
            writes: (64, None),
        };
        let input = vec![in rt.alloc(); b'a'; size]?;
        let (answered, written) = play(rt.alloc(), &["replay"], input, outside)?;
        assert_eq!(rt; answered, status);
        assert_eq!(rt; written.as_slice(), told);
    }
    Ok(())
}

/// Replays a script with ample pieces.
fn replayed(alloc: Global, script: &[u8]) -> Result<(u8, Vec<u8>), Fail> {
    let outside = Outside {
        reads: (65_536, None),
        writes: (65_536, None),
    };
    play(alloc, &["replay"], script.to_vec(alloc)?, outside)
}

/// Whole scripts and their reports.
const ROWS: [(&[u8], &[u8]); 14] = [
    // Nothing happens.
    (b"coyote-script 1", b""),
    // Nobody is admitted.
    (
        b"coyote-script 1\nrule / 0 async\nin 1 \"GET / HTTP/1.1\\r\\nHost: a\\r\\n\\r\\n\"\nrun 1\nact 1 write \"hello\"\nreturn 1\n",
        b"1 NoConn\n2 NoConn\n3 NoConn\n4 NoConn\n",
    ),
    // The same, and then a connection is admitted.
    (
        b"coyote-script 1\n\n# late\nend 1\nadmit 1\nend 1\n",
        b"1 NoConn\n2 Entered\n3 Done\nconn 1 InputEnd took 0 of 0\nout \"\"\n",
    ),
    // Two connections, admitted, stepped and ended in other orders than their numbers.
    (
        b"coyote-script 1\nrule / 0 async\nadmit 2\nadmit 1\nin 1 \"GET / HTTP/1.1\\r\\nHost: a\\r\\n\\r\\n\"\nin 2 \"GET / HTTP/1.1\\r\\nHost: a\\r\\n\\r\\n\"\nrun 2\nrun 1\nact 1 write \"one\"\nact 2 write \"two\"\nreturn 2\nreturn 1\n",
        b"1 Entered\n2 Entered\n3 Taken 27\n4 Taken 27\n5 Begun service 0\n6 Begun service 0\n7 Taken 3\n8 Taken 3\n9 Done\n10 Done\nconn 1 open took 0 of 76\nout \"HTTP/1.1 200 \\r\\nContent-Length: 3\\r\\nDate: Thu, 01 Jan 1970 00:00:00 GMT\\r\\n\\r\\none\"\nchart 1 1 Run Return\nconn 2 open took 0 of 76\nout \"HTTP/1.1 200 \\r\\nContent-Length: 3\\r\\nDate: Thu, 01 Jan 1970 00:00:00 GMT\\r\\n\\r\\ntwo\"\nchart 2 1 Run Return\n",
    ),
    // As many as may be counted are; one that is gone makes room for another, and isn't stepped again.
    (
        b"coyote-script 1\nset maxConnections 1\nadmit 2\nadmit 1\nend 1\nend 2\nadmit 3\nend 2\n",
        b"1 Entered\n2 Full 1\n3 NoConn\n4 Done\n5 Entered\n6 Closed\nconn 2 InputEnd took 0 of 0\nout \"\"\nconn 3 open took 0 of 0\nout \"\"\n",
    ),
    // The least and the greatest number.
    (
        b"coyote-script 1\nadmit 18446744073709551615\nadmit 1\nrun 18446744073709551615\nend 2\n",
        b"1 Entered\n2 Entered\n3 Idle\n4 NoConn\nconn 1 open took 0 of 0\nout \"\"\nconn 18446744073709551615 open took 0 of 0\nout \"\"\n",
    ),
    // A head in two pieces.
    (
        b"coyote-script 1\nrule / 0 async\nadmit 1\nin 1 \"GET / HTTP/1.1\\r\\nHost: a\\r\\n\\r\"\nrun 1\nin 1 \"\\n\"\nrun 1\n",
        b"1 Entered\n2 Taken 26\n3 Idle\n4 Taken 1\n5 Begun service 0\nconn 1 open took 0 of 0\nout \"\"\nchart 1 1 Run\n",
    ),
    // A length and a coding in one head.
    (
        b"coyote-script 1\nrule / 0 async\nadmit 1\nin 1 \"POST / HTTP/1.1\\r\\nHost: a\\r\\nContent-Length: 5\\r\\nTransfer-Encoding: chunked\\r\\n\\r\\n\"\nrun 1\n",
        b"1 Entered\n2 Taken 75\n3 Idle\nconn 1 Refused took 0 of 129\nout \"HTTP/1.1 400 \\r\\nContent-Type: text/plain\\r\\nContent-Length: 10\\r\\nDate: Thu, 01 Jan 1970 00:00:00 GMT\\r\\nConnection: close\\r\\n\\r\\nError 400\\n\"\n",
    ),
    // A tunnel.
    (
        b"coyote-script 1\nrule / 0 async\nadmit 1\nin 1 \"CONNECT a:1 HTTP/1.1\\r\\nHost: a\\r\\n\\r\\n\"\n",
        b"1 Entered\n2 Taken 33\nconn 1 Refused took 0 of 129\nout \"HTTP/1.1 501 \\r\\nContent-Type: text/plain\\r\\nContent-Length: 10\\r\\nDate: Thu, 01 Jan 1970 00:00:00 GMT\\r\\nConnection: close\\r\\n\\r\\nError 501\\n\"\n",
    ),
    // The last answer says so, and nothing more is read.
    (
        b"coyote-script 1\nset maxKeepAliveRequests 1\nrule / 0 async\nadmit 1\nin 1 \"GET / HTTP/1.1\\r\\nHost: a\\r\\n\\r\\n\"\nrun 1\nact 1 write \"hi\"\nreturn 1\nout 1 100\nin 1 \"x\"\n",
        b"1 Entered\n2 Taken 27\n3 Begun service 0\n4 Taken 2\n5 Done\n6 Taken 94\n7 Closed\nconn 1 LastAnswer took 94 of 94\nout \"HTTP/1.1 200 \\r\\nContent-Length: 2\\r\\nDate: Thu, 01 Jan 1970 00:00:00 GMT\\r\\nConnection: close\\r\\n\\r\\nhi\"\nchart 1 1 Run Return\n",
    ),
    // No rule serves the path.
    (
        b"coyote-script 1\nrule /x/* 0 sync\nadmit 1\nin 1 \"GET / HTTP/1.1\\r\\nHost: a\\r\\n\\r\\n\"\nrun 1\n",
        b"1 Entered\n2 Taken 27\n3 Idle\nconn 1 open took 0 of 110\nout \"HTTP/1.1 404 \\r\\nContent-Type: text/plain\\r\\nContent-Length: 10\\r\\nDate: Thu, 01 Jan 1970 00:00:00 GMT\\r\\n\\r\\nError 404\\n\"\nchart 1 1\n",
    ),
    // A body in chunks is read to its end.
    (
        b"coyote-script 1\nrule / 0 async\nadmit 1\nin 1 \"POST / HTTP/1.1\\r\\nHost: a\\r\\nTransfer-Encoding: chunked\\r\\n\\r\\n3;x=1\\r\\nabc\\r\\n2\\r\\nde\\r\\n0\\r\\nT: v\\r\\n\\r\\n\"\nrun 1\nact 1 read 10\nact 1 read 10\n",
        b"1 Entered\n2 Taken 86\n3 Begun service 0\n4 Got \"abcde\"\n5 GotEnd\nconn 1 open took 0 of 0\nout \"\"\nchart 1 1 Run\n",
    ),
    // Nobody reads a body, and a head stands behind it.
    (
        b"coyote-script 1\nrule / 0 async\nadmit 1\nin 1 \"POST / HTTP/1.1\\r\\nHost: a\\r\\nContent-Length: 3\\r\\n\\r\\nxyzGET / HTTP/1.1\\r\\nHost: a\\r\\n\\r\\n\"\nrun 1\nreturn 1\nrun 1\nreturn 1\n",
        b"1 Entered\n2 Taken 77\n3 Begun service 0\n4 Done\n5 Begun service 0\n6 Done\nconn 1 open took 0 of 146\nout \"HTTP/1.1 200 \\r\\nContent-Length: 0\\r\\nDate: Thu, 01 Jan 1970 00:00:00 GMT\\r\\n\\r\\nHTTP/1.1 200 \\r\\nContent-Length: 0\\r\\nDate: Thu, 01 Jan 1970 00:00:00 GMT\\r\\n\\r\\n\"\nchart 1 1 Run Return\nchart 1 2 Run Return\n",
    ),
    // A browser's head.
    (
        b"coyote-script 1\nrule / 0 async\nrule /app/* 1 sync\nadmit 1\nin 1 \"GET /app/list?page=2 HTTP/1.1\\r\\nHost: localhost:8080\\r\\nUser-Agent: Mozilla/5.0 (X11; Linux x86_64; rv:128.0) Gecko/20100101 Firefox/128.0\\r\\nAccept: text/html,application/xhtml+xml,application/xml;q=0.9,*/*;q=0.8\\r\\nAccept-Language: en-US,en;q=0.5\\r\\nAccept-Encoding: gzip, deflate, br\\r\\nConnection: keep-alive\\r\\nCookie: theme=dark; id=42\\r\\nUpgrade-Insecure-Requests: 1\\r\\nSec-Fetch-Dest: document\\r\\nSec-Fetch-Mode: navigate\\r\\nSec-Fetch-Site: none\\r\\nSec-Fetch-User: ?1\\r\\nCache-Control: no-cache\\r\\nPragma: no-cache\\r\\n\\r\\n\"\nrun 1\nreturn 1\n",
        b"1 Entered\n2 Taken 499\n3 Begun service 1\n4 Done\nconn 1 open took 0 of 73\nout \"HTTP/1.1 200 \\r\\nContent-Length: 0\\r\\nDate: Thu, 01 Jan 1970 00:00:00 GMT\\r\\n\\r\\n\"\nchart 1 1 Run Return\n",
    ),
];

#[test]
fn whole_scripts(rt: HostRuntime) -> Result<(), Fail> {
    for (script, report) in ROWS {
        let (status, written) = replayed(rt.alloc(), script)?;
        assert_eq!(rt; status, 0);
        assert_eq!(rt; written.as_slice(), report);
    }
    Ok(())
}

/// The body in chunks of the table, with its head, in single bytes: it is read as in one piece.
#[test]
fn single_bytes(rt: HostRuntime) -> Result<(), Fail> {
    let alloc = rt.alloc();
    let input =
        b"POST / HTTP/1.1\r\nHost: a\r\nTransfer-Encoding: chunked\r\n\r\n3;x=1\r\nabc\r\n2\r\nde\r\n0\r\nT: v\r\n\r\n";
    let mut script = String::from_str(alloc, "coyote-script 1\nrule / 0 async\nadmit 1\n")?;
    let mut report = String::from_str(alloc, "1 Entered\n")?;
    for (place, byte) in input.iter().enumerate() {
        script.push_str(format!(in alloc; "in 1 \"\\x{byte:02x}\"\n")?.as_str())?;
        let number = place.saturating_add(2);
        report.push_str(format!(in alloc; "{number} Taken 1\n")?.as_str())?;
    }
    script.push_str("run 1\nact 1 read 10\nact 1 read 10\n")?;
    report.push_str("88 Begun service 0\n89 Got \"abcde\"\n90 GotEnd\n")?;
    report.push_str("conn 1 open took 0 of 0\nout \"\"\nchart 1 1 Run\n")?;
    let (status, written) = replayed(alloc, script.as_bytes())?;
    assert_eq!(rt; status, 0);
    assert_eq!(rt; written.as_slice(), report.as_bytes());
    Ok(())
}

/// Heads of 8,192 and of 8,193 bytes, which is one more than the greatest.
#[test]
fn greatest_head(rt: HostRuntime) -> Result<(), Fail> {
    for (letters, report) in [
        (
            8160,
            "1 Entered\n2 Taken 8192\n3 Begun service 0\nconn 1 open took 0 of 0\nout \"\"\nchart 1 1 Run\n",
        ),
        (
            8161,
            "1 Entered\n2 Taken 8193\n3 Idle\nconn 1 Refused took 0 of 129\nout \"HTTP/1.1 400 \\r\\nContent-Type: text/plain\\r\\nContent-Length: 10\\r\\nDate: Thu, 01 Jan 1970 00:00:00 GMT\\r\\nConnection: close\\r\\n\\r\\nError 400\\n\"\n",
        ),
    ] {
        let mut script =
            b"coyote-script 1\nrule / 0 async\nadmit 1\nin 1 \"GET / HTTP/1.1\\r\\nHost: a\\r\\nX: ".to_vec(
                rt.alloc(),
            )?;
        script.extend_from_slice(&vec![in rt.alloc(); b'a'; letters]?)?;
        script.extend_from_slice(b"\\r\\n\\r\\n\"\nrun 1\n")?;
        let (status, written) = replayed(rt.alloc(), &script)?;
        assert_eq!(rt; status, 0);
        assert_eq!(rt; written.as_slice(), report.as_bytes());
    }
    Ok(())
}

/// What comes behind 146 heads that no rule serves, and what is told of it: a further head in the same piece and the
/// steps behind it; their replies, the cause, what was taken, and the last chart.
///
/// Each of the 146 is answered with 110 bytes. 15,950 wait as the last of them is taken up, and 16,060 behind it. What
/// follows isn't taken up while 16,060 or 16,001 wait, and is with 16,000; so is the end of the input.
const BEHIND_146: [(&str, &str, &str, &str); 3] = [
    (
        "GET /s HTTP/1.1\\r\\nHost: a\\r\\n\\r\\n\"\nrun 1\nout 1 59\nrun 1\nout 1 1\nrun 1\n",
        "2 Taken 3970\n3 Idle\n4 Taken 59\n5 Idle\n6 Taken 1\n7 Begun service 0\n",
        "open took 60",
        "chart 1 147 Run\n",
    ),
    (
        "\"\nend 1\nout 1 59\n",
        "2 Taken 3942\n3 Done\n4 Taken 59\n",
        "open took 59",
        "",
    ),
    (
        "\"\nend 1\nout 1 60\n",
        "2 Taken 3942\n3 Done\n4 Taken 60\n",
        "InputEnd took 60",
        "",
    ),
];

/// A text that stands 146 times.
fn all_146(alloc: Global, text: &str) -> Result<String, Fail> {
    let mut all = String::new(alloc);
    for _ in 0..146 {
        all.push_str(text)?;
    }
    Ok(all)
}

/// A further head is taken up where at most 16,000 bytes wait for the socket.
#[test]
fn most_bytes_that_wait(rt: HostRuntime) -> Result<(), Fail> {
    let alloc = rt.alloc();
    let heads = all_146(alloc, "GET / HTTP/1.1\\r\\nHost: a\\r\\n\\r\\n")?;
    let answers = all_146(
        alloc,
        "HTTP/1.1 404 \\r\\nContent-Type: text/plain\\r\\nContent-Length: 10\\r\\nDate: Thu, 01 Jan 1970 00:00:00 GMT\\r\\n\\r\\nError 404\\n",
    )?;
    let mut charts = String::new(alloc);
    for number in 1..147 {
        charts.push_str(&format!(in alloc; "chart 1 {number}\n")?)?;
    }
    for (behind, replies, standing, chart) in BEHIND_146 {
        let script = format!(in alloc;
            "coyote-script 1\nset maxKeepAliveRequests -1\nrule /s 0 sync\nadmit 1\nin 1 \"{heads}{behind}"
        )?;
        let report = format!(in alloc;
            "1 Entered\n{replies}conn 1 {standing} of 16060\nout \"{answers}\"\n{charts}{chart}"
        )?;
        let (status, written) = replayed(alloc, script.as_bytes())?;
        assert_eq!(rt; status, 0);
        assert_eq!(rt; written.as_slice(), report.as_bytes(), "{behind}");
    }
    Ok(())
}

/// Targets of which each rule serves some, the bytes that their heads have, and the components that serve them.
#[test]
fn served_targets(rt: HostRuntime) -> Result<(), Fail> {
    let five =
        "rule /a 0 async\nrule /x/* 1 async\nrule /x/y/* 2 async\nrule *.do 3 async\nrule / 4 async";
    let three = "rule / 0 async\nrule /a/c 1 async\nrule /a/b/ 2 async";
    for (rules, line, bytes, part) in [
        (five, "GET /a", 28, 0),
        (five, "GET /x", 28, 1),
        (five, "GET /x/q.do", 33, 1),
        (five, "GET /x/y/z", 32, 2),
        (five, "GET /q.do", 31, 3),
        (five, "GET /b", 28, 4),
        (five, "OPTIONS *", 31, 4),
        (three, "GET /a%20b;p=1/c?q", 40, 0),
        (three, "GET /a/./b/../c", 37, 1),
        (three, "GET //a//b/", 33, 2),
        (three, "GET http://h:1", 36, 0),
    ] {
        let script = format!(in rt.alloc();
            "coyote-script 1\n{rules}\nadmit 1\nin 1 \"{line} HTTP/1.1\\r\\nHost: a\\r\\n\\r\\n\"\nrun 1\n"
        )?;
        let report = format!(in rt.alloc();
            "1 Entered\n2 Taken {bytes}\n3 Begun service {part}\nconn 1 open took 0 of 0\nout \"\"\nchart 1 1 Run\n"
        )?;
        let (status, written) = replayed(rt.alloc(), script.as_bytes())?;
        assert_eq!(rt; status, 0);
        assert_eq!(rt; written.as_slice(), report.as_bytes(), "{line}");
    }
    Ok(())
}

/// Targets that are refused, and the bytes that their heads have.
#[test]
fn bad_targets(rt: HostRuntime) -> Result<(), Fail> {
    for (target, bytes) in [
        ("/..", 29),
        ("/%2f", 30),
        ("/%zz", 30),
        ("/%00", 30),
        ("a", 27),
    ] {
        let script = format!(in rt.alloc();
            "coyote-script 1\nrule / 0 async\nadmit 1\nin 1 \"GET {target} HTTP/1.1\\r\\nHost: a\\r\\n\\r\\n\"\nrun 1\n"
        )?;
        let report = format!(in rt.alloc();
            "1 Entered\n2 Taken {bytes}\n3 Idle\nconn 1 Refused took 0 of 129\nout \"HTTP/1.1 400 \\r\\nContent-Type: text/plain\\r\\nContent-Length: 10\\r\\nDate: Thu, 01 Jan 1970 00:00:00 GMT\\r\\nConnection: close\\r\\n\\r\\nError 400\\n\"\n"
        )?;
        let (status, written) = replayed(rt.alloc(), script.as_bytes())?;
        assert_eq!(rt; status, 0);
        assert_eq!(rt; written.as_slice(), report.as_bytes(), "{target}");
    }
    Ok(())
}

/// Texts outside the form: another first line, a line that says nothing of the form, a rule or a setting behind a
/// step, a pattern that is none or stands twice, a value out of its range, a connection 0, a second admission, and an
/// escape that is none.
#[test]
fn other_texts(rt: HostRuntime) -> Result<(), Fail> {
    for text in [
        "",
        "coyote-script 2\n",
        "coyote-script 1\nadmit\n",
        "coyote-script 1\nadmit 1\nrule / 0 async\n",
        "coyote-script 1\nadmit 1\nset maxHeaderCount 9\n",
        "coyote-script 1\nrule x 0 async\n",
        "coyote-script 1\nrule / 0 async\nrule / 1 async\n",
        "coyote-script 1\nset maxHttpHeaderSize 255\n",
        "coyote-script 1\nset maxHttpHeaderSize 8193\n",
        "coyote-script 1\nadmit 0\n",
        "coyote-script 1\nadmit 1\nadmit 2\nadmit 1\n",
        "coyote-script 1\nin 1 \"a\\q\"\n",
    ] {
        let (status, written) = replayed(rt.alloc(), text.as_bytes())?;
        assert_eq!(rt; status, 3, "{text}");
        assert_eq!(rt; written.as_slice(), b"refused: script\n".as_slice());
    }
    Ok(())
}

/// A law says all in its contract; a call shows that nothing is asked of the caller.
#[test]
fn laws_ask_for_nothing(_rt: HostRuntime) -> Result<(), Fail> {
    crate::laws::read_steps_are_valid();
    Ok(())
}
