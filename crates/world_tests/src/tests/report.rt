// The report of a run: a line for each step, and then lines for each connection by rising number,
// whichever was admitted first.
ghost use Rattle.std.specs.Prelude.{◌≡◌, IfOk};
ghost use Rattle.cy_event.specs.declared.steps.Step.TheVariants as step;

use super::*;

/// Bytes that stand beside a step.
fn beside(alloc: Global, bytes: &[u8]) -> Result<StepBytes, Fail>
    ensures { IfOk result (λ beside. beside ≡ bytes.now) }
{
    Ok(StepBytes::of(Vec::from_slice(alloc, bytes)?))
}

fn on(conn: u64, event: Event, bytes: StepBytes) -> Step
    ensures { result ≡ step.On conn event bytes }
{
    Step::On { conn, event, bytes }
}

fn act(conn: u64, act: Act, bytes: StepBytes) -> Step
    ensures { result ≡ step.Act conn act bytes }
{
    Step::Act { conn, act, bytes }
}

/// Two heads, of which the one behind is taken up once the other's request has ended.
const HEADS: &[u8] = b"GET /a HTTP/1.1\r\nHost: a\r\n\r\nGET /b HTTP/1.1\r\nHost: a\r\n\r\n";

/// What is reported by the rules of docs/FORMATS.md, with a tilde in the place of each end of a line
/// of an answer.
const REPORT: &str = "1 Entered
2 Entered
3 Full 2
4 Taken 56
5 Begun service 0
6 Taken 21
7 Taken 5
8 NoConn
9 Done
10 Begun service 7
11 Begun service 7
12 Done
13 Taken 92
14 Taken 10
15 Closed
conn 9 LastAnswer took 92 of 92
out \"HTTP/1.1 200 ~Content-Length: 0~Date: Thu, 01 Jan 1970 00:00:00 GMT~Connection: close~~\"
chart 9 1 Run Return
conn 10 open took 10 of 78
out \"HTTP/1.1 200 ~Content-Length: 5~Date: Thu, 01 Jan 1970 00:00:00 GMT~~hello\"
chart 10 1 Run Return
chart 10 2 Run
";

/// A text of a report, in which a tilde stands for the end of a line as it is quoted.
pub(super) fn quoted(alloc: Global, text: &str) -> Result<Vec<u8>, Fail> {
    let mut bytes = Vec::new(alloc);
    for byte in text.as_bytes() {
        if *byte == b'~' {
            bytes.extend_from_slice(b"\\r\\n")?;
        } else {
            bytes.push(*byte)?;
        }
    }
    Ok(bytes)
}

/// The report of the steps of three connections: 10 is admitted before 9, and 11 finds two counted.
/// Of 10 the second request is open in the end, 9 is gone, and 11 was never there.
fn reported(alloc: Global) -> Result<Bytes, Fail> {
    let none = b"".as_slice();
    let steps = [
        Step::Admit(10),
        Step::Admit(9),
        Step::Admit(11),
        on(10, Event::In, beside(alloc, HEADS)?),
        Step::Run(10),
        on(9, Event::In, beside(alloc, b"GET /b?q HTTP/1.0\r\n\r\n")?),
        act(10, Act::Write(5), beside(alloc, b"hello")?),
        Step::Run(11),
        act(10, Act::Return, beside(alloc, none)?),
        Step::Run(9),
        Step::Run(10),
        act(9, Act::Return, beside(alloc, none)?),
        on(9, Event::Took(1000), beside(alloc, none)?),
        on(10, Event::Took(10), beside(alloc, none)?),
        on(9, Event::End, beside(alloc, none)?),
    ];
    Ok(run(alloc, &limits_for(2), &rules(alloc)?, &steps)?)
}

#[test]
fn connections_are_reported_by_rising_number(rt: HostRuntime) -> Result<(), Fail> {
    let alloc = rt.alloc();
    let wanted = quoted(alloc, REPORT)?;
    let text = reported(alloc)?.into_vec();
    assert!(rt;
        text == wanted,
        "{}",
        String::from_utf8_lossy(alloc, &text)?.as_str()
    );
    Ok(())
}
