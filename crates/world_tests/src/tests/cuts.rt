// Bodies that are read, left unread, bad or cut off: what comes of them is the same whether they
// come in one piece or byte by byte.
use super::course::{Cut, expect_row, expect_rows};
use super::*;

/// At most so many bytes are passed over, of what was not read before the end too.
const PASSED_OVER: &str = "9: in {10}; run; return; in 0123456789{}; run = Idle => \
SwallowLimit took 0 of 73 | 200 | Run Return
10: in {10}; run; return; in 0123456789{}; run => open took 0 of 73 | 200 | Run Return / Run
11: in {10}; run; return; in 0123456789{}; run => open took 0 of 73 | 200 | Run Return / Run
0: in {10}; run; return => open took 0 of 73 | 200 | Run Return
0: in {10}; run; return; in 0 => SwallowLimit took 0 of 73 | 200 | Run Return
5: in {10}0123456789; run; read 4 = Got \"0123\"; return => \
SwallowLimit took 0 of 73 | 200 | Run Return
6: in {10}0123456789; run; read 4 = Got \"0123\"; return => open took 0 of 73 | 200 | Run Return
0: in {10}0123456789; run; read 10 = Got \"0123456789\"; return => \
open took 0 of 73 | 200 | Run Return
2: in {chunked}; run; return; in 3~; end = Closed => SwallowLimit took 0 of 73 | 200 | Run Return";

#[test]
fn as_much_is_passed_over_as_may_be(rt: HostRuntime) -> Result<(), Fail> {
    expect_rows(&rt, rt.alloc(), PASSED_OVER)
}

/// The byte at place 6 is bad: what is passed over before it are 6 bytes.
const BAD_BYTES: &str = "5: in {chunked}; run; return; in 3~abcX => \
SwallowLimit took 0 of 73 | 200 | Run Return
6: in {chunked}; run; return; in 3~abcX => BadBody took 0 of 73 | 200 | Run Return
7: in {chunked}; run; return; in 3~abcX => BadBody took 0 of 73 | 200 | Run Return
0: in {chunked}; run; return; in X => BadBody took 0 of 73 | 200 | Run Return
5: in {chunked}3~abcX; run; read 1 = Closed; return => BadBody took 0 of 129 | 400-close | Run Return
7: in {chunked}3~abcX; run; write no = Closed; return => BadBody took 0 of 129 | 400-close | Run Return
1: in {chunked}3~a; run; read 1 = Got \"a\"; return; in bcX => \
SwallowLimit took 0 of 73 | 200 | Run Return
2: in {chunked}3~a; run; read 1 = Got \"a\"; return; in bcX => \
BadBody took 0 of 73 | 200 | Run Return
5: in {chunked}3~a; run; return; in bcX => SwallowLimit took 0 of 73 | 200 | Run Return
6: in {chunked}3~a; run; return; in bcX => BadBody took 0 of 73 | 200 | Run Return";

#[test]
fn a_bad_byte_counts_before_the_limit_and_not_behind_it(rt: HostRuntime) -> Result<(), Fail> {
    expect_rows(&rt, rt.alloc(), BAD_BYTES)
}

/// Fronts of a body, behind which the input ends: in each part of one.
const FRONTS: &str = "1
3
3 a
3 ab
chunked
chunked 3
chunked 3;x=1
chunked 3;x=1\r
chunked 3;x=1~
chunked 3;x=1~ab
chunked 3;x=1~abc
chunked 3;x=1~abc\r
chunked 3;x=1~abc~
chunked 3;x=1~abc~2~de~
chunked 3;x=1~abc~2~de~0
chunked 3;x=1~abc~2~de~0~
chunked 3;x=1~abc~2~de~0~T
chunked 3;x=1~abc~2~de~0~T: v
chunked 3;x=1~abc~2~de~0~T: v~
chunked 3;x=1~abc~2~de~0~T: v~\r";

/// That the input's end behind a front of a body is no end of it: while the request is open, behind
/// its end, and where nobody serves the path.
fn expect_cut_off(rt: &impl Abort, alloc: Global, framing: &str, front: &str) -> Result<(), Fail> {
    let open = format!(in alloc;
        "99: in {{{framing}}}{front}; run; end; return => \
         InputEnd took 0 of 129 | 400-close | Run Return"
    )?;
    let over = format!(in alloc;
        "99: in {{{framing}}}{front}; run; return; end => \
         InputEnd took 0 of 73 | 200 | Run Return"
    )?;
    let unserved = format!(in alloc;
        "99: in {{/c {framing}}}{front}; end => InputEnd took 0 of 110 | 404 | no call"
    )?;
    expect_rows(rt, alloc, &open)?;
    expect_rows(rt, alloc, &over)?;
    expect_rows(rt, alloc, &unserved)
}

/// The end of the input behind a whole body is one behind the answer to its request.
const WHOLE_BODIES: &str = "99: in {0}; run; end; return => InputEnd took 0 of 73 | 200 | Run Return
99: in {3}abc; run; end; read 9 = Got \"abc\"; read 9 = GotEnd; return => \
InputEnd took 0 of 73 | 200 | Run Return
99: in {chunked}3;x=1~abc~2~de~0~T: v~~; run; end; read 9 = Got \"abcde\"; return => \
InputEnd took 0 of 73 | 200 | Run Return";

#[test]
fn the_input_ends_in_each_part_of_a_body(rt: HostRuntime) -> Result<(), Fail> {
    let alloc = rt.alloc();
    for line in FRONTS.split('\n') {
        let (framing, front) = line.split_once(' ').unwrap_or((line, ""));
        expect_cut_off(&rt, alloc, framing, front)?;
    }
    expect_rows(&rt, alloc, WHOLE_BODIES)
}

/// `100 Continue` is written as the request begins, where the client waits for it and has a body to
/// send. In HTTP/1.0 the field says nothing.
const EXPECTED: &str = "99: in {Expect: 100-continue~Content-Length: 2}; run; read 9 = Again; \
in ok; read 9 = Got \"ok\"; return => open took 0 of 90 | continue 200 | Run Return
99: in {Expect: 100-Continue~Transfer-Encoding: chunked}; run; return => \
open took 0 of 90 | continue 200 | Run Return
99: in {Expect: 100-continue~Content-Length: 0}; run; read 9 = GotEnd; return => \
open took 0 of 73 | 200 | Run Return
99: in {Expect: 100-continue}; run; read 9 = GotEnd; return => \
open took 0 of 73 | 200 | Run Return
99: in {Expect: ~Content-Length: 2}; run; read 9 = Again; in ok; read 9 = Got \"ok\"; return => \
open took 0 of 73 | 200 | Run Return
99: in POST /a HTTP/1.0~Expect: 100-continue~Content-Length: 2~~ok; run; read 9 = Got \"ok\"; \
return => LastAnswer took 0 of 92 | 200-close | Run Return
99: in POST /a HTTP/1.0~Expect: a miracle~Content-Length: 2~~ok; run; read 9 = Got \"ok\"; \
return => LastAnswer took 0 of 92 | 200-close | Run Return
99: in {Expect: 100-continue, more~Content-Length: 2}ok; run = Idle => \
Refused took 0 of 129 | 417-close | no request
99: in {/c Expect: 100-continue~Content-Length: 2}ok => open took 0 of 110 | 404 | no call";

#[test]
fn a_client_that_waits_is_told_to_go_on(rt: HostRuntime) -> Result<(), Fail> {
    expect_rows(&rt, rt.alloc(), EXPECTED)
}

/// A read of no bytes tells whether content waits, and uses up none.
const READS_OF_NONE: &str = "99: in {4}; run; read 0 = Again; in ok; read 0 = Got \"\"; \
read 2 = Got \"ok\"; read 0 = Again; return => open took 0 of 73 | 200 | Run Return
99: in {2}ok; run; read 0 = Got \"\"; read 9 = Got \"ok\"; read 0 = GotEnd; return => \
open took 0 of 73 | 200 | Run Return
99: in {}; run; read 0 = GotEnd; return => open took 0 of 73 | 200 | Run Return
99: in {chunked}1~a; run; read 0 = Got \"\"; read 1 = Got \"a\"; read 0 = Again; in ~0~~; \
read 0 = GotEnd; return => open took 0 of 73 | 200 | Run Return
1: in {2}ok; run; read 0 = Got \"\"; return => SwallowLimit took 0 of 73 | 200 | Run Return
2: in {2}ok; run; read 0 = Got \"\"; return => open took 0 of 73 | 200 | Run Return";

#[test]
fn a_read_may_ask_for_nothing(rt: HostRuntime) -> Result<(), Fail> {
    expect_rows(&rt, rt.alloc(), READS_OF_NONE)
}

/// Nobody serves the path, and the body is passed over.
const UNSERVED: &str = "3: in {/c 3}xyz{}; run; return => \
open took 0 of 183 | 404 200 | no call / Run Return
2: in {/c 3}xyz{}; run = Idle => SwallowLimit took 0 of 110 | 404 | no call
99: in {/c chunked}3~abc~0~~{/c}{}; run => open took 0 of 220 | 404 404 | no call / no call / Run
99: in {/c chunked}3~abcX{} => BadBody took 0 of 110 | 404 | no call
99: in {/c 3}xy; end => InputEnd took 0 of 110 | 404 | no call
99: in {/c Connection: close~Content-Length: 3}xyz{}; end = Closed => \
LastAnswer took 0 of 129 | 404-close | no call";

#[test]
fn a_body_that_nobody_serves_is_passed_over(rt: HostRuntime) -> Result<(), Fail> {
    expect_rows(&rt, rt.alloc(), UNSERVED)
}

/// Behind the content of a body in chunks are 7 bytes more, unless its end was told.
const ENDS_UNREAD: &str = "6: in {chunked}1~a~0~~; run; read 9 = Got \"a\"; return => \
SwallowLimit took 0 of 73 | 200 | Run Return
7: in {chunked}1~a~0~~{}; run; read 9 = Got \"a\"; return; run; return => \
open took 0 of 146 | 200 200 | Run Return / Run Return
0: in {chunked}1~a~0~~{}; run; read 9 = Got \"a\"; read 9 = GotEnd; return; run; return => \
open took 0 of 146 | 200 200 | Run Return / Run Return
0: in {3}abc{}; run; read 3 = Got \"abc\"; return; run; return => \
open took 0 of 146 | 200 200 | Run Return / Run Return
7: in {chunked}1~a; run; read 9 = Got \"a\"; return; run = Idle; in ~0~~{}; run => \
open took 0 of 73 | 200 | Run Return / Run";

#[test]
fn the_end_of_what_was_read_is_passed_over(rt: HostRuntime) -> Result<(), Fail> {
    expect_rows(&rt, rt.alloc(), ENDS_UNREAD)
}

/// As many bytes of a piece are taken as there was room for before it.
const LONG_PIECES: &str = "40000: in {40000}; run; return; xs 40000 = Taken 16384; \
xs 23616 = Taken 16384; xs 7232 = Taken 7232; in {}; run; return => \
open took 0 of 146 | 200 200 | Run Return / Run Return
39999: in {40000}; run; return; xs 40000 = Taken 16384; xs 23616 = Taken 16384; \
xs 7232 = Taken 7232; in {} = Closed => SwallowLimit took 0 of 73 | 200 | Run Return";

/// The same, byte by byte.
const LONG_ROW: &str = "40000: in {40000}; run; return; xs 40000; in {}; run; return => \
open took 0 of 146 | 200 200 | Run Return / Run Return";

#[test]
fn a_long_body_is_passed_over_by_pieces(rt: HostRuntime) -> Result<(), Fail> {
    let alloc = rt.alloc();
    for row in LONG_PIECES.lines() {
        expect_row(&rt, alloc, Cut::Whole, row)?;
    }
    expect_row(&rt, alloc, Cut::Singly, LONG_ROW)
}

/// What a connection does that leaves a body unread: some of it didn't come, some is passed over,
/// some is bad, or a head stands behind it. The steps, and what it came to.
const FORMERS: &str = "in {Connection: close~Content-Length: 10}01234; run; return; \
took 99 = Taken 92 => LastAnswer took 92 of 92 | 200-close | Run Return
in {Connection: close~Content-Length: 3}xyz{}; run; return; took 99 = Taken 92 => \
LastAnswer took 92 of 92 | 200-close | Run Return
in {10}01234; run; read 2 = Got \"01\"; return; end; took 99 = Taken 73 => \
InputEnd took 73 of 73 | 200 | Run Return
in {chunked}3~ab; run; read 1 = Got \"a\"; end; return; took 999 = Taken 129 => \
InputEnd took 129 of 129 | 400-close | Run Return
in {chunked}; run; return; in 3~abcX; took 99 = Taken 73 => \
BadBody took 73 of 73 | 200 | Run Return
in {chunked}3~abcX; run; return; took 999 = Taken 129 => \
BadBody took 129 of 129 | 400-close | Run Return
in {200}; run; return; xs 101; took 99 = Taken 73 => SwallowLimit took 73 of 73 | 200 | Run Return
in {/c 10}01234; end; took 999 = Taken 110 => InputEnd took 110 of 110 | 404 | no call";

/// What the next connection does that gets its line, and what it comes to.
const NEXTS: &str = "in {}; run; read 9 = GotEnd; return => open took 0 of 73 | 200 | Run Return
in {3}abc{}; run; read 2 = Got \"ab\"; return; run => open took 0 of 73 | 200 | Run Return / Run
in {chunked}1~z; run; read 9 = Got \"z\"; read 9 = Again; in ~0~~; read 9 = GotEnd; return => \
open took 0 of 73 | 200 | Run Return
in {100}; run; return; xs 100; in {}; run => open took 0 of 73 | 200 | Run Return / Run";

/// That the next connection finds nothing of a body that the former one left.
fn expect_behind(rt: &impl Abort, alloc: Global, former: &str) -> Result<(), Fail> {
    let (first, came_to) = former.split_once(" => ").ok_or("no outcome")?;
    for next in NEXTS.lines() {
        let (then, comes_to) = next.split_once(" => ").ok_or("no outcome")?;
        let row = format!(in alloc; "100: {first}; admit; {then} => {came_to} => {comes_to}")?;
        expect_rows(rt, alloc, &row)?;
    }
    Ok(())
}

#[test]
fn the_next_connection_finds_nothing_of_a_body(rt: HostRuntime) -> Result<(), Fail> {
    for former in FORMERS.lines() {
        expect_behind(&rt, rt.alloc(), former)?;
    }
    Ok(())
}
