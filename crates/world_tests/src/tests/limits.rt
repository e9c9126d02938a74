// How many connections are counted at once, and who is refused.
use super::*;

/// That a step of so many new connections, from the first number on, is answered so.
fn expect_each(
    rt: &impl Abort,
    alloc: Global,
    world: &mut World,
    first: u64,
    count: u32,
) -> Result<(), Fail> {
    for i in 0..u64::from(count) {
        let conn = first.saturating_add(i);
        let got = reply(rt, alloc, world, conn, "admit")?;
        assert!(rt;
            got.as_slice() == b"Entered".as_slice(),
            "connection {conn}"
        );
    }
    Ok(())
}

/// That the lines hold, with the limit in the place of each `#`.
fn expect_at(
    rt: &impl Abort,
    alloc: Global,
    world: &mut World,
    most: u32,
    lines: &str,
) -> Result<(), Fail> {
    let mut text = String::new(alloc);
    for piece in lines.chars() {
        if piece == '#' {
            text.push_str(format!(in alloc; "{most}")?.as_str())?;
        } else {
            text.push(piece)?;
        }
    }
    expect(rt, alloc, world, &text)
}

/// As many connections as are counted are in, from number 11 on.
const AT_THE_LIMIT: &str = "1 counted => #
1 admit => Full #
1 in GET /a HTTP/1.1~Host: a~~ => NoConn
1 run => NoConn
1 return => NoConn
1 took 5 => NoConn
1 out => nothing
2 admit => Full #
1 counted => #
11 in GET /a HTTP/1.0~~ => Taken 19
11 run => Begun service 0
11 return => Done
3 admit => Full #
11 took 1000 => Taken 92
11 told => Some(LastAnswer) took Some(92), 1 of 1 ended
11 in GET => Closed
1 run => NoConn
4 admit => Entered
4 counted => #
5 admit => Full #
4 in GET /b HTTP/1.1~Host: a~~ => Taken 28
4 run => Begun service 7";

#[test]
fn as_many_are_admitted_as_are_counted(rt: HostRuntime) -> Result<(), Fail> {
    let alloc = rt.alloc();
    for most in [1, 256, 8192] {
        let mut world = world(alloc, most)?;
        expect_each(&rt, alloc, &mut world, 11, most)?;
        expect_at(&rt, alloc, &mut world, most, AT_THE_LIMIT)?;
    }
    Ok(())
}

const REFUSED: &str = "1 in GET /a => NoConn
1 end => NoConn
1 took 1 => NoConn
1 run => NoConn
1 write a => NoConn
1 return => NoConn
1 admit => Entered
2 run => NoConn
1 return => NotActive
1 run => Idle
1 took 1 => Taken 0
1 in GET /a~~ => Taken 10
1 told => Some(Refused) took Some(0), 0 of 0 ended
1 counted => 1
1 in GET => Closed
1 end => Closed
1 run => Idle
1 took 1000000 => Taken 129
1 counted => 0
1 in GET /a => Closed
1 end => Closed
1 took 1 => Closed
1 run => Closed
1 write a => Closed
1 return => Closed
1 told => Some(Refused) took Some(129), 0 of 0 ended
1 place => None
2 run => NoConn
2 admit => Entered
2 in GET /c HTTP/1.1~Host: a~~ => Taken 28
2 told => None took Some(0), 1 of 1 ended
2 run => Idle
2 place => None";

#[test]
fn a_step_without_a_connection_is_refused(rt: HostRuntime) -> Result<(), Fail> {
    let alloc = rt.alloc();
    let mut world = world(alloc, 1)?;
    expect(&rt, alloc, &mut world, REFUSED)
}

/// Why there is no connector of the rules with these patterns, or none.
fn fault(rt: &impl Abort, alloc: Global, patterns: &str) -> Result<Option<WorldFault>, Fail> {
    let mut rules = Vec::new(alloc);
    for pattern in patterns.split(' ') {
        rules.push(rule(alloc, pattern, 0)?)?;
    }
    assert!(rt; rules.len() <= MAX_RULES);
    match World::new(alloc, &Limits::standard(1), &rules) {
        Ok(world) => {
            assert_eq!(rt; world.counted(), 0);
            Ok(None)
        }
        Err(fault) => Ok(Some(fault)),
    }
}

#[test]
fn a_fault_of_the_rules_is_told(rt: HostRuntime) -> Result<(), Fail> {
    let rows: [(&str, Option<WorldFault>); 5] = [
        ("/a/* /b/* *.e /", None),
        ("/a a /b a", Some(WorldFault::BadPattern { i: 1 })),
        ("/a /a *", Some(WorldFault::BadPattern { i: 2 })),
        ("/a /b /b /a", Some(WorldFault::RuleTwice { i: 1, j: 2 })),
        ("/a/* /b /a/*", Some(WorldFault::RuleTwice { i: 0, j: 2 })),
    ];
    for (patterns, wanted) in rows {
        assert_eq!(rt; fault(&rt, rt.alloc(), patterns)?, wanted, "{patterns}");
    }
    Ok(())
}
