// Connections whose numbers are far apart, and are the same in their lower 32 bits.
use super::*;

const APART: &str = "4294967297 admit => Entered
1 run => NoConn
1 out => nothing
1 admit => Entered
18446744073709551614 admit => Full 2
4294967297 in GET /a HTTP/1.1~Host: far~~ => Taken 30
1 in GET /b?q HTTP/1.1~Host: a~~ => Taken 30
8589934593 run => NoConn
4294967297 seen => GET/a no queryHostfar 1 for 0
1 seen => GET/bqHosta 1 for 7
1 run => Begun service 7
4294967297 return => NotActive
4294967297 run => Begun service 0
4294967297 write far => Taken 3
4294967297 return => Done
4294967297 end => Done
4294967297 took 1000 => Taken 76
4294967297 told => Some(InputEnd) took Some(76), 1 of 1 ended
4294967297 run => Closed
1 told => None took Some(0), 0 of 1 ended
1 counted => 1
18446744073709551615 admit => Entered
18446744073709551615 in GET /a HTTP/1.0~~ => Taken 19
18446744073709551615 tenant => 1
18446744073709551615 run => Begun service 0
1 return => Done
1 told => None took Some(0), 1 of 1 ended
18446744073709551615 told => None took Some(0), 0 of 1 ended
18446744073709551614 out => nothing
1 out => HTTP/1.1 200 ~Content-Length: 0~Date: Thu, 01 Jan 1970 00:00:00 GMT~~
4294967297 out => HTTP/1.1 200 ~Content-Length: 3~Date: Thu, 01 Jan 1970 00:00:00 GMT~~far";

#[test]
fn numbers_of_connections_are_told_apart(rt: HostRuntime) -> Result<(), Fail> {
    let alloc = rt.alloc();
    let mut world = world(alloc, 2)?;
    expect(&rt, alloc, &mut world, APART)
}
