// Which steps take effect in a slot, and for whom.
use super::*;

const ONE_TENANT: &str = "bind 1 => bound 5
bind 2 => occupied 5, 2 is back
tenancy => 5";

/// The last number but one is given, and then the slot is worn.
const LAST_TENANT: &str = "bind 3 GET /a~~ => bound 18446744073709551614
open 18446744073709551614 => Done
release => 3
bind 4 GET /a HTTP/1.1~Host: a~~ => worn, 4 is back
open 18446744073709551615 => Ended
shut 18446744073709551615
tenancy => 18446744073709551615
first => 18446744073709551614";

#[test]
fn a_slot_has_one_tenant_at_a_time(rt: HostRuntime) -> Result<(), Fail> {
    let alloc = rt.alloc();
    expect(&rt, alloc, desk_from(alloc, 5)?, ONE_TENANT)?;
    expect(&rt, alloc, desk_from(alloc, u64::MAX - 1)?, LAST_TENANT)
}

/// Nobody sits there, and then one whose head is due, and isn't opened yet.
const BEFORE: &str = "shut 5
open 5 => Ended
bind 1 GET /a HTTP/1.1~Host: a~~ => bound 5
shut 4
shut 5
shut 6
open 0 => Ended
open 4 => Ended
open 6 => Ended
open 18446744073709551615 => Ended
open 5 => Done
request => true";

#[test]
fn before_its_open_no_step_takes_effect(rt: HostRuntime) -> Result<(), Fail> {
    let alloc = rt.alloc();
    expect(&rt, alloc, desk_from(alloc, 5)?, BEFORE)
}

/// The request is open, then it is over, and then another sits there, whose head isn't whole.
const OTHERS: &str = "bind 1 GET /a HTTP/1.1~Host: a~~ => bound 5
open 5 => Done
open 5 => Ended
shut 0
shut 4
shut 6
shut 18446744073709551615
run 5 => Begun(Service { part: 0 })
open 5 => Ended
return 5 => Done
shut 5
open 5 => Ended
release => 1
bind 2 GET /a => bound 6
open 6 => Ended
shut 5
shut 6";

#[test]
fn a_step_for_another_tenant_changes_nothing(rt: HostRuntime) -> Result<(), Fail> {
    let alloc = rt.alloc();
    expect(&rt, alloc, desk_from(alloc, 5)?, OTHERS)
}

/// He is lent his head, and the state bytes that he keeps. His service runs and writes, while the
/// 28 bytes of a second head and two more wait in the ring. His chart stays until he leaves, and
/// his answer goes with him. He comes back for his next request, and the answer that still waits
/// goes as the socket takes it.
const SERVED: &str = "bind 1 GET /b/c?q HTTP/1.1~Host: a~~GET /a HTTP/1.1~Host: a~~ => bound 0
open 0 => Done
lent 0 => true GET/b/cqHosta 1, 256 of 0
keep 0 3 => true
lent 0 => true GET/b/cqHosta 1, 256 of 3
part => 7
job => Some(Service { part: 7 })
room 0 => 16356
in 0 GE => Taken(2)
room 0 => 16354
run 0 => Begun(Service { part: 7 })
run 0 => Idle
job => None
write 0 hello => Taken(5)
return 0 => Done
request => true
part => 0
items => 2
chart => One(Run);One(Return);
release => 1
left => HTTP/1.1 200 ~Content-Length: 5~Date: Thu, 01 Jan 1970 00:00:00 GMT~~hello
items => 0
request => false
again => bound 1
open 1 => Done
unsent 1 => 78
front 1 => HTTP/1.1
behind 1 8 =>  200 ~Content-Length: 5~Date: Thu, 01 Jan 1970 00:00:00 GMT~~hello
took 1 78 => Taken(78)
unsent 1 => 0
front 1 => nothing";

#[test]
fn a_tenant_is_served_until_he_leaves(rt: HostRuntime) -> Result<(), Fail> {
    let alloc = rt.alloc();
    expect(&rt, alloc, new_desk(alloc)?, SERVED)
}

/// He reads what came of his body, into the front of what is handed in, and the rest of it is
/// passed over: the next tenant finds nothing of it.
const READ: &str = "bind 1 POST /a HTTP/1.1~Host: a~Content-Length: 9~~hello => bound 0
read 0 3 => Ended ---
open 0 => Done
read 0 3 => NotActive ---
run 0 => Begun(Service { part: 0 })
read 0 3 => Got(3) hel
read 0 4 => Got(2) lo--
read 0 1 => Again -
in 0  all => Taken(4)
read 0 0 => Got(0) 
read 0 2 => Got(2)  a
return 0 => Done
read 0 1 => Ended -
release => 1
bind 2 GET /b HTTP/1.1~Host: a~~ => bound 1
open 1 => Done
run 1 => Begun(Service { part: 7 })
read 0 1 => Ended -
read 1 1 => GotEnd -";

#[test]
fn a_tenant_reads_his_body(rt: HostRuntime) -> Result<(), Fail> {
    let alloc = rt.alloc();
    expect(&rt, alloc, new_desk(alloc)?, READ)
}

/// A head is refused, no component serves it, and its answer is the last.
const OVER: &str = "bind 1 GET /a~~ => bound 0
over => false
open 0 => Done
over => true
request => false
cause => Some(Refused)
items => 0
shut 0
release => 1
cause => None
bind 1 GET /c HTTP/1.1~Host: a~~ => bound 1
over => false
open 1 => Done
over => true
request => true
cause => None
items => 0
shut 1
release => 1
bind 1 GET /c HTTP/1.0~~ => bound 2
over => false
open 2 => Done
over => true
request => true
cause => Some(LastAnswer)
items => 0
shut 2
release => 1
cause => None
tenancy => 3
first => 0";

#[test]
fn a_head_may_be_over_as_it_is_opened(rt: HostRuntime) -> Result<(), Fail> {
    let alloc = rt.alloc();
    expect(&rt, alloc, new_desk(alloc)?, OVER)
}
