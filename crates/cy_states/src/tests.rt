//! What the contracts leave open, and tables that are proved too: the tests of the crate.
use super::*;
use cy_event::{Call, Reply, State};
use std::process::Abort;
use std::test::Fail;

const CALLS: [Call; 10] = [
    Call::Start,
    Call::CompleteOwn,
    Call::CompleteOther,
    Call::DispatchOwn,
    Call::DispatchOther,
    Call::Timeout,
    Call::Fault,
    Call::Fail,
    Call::Run,
    Call::Return,
];

fn short(state: State) -> &'static str {
    match state {
        State::Dispatched => "D",
        State::Starting => "SG",
        State::Started => "SD",
        State::ReadWriteOp => "RW",
        State::MustComplete => "MC",
        State::CompletePending => "CP",
        State::Completing => "C",
        State::TimingOut => "TO",
        State::MustDispatch => "MD",
        State::DispatchPending => "DP",
        State::Dispatching => "DG",
        State::MustError => "ME",
        State::Error => "E",
    }
}

fn make(rt: &impl Abort, machine: &mut Machine, call: Call) -> Reply {
    assert!(rt; machine.chart_len() < MOST_ITEMS);
    machine.call(call)
}

fn walk(rt: &impl Abort, machine: &mut Machine, path: &[Call]) {
    for call in path {
        let reply = make(rt, machine, *call);
        assert!(rt; reply == Reply::Done || reply == Reply::Wake);
    }
}

/// Whether the call did what the cell of the table says.
fn is_as_written(cell: &str, before: State, reply: Reply, machine: &Machine) -> bool {
    let after = machine.state();
    match reply {
        Reply::Illegal(state) => cell == "." && state == before && after == before,
        Reply::Wake => cell.strip_suffix(":w") == Some(short(after)) && !machine.ended(),
        Reply::Done if machine.ended() => cell == "ends" && after == before,
        Reply::Done => cell == short(after),
        _ => false,
    }
}

/// Makes each of the ten calls in the state that these calls lead to. Each cell says what is written down for people: the
/// state that the call leads to, with `:w` where it wakes, `ends`, or `.` where it is refused.
fn check_line(rt: &impl Abort, machine: &mut Machine, state: State, path: &[Call], line: &str) {
    assert!(rt;
        line.split(' ').count() == CALLS.len(),
        "{state:?} has a cell for each call"
    );
    for (call, cell) in CALLS.iter().zip(line.split(' ')) {
        machine.clear();
        walk(rt, machine, path);
        let items = machine.chart_len();
        assert!(rt; machine.state() == state);
        let reply = make(rt, machine, *call);
        assert!(rt;
            is_as_written(cell, state, reply, machine),
            "{call:?} in {state:?}"
        );
        // A Return from READ_WRITE_OP makes the Run before it a cycle.
        let is_cycle = state == State::ReadWriteOp && *call == Call::Return;
        let more = if cell == "." || is_cycle { 0 } else { 1 };
        assert!(rt; machine.chart_len().wrapping_sub(items) == more);
    }
}

#[test]
fn each_cell_is_as_written(rt: HostRuntime) -> Result<(), Fail> {
    let mut machine = Machine::new(rt.alloc())?;
    check_first_states(&rt, &mut machine);
    check_other_states(&rt, &mut machine);
    Ok(())
}

fn check_first_states(rt: &impl Abort, machine: &mut Machine) {
    let started = [Call::Start, Call::Return, Call::Run];
    let line = "SG . . . . . . ends D ends";
    check_line(rt, machine, State::Dispatched, &[], line);
    let line = ". MC CP MD DP . ME E . SD";
    check_line(rt, machine, State::Starting, &started[..1], line);
    check_line(rt, machine, State::ReadWriteOp, &started, line);
    let line = ". . C:w . DG:w TO E:w . RW .";
    check_line(rt, machine, State::Started, &started[..2], line);
    let line = ". . . . . . . C . C";
    let own = [Call::Start, Call::CompleteOwn];
    check_line(rt, machine, State::MustComplete, &own, line);
    let other = [Call::Start, Call::CompleteOther];
    check_line(rt, machine, State::CompletePending, &other, line);
}

fn check_other_states(rt: &impl Abort, machine: &mut Machine) {
    let path = [Call::Start, Call::Return, Call::CompleteOther];
    let line = ". . . . . . . . . ends";
    check_line(rt, machine, State::Completing, &path, line);
    let path = [Call::Start, Call::Return, Call::Timeout];
    let line = ". C C DG DG . . . . E";
    check_line(rt, machine, State::TimingOut, &path, line);
    let line = ". . . . . . . E . DG";
    let own = [Call::Start, Call::DispatchOwn];
    check_line(rt, machine, State::MustDispatch, &own, line);
    let other = [Call::Start, Call::DispatchOther];
    check_line(rt, machine, State::DispatchPending, &other, line);
    let path = [Call::Start, Call::Return, Call::DispatchOther];
    let line = ". . . . . . . . D .";
    check_line(rt, machine, State::Dispatching, &path, line);
    let line = ". MC MC MD MD . . E . E";
    check_line(
        rt,
        machine,
        State::MustError,
        &[Call::Start, Call::Fault],
        line,
    );
    let line = ". C C DG DG . . . . C";
    check_line(rt, machine, State::Error, &[Call::Start, Call::Fail], line);
}

/// The chart has these items.
fn has_chart(machine: &Machine, items: &[ChartItem]) -> bool {
    if machine.chart_len() != items.len() {
        return false;
    }
    for (i, item) in items.iter().enumerate() {
        if machine.chart_item(i) != *item {
            return false;
        }
    }
    true
}

#[test]
fn counts_cycles_that_follow_each_other(rt: HostRuntime) -> Result<(), Fail> {
    let mut machine = Machine::new(rt.alloc())?;
    walk(&rt, &mut machine, &[Call::Run, Call::Start, Call::Return]);
    for _ in 0..3 {
        walk(&rt, &mut machine, &[Call::Run, Call::Return]);
    }
    walk(&rt, &mut machine, &[Call::DispatchOther, Call::Run]);
    walk(&rt, &mut machine, &[Call::Start, Call::Return]);
    walk(&rt, &mut machine, &[Call::Run, Call::Return, Call::Run]);
    let mut items = [
        ChartItem::One(Call::Run),
        ChartItem::One(Call::Start),
        ChartItem::One(Call::Return),
        ChartItem::Cycles(3),
        ChartItem::One(Call::DispatchOther),
        ChartItem::One(Call::Run),
        ChartItem::One(Call::Start),
        ChartItem::One(Call::Return),
        ChartItem::Cycles(1),
        ChartItem::One(Call::Run),
    ];
    assert!(rt; has_chart(&machine, &items));
    walk(&rt, &mut machine, &[Call::Return]);
    items[8] = ChartItem::Cycles(2);
    assert!(rt; has_chart(&machine, &items[..9]));
    Ok(())
}

#[test]
fn nothing_is_taken_after_the_end(rt: HostRuntime) -> Result<(), Fail> {
    let mut machine = Machine::new(rt.alloc())?;
    walk(&rt, &mut machine, &[Call::Run, Call::Return]);
    assert!(rt; machine.ended());
    for call in &CALLS {
        let reply = make(&rt, &mut machine, *call);
        assert_eq!(rt; reply, Reply::Illegal(State::Dispatched));
    }
    assert_eq!(rt; machine.chart_len(), 2);
    machine.clear();
    assert!(rt; !machine.ended() && machine.chart_len() == 0);
    Ok(())
}

#[test]
fn laws_hold() {
    laws::table_keeps_rules();
    laws::only_returns_end();
    laws::nothing_follows_an_end();
    laws::complete_decides();
    laws::others_wait_for_the_callback();
    laws::charts_are_the_calls();
    laws::requests_are_legal();
}
