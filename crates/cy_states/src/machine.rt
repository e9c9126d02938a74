//! One request's way through the state table.
ghost use Rattle.std.specs.Prelude.{◌≡◌, ◌≤◌, ◌<◌, IfOk, List, Some, length, slice_get, vec_capacity};
ghost use Rattle.cy_event.specs.declared.steps.Call.{Call};
ghost use Rattle.cy_states.specs.Progress.{IsLegalProgress, Progress, IsLeftBy, after_call, answer_to, fresh, last_item, with_accepted, with_call, with_cycle, with_return};

use crate::table::row_of;
use cy_event::{Call, ChartItem, Reply, Row, State};
use std::alloc::{AllocError, Global};
use std::marker::Model;

/// Memory ran out.
pub type NoMemory = AllocError;

/// How many items a chart has room for.
pub const MOST_ITEMS: usize = 1024;

/// The state of one request, whether it has ended, and the chart of its accepted calls. Contracts see these three. Some
/// legal list of calls always leads to them.
#[derive(Debug, Drop)]
pub struct Machine {
    state: State,
    is_ended: bool,
    items: Vec<ChartItem>,
}

impl Model for Machine {
    ghost use Rattle.std.specs.Prelude.{◌≤◌, vec_capacity};
    ghost use Rattle.cy_states.specs.declared.machine.TheConstants.{MOST_ITEMS};
    ghost use Rattle.cy_states.specs.Progress.{IsLegalProgress, Progress};

    ghost Value = { Progress };

    ghost view = { λ m. record { state = m.state; is_ended = m.is_ended; chart = m.items.items } };

    ghost invariant = { λ m. (MOST_ITEMS ≤ vec_capacity m.items) × IsLegalProgress (record { state = m.state; is_ended = m.is_ended; chart = m.items.items }) };
}

impl Machine {
    /// A request that begins, in DISPATCHED, with room for the chart. This alone takes memory.
    pub fn new(alloc: Global) -> Result<Machine, NoMemory>
        ensures { IfOk result (λ machine. machine ≡ fresh) }
    {
        let items = Vec::with_capacity(alloc, MOST_ITEMS)?;
        Ok(Machine {
            state: State::Dispatched,
            is_ended: false,
            items,
        })
    }

    /// Makes a call where the table has a row for it: `Done`, or `Wake` where a worker is to turn to the connection.
    /// Any other call, and any call after the end, is `Illegal` with the state, and changes nothing.
    pub fn call(&mut self, call: Call) -> Reply
        requires { length self.old.chart < MOST_ITEMS }
        ensures answer { result ≡ answer_to self.old call }
        ensures after { self.new ≡ after_call self.old call }

        // For every list of accepted calls that it stood for.
        ensures history { (ks : List Call) → IsLeftBy self.old ks → IsLeftBy self.new (with_accepted self.old call ks) }
    {
        if self.is_ended {
            return Reply::Illegal(self.state);
        }
        let Some(row) = row_of(self.state, call) else {
            return Reply::Illegal(self.state);
        };
        push_call(&mut self.items, self.state, call);
        match row {
            Row::On(state) => {
                self.state = state;
                Reply::Done
            }
            Row::Wake(state) => {
                self.state = state;
                Reply::Wake
            }
            Row::Ends => {
                self.is_ended = true;
                Reply::Done
            }
        }
    }

    /// The state.
    pub fn state(&self) -> State
        ensures { result ≡ self.now.state }
    {
        self.state
    }

    /// Whether the request has ended.
    pub fn ended(&self) -> bool
        ensures { result ≡ self.now.is_ended }
    {
        self.is_ended
    }

    /// How many items the chart has.
    pub fn chart_len(&self) -> usize
        ensures len { result ≡ length self.now.chart }
        ensures sound { IsLegalProgress self.now }
    {
        self.items.len()
    }

    /// The item of the chart at this place, from 0.
    pub fn chart_item(&self, i: usize) -> ChartItem
        requires { i < length self.now.chart }
        ensures { slice_get self.now.chart i ≡ Some result }
    {
        self.items[i]
    }

    /// Begins anew, without taking memory.
    pub fn clear(&mut self)
        ensures { self.new ≡ fresh }
    {
        self.state = State::Dispatched;
        self.is_ended = false;
        self.items.clear();
    }
}

/// Puts a call, which was made in this state, behind the chart.
fn push_call(items: &mut Vec<ChartItem>, state: State, call: Call)
    requires { length items.old.items < vec_capacity items.old }
    ensures items { items.new.items ≡ with_call state call items.old.items }
    ensures room { vec_capacity items.new ≡ vec_capacity items.old }
{
    match (state, call) {
        (State::ReadWriteOp, Call::Return) => push_return(items),
        _ => items.push_reserved(ChartItem::One(call)),
    }
}

/// Puts a `Return` from READ_WRITE_OP behind the chart. With a `Run` that stands last it is a cycle.
fn push_return(items: &mut Vec<ChartItem>)
    requires { length items.old.items < vec_capacity items.old }
    ensures items { items.new.items ≡ with_return (last_item items.old.items) items.old.items }
    ensures room { vec_capacity items.new ≡ vec_capacity items.old }
{
    match items.last() {
        Some(ChartItem::One(Call::Run)) => {
            let _run = items.pop();
            push_cycle(items);
        }
        _ => items.push_reserved(ChartItem::One(Call::Return)),
    }
}

/// Puts a cycle behind the chart, counted with those that stand last.
fn push_cycle(items: &mut Vec<ChartItem>)
    requires { length items.old.items < vec_capacity items.old }
    ensures items { items.new.items ≡ with_cycle (last_item items.old.items) items.old.items }
    ensures room { vec_capacity items.new ≡ vec_capacity items.old }
{
    let count = match items.last() {
        Some(ChartItem::Cycles(before)) => before.saturating_add(1),
        _ => {
            items.push_reserved(ChartItem::Cycles(1));
            return;
        }
    };
    let _before = items.pop();
    items.push_reserved(ChartItem::Cycles(count));
}
