//! The plain data of the state table.

use crate::steps::{Call, State};

/// What a row of the state table says of a call that is taken.
#[derive(Clone, Copy, Debug, PartialEq, Eq)]
pub enum Row {
    /// The request goes on in this state.
    On(State),
    /// It goes on in this state, and a worker is to turn to its connection.
    Wake(State),
    /// The request ends, and the state stays.
    Ends,
}

/// An item of a request's chart, which lists the accepted calls.
#[derive(Clone, Copy, Debug, PartialEq, Eq)]
pub enum ChartItem {
    /// A call that is part of no cycle.
    One(Call),
    /// So many cycles that follow each other, or 2^64 - 1 where there are more. A cycle is a `Run` in STARTED and the
    /// `Return` that directly follows it.
    Cycles(u64),
}
