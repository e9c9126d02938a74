//! Laws of the state table and of charts: a function without parameters and without a body has the law as its contract.
ghost use Rattle.cy_states.specs.Laws.{ChartsAreTheCalls, CompleteDecides, NothingFollowsAnEnd, OnlyReturnsEnd, OthersWaitForTheCallback, RequestsAreLegal, TableKeepsRules};

/// Each of the 130 cells of the table keeps its rules.
pub fn table_keeps_rules()
    ensures { TableKeepsRules }
{}

/// Only a `Return` or a `Fail` ends a request: both in DISPATCHED, a `Return` in COMPLETING too.
pub fn only_returns_end()
    ensures { OnlyReturnsEnd }
{}

/// After a request's end no call is accepted in it.
pub fn nothing_follows_an_end()
    ensures { NothingFollowsAnEnd }
{}

/// A complete decides: after it at most two further calls are accepted, each a `Return` or a `Fail`, and the request stays
/// completed. A second complete, a dispatch, a timeout and a fault are refused.
pub fn complete_decides()
    ensures { CompleteDecides }
{}

/// A complete or a dispatch of another thread in STARTING or READ_WRITE_OP ends nothing before the callback that runs
/// has come back.
pub fn others_wait_for_the_callback()
    ensures { OthersWaitForTheCallback }
{}

/// A chart, its cycles written out, is the list of the accepted calls, unless a count of cycles stands still.
pub fn charts_are_the_calls()
    ensures { ChartsAreTheCalls }
{}

/// Whatever calls a request is asked, the accepted ones are legal, lead to its state, and are what its chart shows.
pub fn requests_are_legal()
    ensures { RequestsAreLegal }
{}
