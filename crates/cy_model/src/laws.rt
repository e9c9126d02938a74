//! Laws of the definitions: a function without parameters and without a body has the law as its contract.
ghost use Rattle.cy_model.specs.Laws.{AdmissionsOpenOne, BodiesDecide, ChartsAreLegal, ClockTicksForEach, ExampleIsReported, FullOpensNone, GoneStaysGone, HeadsAreAtTheirPlaces, LimitIsKept, MovesAreTheContainers, NoEndWaits, NoHeadIsLost, NoHeadWaits, NothingIsTakenBack, OwnEntriesDecide, OwnStepsAddOwnEntries, RefusalsAreTold, RefusalsLeaveNoMark, RequestsAreFramed, RequestsAreJudged, RequestsEndOnce, RunsAreLegal, SettlingGoesOn, SettlingIsTwoWords, SettlingRests, TurnsServe};

/// No move applies to what is settled.
pub fn settling_rests()
    ensures { SettlingRests }
{}

/// Settling is unchanged by making its first move.
pub fn settling_goes_on()
    ensures { SettlingGoesOn }
{}

/// Resting and taking up heads, in turn, is settling.
pub fn settling_is_two_words()
    ensures { SettlingIsTwoWords }
{}

/// No head waits that could be taken up or refused, whatever happened to its connection.
pub fn no_head_waits()
    ensures { NoHeadWaits }
{}

/// Nor does an end of the input, where a head could be taken up: the connection closes instead.
pub fn no_end_waits()
    ensures { NoEndWaits }
{}

/// Where a connection closes for the end of its input, no head was left that could be taken up or refused.
pub fn no_head_is_lost()
    ensures { NoHeadIsLost }
{}

/// Where a connection closes for a body, the body is bad, or more of it was passed over than may be.
pub fn bodies_decide()
    ensures { BodiesDecide }
{}

/// The worked example is reported as the README shows it.
pub fn example_is_reported()
    ensures { ExampleIsReported }
{}

/// The own entries of each connection, with the replies of the definitions, are a legal run, whatever the valid steps
/// of the connector are.
pub fn runs_are_legal()
    ensures { RunsAreLegal }
{}

/// The calls of each request are a legal history of the state table, whatever happened to its connection.
pub fn charts_are_legal()
    ensures { ChartsAreLegal }
{}

/// No more connections are counted than the limit allows, whatever the steps of the connector are.
pub fn limit_is_kept()
    ensures { LimitIsKept }
{}

/// A connection that is gone stays gone, and nothing is added to its output.
pub fn gone_stays_gone()
    ensures { GoneStaysGone }
{}

/// Each head that a connection took up is the one that the grammar finds at its place in all the bytes that came,
/// whatever comes later and however they were cut, and the next begins where its request ends.
pub fn heads_are_at_their_places()
    ensures { HeadsAreAtTheirPlaces }
{}

/// What came, what was taken up, what was written and the charts of the ended requests only grow, and a cause to close
/// stays, whatever happens.
pub fn nothing_is_taken_back()
    ensures { NothingIsTakenBack }
{}

/// Each request that was taken up ends once at most, and nothing else ends, whatever happened to its connection; it has
/// one chart.
pub fn requests_end_once()
    ensures { RequestsEndOnce }
{}

/// Each request that was taken up is what the verdict on its head says, whatever happened to its connection: none is one
/// that is to be refused, and each has the component and the support of the rule that serves it.
pub fn requests_are_judged()
    ensures { RequestsAreJudged }
{}

/// Where a connection closes as refused, the head that stands there is to be refused, and the answer that says so is the
/// last that was written.
pub fn refusals_are_told()
    ensures { RefusalsAreTold }
{}

/// While a request is open whose service has not begun, a worker's turn begins it, in the component that the rule for
/// its path names.
pub fn turns_serve()
    ensures { TurnsServe }
{}

/// The trace of a connection, and the reply to each of its entries, are functions of its own entries alone.
pub fn own_entries_decide()
    ensures { OwnEntriesDecide }
{}

/// A step of one connection adds an entry to its list, if it was admitted, and none to another.
pub fn own_steps_add_own_entries()
    ensures { OwnStepsAddOwnEntries }
{}

/// A step of the clock adds a tick to the list of each connection that was admitted.
pub fn clock_ticks_for_each()
    ensures { ClockTicksForEach }
{}

/// An admission that is accepted opens one list, and leaves the others.
pub fn admissions_open_one()
    ensures { AdmissionsOpenOne }
{}

/// An admission that is answered `Full` opens none.
pub fn full_opens_none()
    ensures { FullOpensNone }
{}

/// A step that is refused, or can do nothing now, leaves no mark.
pub fn refusals_leave_no_mark()
    ensures { RefusalsLeaveNoMark }
{}

/// Each request that was taken up has the framing that its head has, and no request of HEAD was.
pub fn requests_are_framed()
    ensures { RequestsAreFramed }
{}

/// No move of the container takes bytes, delivers content, runs a callback or accepts an act of one; of the calls of the
/// state table it makes Return and Fault alone.
pub fn moves_are_the_containers()
    ensures { MovesAreTheContainers }
{}
