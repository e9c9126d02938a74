use super::{dates, laws};
use std::test::Fail;

/// A law says all in its contract; a call shows that nothing is asked of the caller.
#[test]
fn laws_ask_for_nothing(_rt: HostRuntime) -> Result<(), Fail> {
    dates::dates_are_httpdates_text();
    laws::settling_rests();
    laws::settling_goes_on();
    laws::settling_is_two_words();
    laws::example_is_reported();
    laws::runs_are_legal();
    laws::charts_are_legal();
    laws::limit_is_kept();
    laws::gone_stays_gone();
    laws::no_head_waits();
    laws::no_end_waits();
    laws::no_head_is_lost();
    laws::bodies_decide();
    laws::heads_are_at_their_places();
    laws::nothing_is_taken_back();
    laws::requests_end_once();
    laws::requests_are_judged();
    laws::refusals_are_told();
    laws::turns_serve();
    laws::own_entries_decide();
    laws::own_steps_add_own_entries();
    laws::clock_ticks_for_each();
    laws::admissions_open_one();
    laws::full_opens_none();
    laws::refusals_leave_no_mark();
    laws::requests_are_framed();
    laws::moves_are_the_containers();
    Ok(())
}
