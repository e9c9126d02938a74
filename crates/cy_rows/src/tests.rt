use super::laws;
use std::test::Fail;

/// A law says all in its contract; a call shows that nothing is asked of the caller.
#[test]
fn laws_ask_for_nothing(_rt: HostRuntime) -> Result<(), Fail> {
    laws::connection_marks();
    laws::request_marks();
    laws::callback_marks();
    laws::listener_marks();
    laws::answer_marks();
    laws::output_is_sent_in_order();
    laws::not_found_ends_as_any();
    Ok(())
}
