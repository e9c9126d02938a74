use super::laws;
use std::test::Fail;

/// A law says all in its contract; a call shows that nothing is asked of the caller.
#[test]
fn laws_ask_for_nothing(_rt: HostRuntime) -> Result<(), Fail> {
    laws::requests_get_their_content();
    laws::ends_are_told_last();
    laws::bytes_are_held_within();
    laws::heads_follow_written_bodies();
    laws::input_ends_within();
    laws::wrong_bodies_close();
    Ok(())
}
