//! What is done with a head that was read.
ghost use Rattle.std.specs.Prelude.{◌≡◌};
ghost use Rattle.cy_map.specs.Mapping.{mapped};
ghost use Rattle.cy_event.specs.Framings.{framed};
ghost use Rattle.cy_in.specs.Intakes.{IsShort};
ghost use Rattle.cy_event.specs.Targets.{target_of};
ghost use Rattle.cy_model.specs.Verdicts.{by_framing, by_rule, by_target, is_unbuilt, verdict_of};
ghost use Rattle.cy_proc.specs.Judging.{HasTarget, IsShortJudgement, IsVerdict, framed_of};

use cy_event::RequestHead;
use cy_framing::{Framed, framing};
use cy_map::{Found, Mapper};
use cy_target::read_target;

/// What is done with a head.
#[derive(Clone, Copy, Debug, PartialEq, Eq)]
pub enum Judgement {
    /// It is refused with this status.
    TurnedAway { status: u16 },
    /// No rule serves its path.
    Unserved { framed: Framed },
    /// A rule does.
    Served { found: Found, framed: Framed },
}

pub(crate) const BAD_REQUEST: u16 = 400;

const NOT_IMPLEMENTED: u16 = 501;

/// Judges the head in the table, and reads its target: the path and the query stand in the table afterwards, where the
/// head isn't turned away before.
#[tactic(auto, unfolding(cy_model::specs::Verdicts::verdict_of))]
pub fn judge(table: &mut RequestHead, rules: &Mapper) -> Judgement
    ensures verdict { IsVerdict (verdict_of rules.now table.old.head) result }
    ensures short { IsShortJudgement result }
    ensures table { HasTarget result table.old table.new }
{
    if table.method() == b"CONNECT".as_slice() {
        return Judgement::TurnedAway {
            status: NOT_IMPLEMENTED,
        };
    }
    by_target(table, rules)
}

/// Judges a head that asks for no tunnel.
fn by_target(table: &mut RequestHead, rules: &Mapper) -> Judgement
    ensures verdict { IsVerdict (by_target rules.now table.old.head (target_of table.old.head.method table.old.head.target)) result }
    ensures short { IsShortJudgement result }
    ensures table { HasTarget result table.old table.new }
{
    if read_target(table).is_err() {
        return Judgement::TurnedAway {
            status: BAD_REQUEST,
        };
    }
    by_framing(table, rules)
}

/// Judges a head whose target was read.
fn by_framing(table: &RequestHead, rules: &Mapper) -> Judgement
    ensures verdict { IsVerdict (by_framing rules.now table.now.head table.now.path (framed table.now.head.minor table.now.head.fields)) result }
    ensures short { IsShortJudgement result }
{
    match framing(table) {
        Err(status) => Judgement::TurnedAway { status },
        Ok(_) if is_unbuilt(table) => Judgement::TurnedAway {
            status: NOT_IMPLEMENTED,
        },
        Ok(framed) => by_rule(table, framed, rules),
    }
}

/// Whether the request isn't served so far: one of method HEAD.
fn is_unbuilt(table: &RequestHead) -> bool
    ensures { result ≡ is_unbuilt table.now.head }
{
    table.method() == b"HEAD".as_slice()
}

/// The rule that serves the path in the table.
fn by_rule(table: &RequestHead, framed: Framed, rules: &Mapper) -> Judgement
    requires short { IsShort framed.body }
    ensures verdict { IsVerdict (by_rule (framed_of framed) (mapped rules.now table.now.path)) result }
    ensures short { IsShortJudgement result }
{
    match rules.find(table.path()) {
        Some(found) => Judgement::Served { found, framed },
        None => Judgement::Unserved { framed },
    }
}
