//! A connection that can be handed from place to place.

ghost use Rattle.std.specs.Prelude.{◌≡◌, ◌≤◌, false, max};
ghost use Rattle.cy_event.specs.declared.limits.TheConstants.{GREATEST_MOMENT};
ghost use Rattle.cy_proc.specs.LineAnswers.{AnswersEachEvent};
ghost use Rattle.cy_proc.specs.LineChanges.{after_told, at_moment, told_answer};

use cy_event::{Event, Limits, Reply};
use cy_latch::Share;
use cy_proc::Line;

/// A connection: its line, its share in the count of connections, and its number.
#[derive(Drop)]
pub struct Conn {
    pub line: Line,
    pub share: Share,
    pub number: u64,
}

impl Conn {
    /// Takes what the socket tells while the connection sits in no slot, at the later of this moment and the last one
    /// of its line. No request is open.
    pub fn event(&mut self, at: u64, event: Event, bytes: &[u8], limits: &Limits) -> Reply
        requires open { self.old.line.is_open ≡ false }
        requires moment { at ≤ GREATEST_MOMENT }
        ensures moment { self.new.line.moment ≡ max self.old.line.moment at }
        ensures answers { AnswersEachEvent limits.now self.new.line.moment event bytes.now self.old.line result self.new.line }
        ensures reply { result ≡ told_answer event bytes.now (at_moment at self.old.line) }
        ensures line { self.new.line ≡ after_told limits.now event bytes.now (at_moment at self.old.line) }
        ensures share { self.new.share ≡ self.old.share }
        ensures number { self.new.number ≡ self.old.number }
    {
        self.line.event(at, event, bytes, limits)
    }
}
