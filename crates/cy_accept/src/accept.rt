//! One step of the acceptor.
ghost use Rattle.std.specs.Prelude.{◌≡◌, ◌≤◌, ◌↔◌, length};
ghost use Rattle.cy_latch.specs.Numbers.{count_out};
ghost use Rattle.cy_accept.specs.Steps.{AsksNoDoor, StepCounts, StepGives, StepPauses};
ghost use Rattle.cy_accept.specs.Runs.{IsTurn, turn_of};

use cy_latch::{Enter, LatchBook, Share};
use cy_link::{Accepted, Door};

/// What a step of the acceptor answers.
#[derive(Debug, Drop)]
pub enum Step1<L> {
    /// A connection came, and counts by this share until it is left.
    In(L, Share),
    /// None waits now, but one may come later.
    NotYet,
    /// As many as the latch allows are in, and the door wasn't asked.
    Full { count: u64 },
    /// Accepting failed, and the door's count of faults says so.
    Failed,
}

/// Enters the latch, and then asks the door for a connection. Where none comes the latch is left again. A full latch is
/// told, with its count, exactly where it was full before, and then the door isn't asked.
pub fn accept_step<D: Door>(door: &mut D, latch: &mut LatchBook) -> Step1<D::L>
    ensures latch { IsTurn latch.old (turn_of result) latch.new }
    ensures full { (result ≡ Step1.Full (length latch.old)) ↔ (count_out latch.old ≡ length latch.old) }
    ensures asked { AsksNoDoor (door.new ≡ door.old) result }
    ensures given { StepGives (D.given door.old) (D.given door.new) result }
    ensures ports { D.ports door.new ≡ D.ports door.old }
    ensures later { (D.faults door.old ≤ D.faults door.new) × (D.pauses door.old ≤ D.pauses door.new) }
    ensures cause { StepCounts (D.faults door.old) (D.faults door.new) result }
    ensures pauses { StepPauses (D.pauses door.old) (D.pauses door.new) result }
{
    let share = match latch.enter() {
        Enter::Entered(share) => share,
        Enter::Full { count } => return Step1::Full { count },
    };
    match door.accept() {
        Accepted::Link(link) => Step1::In(link, share),
        Accepted::NotYet => {
            latch.leave(share);
            Step1::NotYet
        }
        Accepted::Failed => {
            latch.leave(share);
            Step1::Failed
        }
    }
}
