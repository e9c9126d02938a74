//! The state table.
ghost use Rattle.std.specs.Prelude.{◌≡◌};
ghost use Rattle.cy_event.specs.Table.{row};

use cy_event::{Call, Row, State};

/// The row of a call in a state, or none where the call is refused. The table is this connector's own.
#[inline]
pub fn row_of(state: State, call: Call) -> Option<Row>
    ensures { result ≡ row state call }
{
    use Call::*;
    use State::*;
    let row = match (state, call) {
        (Dispatched, Start) => Row::On(Starting),
        (Dispatched, Run) | (Dispatching, Run) => Row::On(Dispatched),
        (Dispatched, Fail | Return) | (Completing, Return) => Row::Ends,

        (Starting | ReadWriteOp, CompleteOwn) => Row::On(MustComplete),
        (Starting | ReadWriteOp, CompleteOther) => Row::On(CompletePending),
        (Starting | ReadWriteOp, DispatchOwn) => Row::On(MustDispatch),
        (Starting | ReadWriteOp, DispatchOther) => Row::On(DispatchPending),
        (Starting | ReadWriteOp, Fault) => Row::On(MustError),
        (Starting | ReadWriteOp, Fail) => Row::On(Error),
        (Starting | ReadWriteOp, Return) => Row::On(Started),

        (Started, CompleteOther) => Row::Wake(Completing),
        (Started, DispatchOther) => Row::Wake(Dispatching),
        (Started, Fault) => Row::Wake(Error),
        (Started, Timeout) => Row::On(TimingOut),
        (Started, Run) => Row::On(ReadWriteOp),

        (MustComplete | CompletePending, Fail | Return) => Row::On(Completing),
        (MustDispatch | DispatchPending, Return) => Row::On(Dispatching),
        (MustDispatch | DispatchPending, Fail) => Row::On(Error),

        (MustError, CompleteOwn | CompleteOther) => Row::On(MustComplete),
        (MustError, DispatchOwn | DispatchOther) => Row::On(MustDispatch),
        (MustError, Fail | Return) => Row::On(Error),

        (TimingOut | Error, CompleteOwn | CompleteOther) => Row::On(Completing),
        (TimingOut | Error, DispatchOwn | DispatchOther) => Row::On(Dispatching),
        (TimingOut, Return) => Row::On(Error),
        (Error, Return) => Row::On(Completing),
        _ => return None,
    };
    Some(row)
}
