//! The names of states, callbacks, causes and calls, as a report writes them.

ghost use Rattle.std.specs.Prelude.{◌≡◌};
ghost use Rattle.cy_model.specs.Reports.{call_name, cause_name, cause_text, state_name};

use cy_event::{Call, CloseCause, Job, State};
use std::fmt;

/// A callback, as a report names it.
#[derive(Clone, Copy)]
pub(crate) struct JobText(pub(crate) Job);

impl fmt::Display for JobText {
    ghost use Rattle.std.specs.Prelude.{Some};
    ghost use Rattle.cy_model.specs.Reports.{job_text};

    ghost output = { λ job. Some (job_text job.0) };

    fn fmt<W: fmt::Write>(&self, f: &mut fmt::Formatter<W>) -> fmt::Result {
        match self.0 {
            Job::Service { part } => write!(f, "service {part}"),
            Job::Again { part } => write!(f, "again {part}"),
            Job::Resume => f.write_str("resume"),
            Job::Readable => f.write_str("readable"),
            Job::AllRead => f.write_str("allread"),
            Job::Writable => f.write_str("writable"),
            Job::ReadError => f.write_str("readerror"),
            Job::WriteError => f.write_str("writeerror"),
            Job::OnTimeout { listener, tag } => write!(f, "ontimeout {listener} {tag}"),
            Job::OnError { listener, tag } => write!(f, "onerror {listener} {tag}"),
            Job::OnComplete { listener, tag } => write!(f, "oncomplete {listener} {tag}"),
        }
    }
}

/// Why a connection closes. One without a cause is open.
pub(crate) fn cause_text(cause: Option<CloseCause>) -> &'static str
    ensures { result.now ≡ cause_text cause }
{
    match cause {
        Some(cause) => cause_name(cause),
        None => "open",
    }
}

fn cause_name(cause: CloseCause) -> &'static str
    ensures { result.now ≡ cause_name cause }
{
    match cause {
        CloseCause::LastAnswer => "LastAnswer",
        CloseCause::Refused => "Refused",
        CloseCause::BadBody => "BadBody",
        CloseCause::SwallowLimit => "SwallowLimit",
        CloseCause::ShortAnswer => "ShortAnswer",
        CloseCause::FailedAnswer => "FailedAnswer",
        CloseCause::IdleTimeout => "IdleTimeout",
        CloseCause::AwaitTimeout => "AwaitTimeout",
        CloseCause::InputEnd => "InputEnd",
        CloseCause::InFault => "InFault",
        CloseCause::OutFault => "OutFault",
        CloseCause::Shut => "Shut",
    }
}

/// The name of a state, as Tomcat's documentation of asynchronous processing has it.
pub(crate) fn state_name(state: State) -> &'static str
    ensures { result.now ≡ state_name state }
{
    match state {
        State::Dispatched => "DISPATCHED",
        State::Starting => "STARTING",
        State::Started => "STARTED",
        State::ReadWriteOp => "READ_WRITE_OP",
        State::MustComplete => "MUST_COMPLETE",
        State::CompletePending => "COMPLETE_PENDING",
        State::Completing => "COMPLETING",
        State::TimingOut => "TIMING_OUT",
        State::MustDispatch => "MUST_DISPATCH",
        State::DispatchPending => "DISPATCH_PENDING",
        State::Dispatching => "DISPATCHING",
        State::MustError => "MUST_ERROR",
        State::Error => "ERROR",
    }
}

/// The name of a call of the state table.
pub(crate) fn call_name(call: Call) -> &'static str
    ensures { result.now ≡ call_name call }
{
    match call {
        Call::Start => "Start",
        Call::CompleteOwn => "CompleteOwn",
        Call::CompleteOther => "CompleteOther",
        Call::DispatchOwn => "DispatchOwn",
        Call::DispatchOther => "DispatchOther",
        Call::Timeout => "Timeout",
        Call::Fault => "Fault",
        Call::Fail => "Fail",
        Call::Run => "Run",
        Call::Return => "Return",
    }
}
