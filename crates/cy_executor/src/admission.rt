//! What an executor decides for a new task.
ghost use Rattle.std.specs.Prelude.{◌≡◌};

/// How many threads there are, how many there are at least and at most, and how many tasks were submitted and aren't
/// finished, the new one among them.
#[derive(Clone, Copy, Debug, PartialEq, Eq)]
pub struct Counts {
    pub threads: u32,
    pub core: u32,
    pub max: u32,
    pub submitted: u32,
}

/// What becomes of a task.
#[derive(Clone, Copy, Debug, PartialEq, Eq)]
pub enum Admission {
    /// A thread is started for it.
    Start,
    /// It waits in the queue.
    Queue,
}

ghost use Rattle.cy_executor.specs.Admissions.{admission};

/// Below `core` threads one is started. Else with `max` threads or more the task waits, and so it does while there are
/// no more tasks than threads. Else a thread is started.
pub fn admit(counts: &Counts) -> Admission
    ensures { result ≡ admission counts.now }
{
    if counts.threads < counts.core {
        Admission::Start
    } else if counts.threads >= counts.max || counts.submitted <= counts.threads {
        Admission::Queue
    } else {
        Admission::Start
    }
}
