//! What happens on a connector, and what is answered.

use crate::bytes::Bytes;

/// The states of a request, under the names of Tomcat's asynchronous states.
#[derive(Clone, Copy, Debug, PartialEq, Eq)]
pub enum State {
    Dispatched,
    Starting,
    Started,
    ReadWriteOp,
    MustComplete,
    CompletePending,
    Completing,
    TimingOut,
    MustDispatch,
    DispatchPending,
    Dispatching,
    MustError,
    Error,
}

/// The calls that move a request from state to state. `Own` is an act of the running callback, `Other` a call of
/// another thread.
#[derive(Clone, Copy, Debug, PartialEq, Eq)]
pub enum Call {
    Start,
    CompleteOwn,
    CompleteOther,
    DispatchOwn,
    DispatchOther,
    Timeout,
    Fault,
    Fail,
    Run,
    Return,
}

/// What the socket of a connection tells.
#[derive(Clone, Copy, Debug, PartialEq, Eq)]
pub enum Event {
    /// Bytes came; they stand beside the event.
    In,
    /// No further bytes will come.
    End,
    /// The socket took so many bytes of those that wait for it.
    Took(u64),
}

/// As much content as one read may ask for.
pub const GREATEST_READ: u32 = 65_536;

/// What a running callback does. The bytes that an act counts stand beside it, and are its first ones.
#[derive(Clone, Copy, Debug, PartialEq, Eq)]
pub enum Act {
    /// Reads at most so many bytes of the content of the request.
    Read(u32),
    /// Writes so many bytes of content.
    Write(u32),
    /// Returns from the callback.
    Return,
}

/// A callback that a worker begins (Servlet 3.1, sections 2.3.3.3, 3.7 and 5.7). Listeners are numbered from 0 in the
/// order in which they were added, and each has a tag.
#[derive(Clone, Copy, Debug, PartialEq, Eq)]
pub enum Job {
    /// The component of this number serves the request.
    Service { part: u32 },
    /// The component of this number serves the request that was dispatched to it.
    Again { part: u32 },
    /// The callback that waited for the socket goes on.
    Resume,
    /// The read listener hears that content waits.
    Readable,
    /// The read listener hears that all content was read.
    AllRead,
    /// The write listener hears that content would be taken.
    Writable,
    /// The read listener hears of a fault.
    ReadError,
    /// The write listener hears of a fault.
    WriteError,
    /// A listener hears that the timeout of asynchronous processing has passed.
    OnTimeout { listener: u32, tag: u8 },
    /// A listener hears of a fault.
    OnError { listener: u32, tag: u8 },
    /// A listener hears that the request completes.
    OnComplete { listener: u32, tag: u8 },
}

/// What a step is answered.
#[derive(Clone, Copy, Debug, PartialEq, Eq)]
pub enum Reply {
    /// The step was made.
    Done,
    /// The step was made, and a worker is to turn to the connection.
    Wake,
    /// The connection was admitted.
    Entered,
    /// As many connections as the limit allows are counted.
    Full(u64),
    /// So many bytes were taken.
    Taken(u64),
    /// So many bytes of content were given.
    Got(u64),
    /// The body is whole, and all of its content was given.
    GotEnd,
    /// No byte can be taken or given now.
    Again,
    /// Whether a byte could be read or written now.
    Ready(bool),
    /// A callback begins.
    Begun(Job),
    /// No callback is owed.
    Idle,
    /// The state table has no row for the call in this state.
    Illegal(State),
    /// The rule that serves the request has no asynchronous support.
    Unsupported,
    /// The listener is set already.
    AlreadySet,
    /// The head of the answer is out already.
    Committed,
    /// A value is outside what may be said.
    BadValue,
    /// No callback runs that could act.
    NotActive,
    /// No connection of that number was admitted.
    NoConn,
    /// The request was never processed asynchronously.
    NoPass,
    /// The request has ended.
    Ended,
    /// The connection is closed, or closed to this.
    Closed,
    /// More than this many would be.
    TooMany(u64),
}

/// Why a connection is closed. The first cause stays.
#[derive(Clone, Copy, Debug, PartialEq, Eq)]
pub enum CloseCause {
    LastAnswer,
    Refused,
    BadBody,
    SwallowLimit,
    ShortAnswer,
    FailedAnswer,
    IdleTimeout,
    AwaitTimeout,
    InputEnd,
    InFault,
    OutFault,
    Shut,
}

/// One step of a connector: one call, timeout or socket event, taken by itself. Connections have numbers from 1.
#[derive(Debug, Drop)]
pub enum Step {
    /// The clock stands at this moment, in milliseconds since 1970-01-01 00:00 UTC.
    At(u64),
    /// A connection of this number asks to be admitted.
    Admit(u64),
    /// The socket of a connection tells something.
    On {
        conn: u64,
        event: Event,
        bytes: Bytes,
    },
    /// A worker turns to a connection.
    Run(u64),
    /// The callback that runs on a connection acts.
    Act {
        conn: u64,
        act: Act,
        bytes: Bytes,
    },
}
