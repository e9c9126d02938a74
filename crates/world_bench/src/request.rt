//! The steps of a short request.

use anyhow::Result;
use cy_event::{Act, Bytes, Event, Job, Reply, Step};
use std::alloc::Global;

/// A head of 46 bytes, as load generators send it.
const HEAD: &[u8] = b"GET /hello HTTP/1.1\r\nHost: 127.0.0.1:18080\r\n\r\n";

const CONTENT: &[u8] = b"hello";

/// As many bytes has the answer.
const ANSWER: u64 = 78;

/// How many steps a request has.
pub const STEPS: usize = 5;

/// What the steps of a request are answered: its head comes, a worker turns to it, its component
/// writes and returns, and the socket takes the answer.
const REPLIES: [Reply; STEPS] = [
    Reply::Taken(46),
    Reply::Begun(Job::Service { part: 0 }),
    Reply::Taken(5),
    Reply::Done,
    Reply::Taken(ANSWER),
];

/// The steps of a request, of whichever connection. They are made once, so that what is measured is
/// the connector.
#[derive(Drop)]
pub struct Request {
    steps: [Step; STEPS],
}

impl Request {
    pub fn new(alloc: Global) -> Result<Request> {
        let steps = [
            Step::On {
                conn: 0,
                event: Event::In,
                bytes: Bytes::of(Vec::from_slice(alloc, HEAD)?),
            },
            Step::Run(0),
            Step::Act {
                conn: 0,
                act: Act::Write(5),
                bytes: Bytes::of(Vec::from_slice(alloc, CONTENT)?),
            },
            Step::Act {
                conn: 0,
                act: Act::Return,
                bytes: Bytes::of(Vec::new(alloc)),
            },
            Step::On {
                conn: 0,
                event: Event::Took(ANSWER),
                bytes: Bytes::of(Vec::new(alloc)),
            },
        ];
        Ok(Request { steps })
    }

    /// The step at a place, of the connection of this number, and what it is answered.
    pub fn step(&mut self, place: usize, number: u64) -> (&Step, Reply) {
        let place = place % STEPS;
        let step = &mut self.steps[place];
        match step {
            Step::Admit(conn) | Step::On { conn, .. } | Step::Run(conn) | Step::Act { conn, .. } =>
                {
                    *conn = number;
                }
            Step::At(_) => {}
        }
        (step, REPLIES[place])
    }
}

/// The input of a connection ends.
pub fn end(alloc: Global, number: u64) -> Step {
    Step::On {
        conn: number,
        event: Event::End,
        bytes: Bytes::of(Vec::new(alloc)),
    }
}
