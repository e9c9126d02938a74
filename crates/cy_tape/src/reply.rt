//! What a step is answered, as a report names it.

ghost use Rattle.std.specs.Prelude.{◌≡◌, ◌++◌, OnErr, OnOk, IfOk, codes};
ghost use Rattle.cy_bytes.specs.Quoting.{quoted};
ghost use Rattle.cy_model.specs.Reports.{reply_text};

use crate::names::{JobText, state_name};
use crate::text::{append, push_quoted};
use cy_bytes::{Bytes, NoMemory};
use cy_event::Reply;
use std::alloc::Global;
use std::fmt;

/// Appends the reply as a report names it: its name, and what belongs to it after a space. Beside a `Got` stand the
/// bytes `got`, quoted; beside any other reply they are left out. No line feed is appended.
///
/// # Errors
///
/// `NoMemory` where memory ran out. Then `into` is as before.
pub fn print_reply(
    alloc: Global,
    reply: &Reply,
    got: &[u8],
    into: &mut Bytes,
) -> Result<(), NoMemory>
    ensures appended { OnOk result (into.new ≡ into.old ++ reply_text reply.now got.now) }
    ensures unchanged { OnErr result (into.new ≡ into.old) }
{
    let text = reply_text(alloc, *reply, got)?;
    append(alloc, into, &text)
}

/// The reply's text.
#[tactic(auto, unfolding(cy_model::specs::Reports::reply_text))]
fn reply_text(alloc: Global, reply: Reply, got: &[u8]) -> Result<Vec<u8>, NoMemory>
    ensures { IfOk result (λ text. text.items ≡ reply_text reply got.now) }
{
    match reply {
        Reply::Got(_) => got_text(alloc, got),
        _ => Ok(format!(in alloc; "{}", ReplyText(reply))?.into_bytes()),
    }
}

/// The text of a `Got` with these bytes.
fn got_text(alloc: Global, got: &[u8]) -> Result<Vec<u8>, NoMemory>
    ensures { IfOk result (λ text. text.items ≡ codes "Got \"" ++ quoted got.now ++ codes "\"") }
{
    let mut text = Vec::from_slice(alloc, b"Got \"")?;
    push_quoted(alloc, &mut text, got)?;
    text.extend_from_slice(b"\"")?;
    Ok(text)
}

/// A reply without bytes, as a report names it.
#[derive(Clone, Copy)]
struct ReplyText(Reply);

impl fmt::Display for ReplyText {
    ghost use Rattle.std.specs.Prelude.{Some, []};
    ghost use Rattle.cy_model.specs.Reports.{reply_text};

    ghost output = { λ reply. Some (reply_text reply.0 []) };

    #[tactic(auto, unfolding(cy_model::specs::Reports::reply_text, cy_bytes::specs::Quoting::quoted))]
    fn fmt<W: fmt::Write>(&self, f: &mut fmt::Formatter<W>) -> fmt::Result {
        match self.0 {
            Reply::Done => f.write_str("Done"),
            Reply::Wake => f.write_str("Wake"),
            Reply::Entered => f.write_str("Entered"),
            Reply::Full(count) => write!(f, "Full {count}"),
            Reply::Taken(count) => write!(f, "Taken {count}"),
            Reply::Got(_) => f.write_str("Got \"\""),
            Reply::GotEnd => f.write_str("GotEnd"),
            Reply::Again => f.write_str("Again"),
            Reply::Ready(true) => f.write_str("Ready true"),
            Reply::Ready(false) => f.write_str("Ready false"),
            Reply::Begun(job) => write!(f, "Begun {}", JobText(job)),
            Reply::Idle => f.write_str("Idle"),
            Reply::Illegal(state) => write!(f, "Illegal {}", state_name(state)),
            Reply::Unsupported => f.write_str("Unsupported"),
            Reply::AlreadySet => f.write_str("AlreadySet"),
            Reply::Committed => f.write_str("Committed"),
            Reply::BadValue => f.write_str("BadValue"),
            Reply::NotActive => f.write_str("NotActive"),
            Reply::NoConn => f.write_str("NoConn"),
            Reply::NoPass => f.write_str("NoPass"),
            Reply::Ended => f.write_str("Ended"),
            Reply::Closed => f.write_str("Closed"),
            Reply::TooMany(count) => write!(f, "TooMany {count}"),
        }
    }
}
