//! The calls of the laws, made by the methods. What who calls owes stands here as a test before the method: no change
//! behind a head that is out, no abort before it, and no error of a status that no answer has.
ghost use Rattle.std.specs.Prelude.{◌≤◌, ◌++◌, ℕ, List, take};
ghost use Rattle.cy_event.specs.Answers.{Answer};
ghost use Rattle.cy_event.specs.Answering.{Sending};
ghost use Rattle.cy_event.specs.declared.limits.TheConstants.{GREATEST_MOMENT};
ghost use Rattle.cy_out.specs.Calls.{aborts, adds_header, changes, does, puts_error, resets, sets_close, sets_length, sets_status};
ghost use Rattle.cy_out.specs.Exchanges.{flushes, receives, writes};
ghost use Rattle.cy_out.specs.Made.{Makes, held};

use crate::BodyOut;
use cy_respond::RespHead;
use cy_rings::ConnKit;

/// Sets the status, where the head isn't out.
pub fn set_status(status: u16, body: &BodyOut, head: &mut RespHead)
    ensures { (output received : List ℕ) → Makes (changes (sets_status status))
        (held head.old body.now output received) (held head.new body.now output received) }
{
    if !body.committed() {
        let _ = head.set_status(status);
    }
}

/// Adds a field, where the head isn't out.
pub fn add_header(name: &[u8], value: &[u8], body: &BodyOut, head: &mut RespHead)
    ensures { (output received : List ℕ) → Makes (changes (adds_header (record { name = name.now; value = value.now })))
        (held head.old body.now output received) (held head.new body.now output received) }
{
    if !body.committed() {
        let _ = head.add_header(name, value);
    }
}

/// Sets the length of the content, where the head isn't out.
pub fn set_length(n: u64, body: &mut BodyOut)
    ensures { (head : Answer) (output received : List ℕ) → Makes (changes (sets_length n))
        (held head body.old output received) (held head body.new output received) }
{
    if !body.committed() {
        let _ = body.set_length(n);
    }
}

/// Takes all back, where the head isn't out.
pub fn reset(body: &mut BodyOut, head: &mut RespHead)
    ensures { (output received : List ℕ) → Makes (changes resets) (held head.old body.old output received) (held head.new body.new output received) }
{
    if !body.committed() {
        body.reset();
        head.reset();
    }
}

/// Puts the error answer of a status that an answer may have in place of all, where the head isn't out.
pub fn put_error(status: u16, body: &mut BodyOut, head: &mut RespHead)
    ensures { (output received : List ℕ) → Makes (changes (puts_error status))
        (held head.old body.old output received) (held head.new body.new output received) }
{
    if !body.committed() && (200..=599).contains(&status) {
        body.error(status, head);
    }
}

/// Makes the connection close behind the answer.
pub fn set_close(body: &mut BodyOut)
    ensures { (head : Answer) (output received : List ℕ) → Makes sets_close
        (held head body.old output received) (held head body.new output received) }
{
    body.set_close();
}

/// Gives the answer up, where the head is out.
pub fn abort(body: &mut BodyOut)
    ensures { (head : Answer) (output received : List ℕ) → Makes aborts (held head body.old output received) (held head body.new output received) }
{
    if body.committed() {
        body.abort();
    }
}

/// Puts content.
pub fn write(bytes: &[u8], at: u64, body: &mut BodyOut, head: &RespHead, kit: &mut ConnKit)
    requires { at ≤ GREATEST_MOMENT }
    ensures { (received : List ℕ) → Makes (does (writes bytes.now at))
        (held head.now body.old kit.old.output received) (held head.now body.new kit.new.output received) }
{
    let _ = body.write(bytes, at, head, kit);
}

/// Cuts what waits.
pub fn flush(at: u64, body: &mut BodyOut, head: &RespHead, kit: &mut ConnKit)
    requires { at ≤ GREATEST_MOMENT }
    ensures { (received : List ℕ) → Makes (does (flushes at))
        (held head.now body.old kit.old.output received) (held head.now body.new kit.new.output received) }
{
    let _ = body.flush(at, head, kit);
}

/// The client takes so many of the bytes that wait for it, or all that there are. Answers how many these were.
pub fn receive(n: usize, kit: &mut ConnKit) -> usize
    ensures { (head : Answer) (body : Sending) (received : List ℕ) → Makes (does (receives n))
        (held head body kit.old.output received) (held head body kit.new.output (received ++ take result kit.old.output)) }
{
    let count = n.min(kit.out_len());
    kit.took_out(count);
    count
}
