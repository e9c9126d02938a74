//! The program, over any source and any sink.
ghost use Rattle.std.specs.Prelude.{◌≡◌, ◌≢◌, ◌↔◌, ◌≤◌, ◌<◌, ◌⊎◌, Some, None, IfOk, IsTrue, OnErr, OnOk};
ghost use Rattle.std.specs.Io.KnownBytes.{Appends};
ghost use Rattle.cy_link.specs.Causes.{Rose};
ghost use Rattle.cy_script.specs.Kept.{IsScript};
ghost use Rattle.cyctl.specs.declared.tool.Refusal.TheVariants.{NoMemory};
ghost use Rattle.cyctl.specs.Causes.{ReadsAll, WasRead, WritesFront};
ghost use Rattle.cyctl.specs.Check.{IsCheck, IsChecked};
ghost use Rattle.cyctl.specs.Tool.{HasNotRisen, IsInForm, IsOutside, IsReplay, IsReplayStatus, IsTold, ReadsScript, WritesReport, WritesReportFront, Tells, message_of, refusal_for, refusal_of, status_of, no_memory, refused_script, source_fault, too_large, usage};
ghost use Rattle.cyctl.specs.declared.input.TheConstants.{GREATEST_INPUT};

use crate::check::{check, is_check};
use crate::input::{InputFault, read_all};
use crate::output::write_all;
use cy_link::{Sink, Source};
use cy_script::{Script, ScriptFault, read_script};
use cy_world::{WorldFault, run};
use std::alloc::{AllocError, Global};

const USAGE: &[u8] = b"usage: cyctl replay | check | gen <n> | burn <n>\n";

/// Whether the words are `replay` alone.
fn is_replay(words: &Vec<String>) -> bool
    ensures { IsTrue result ↔ IsReplay words.now.items }
{
    match words.as_slice() {
        [word] => word.as_str() == "replay",
        _ => false,
    }
}

/// Why no report was made.
#[derive(Clone, Copy, Debug, PartialEq, Eq)]
pub enum Refusal {
    /// The source failed.
    Source,
    /// The input is larger than the greatest.
    TooLarge,
    /// The input is outside the form.
    Script,
    /// There is no memory.
    NoMemory,
}

impl Refusal {
    /// The line that tells it.
    fn message(self) -> &'static [u8]
        ensures { result.now ≡ message_of self }
    {
        match self {
            Refusal::Source => b"source fault\n",
            Refusal::TooLarge => b"too large\n",
            Refusal::Script => b"refused: script\n",
            Refusal::NoMemory => b"no memory\n",
        }
    }

    /// The status of the program.
    fn status(self) -> u8
        ensures { result ≡ status_of self }
    {
        match self {
            Refusal::Script => 3,
            Refusal::Source => 4,
            Refusal::NoMemory => 6,
            Refusal::TooLarge => 7,
        }
    }
}

impl From<InputFault> for Refusal {
    ghost from_gives = { λ fault refusal. refusal ≡ refusal_of fault };

    fn from(fault: InputFault) -> Refusal {
        match fault {
            InputFault::Failed => Refusal::Source,
            InputFault::TooLarge => Refusal::TooLarge,
            InputFault::NoMemory => Refusal::NoMemory,
        }
    }
}

impl From<ScriptFault> for Refusal {
    ghost from_gives = { λ fault refusal. refusal ≡ refusal_for fault };

    fn from(fault: ScriptFault) -> Refusal {
        match fault {
            ScriptFault::Refused => Refusal::Script,
            ScriptFault::NoMemory => Refusal::NoMemory,
        }
    }
}

impl From<AllocError> for Refusal {
    ghost from_gives = { λ _ refusal. refusal ≡ NoMemory };

    fn from(_: AllocError) -> Refusal {
        Refusal::NoMemory
    }
}

/// The script that the source has left.
fn read_source<S: Source>(alloc: Global, source: &mut S) -> Result<Script, Refusal>
    ensures script { IfOk result (λ script. ReadsScript (S.left source.old) (S.left source.new) script) }
    ensures form { IfOk result IsScript }
    ensures outside { result ≡ Err Refusal.Script → IsOutside (S.left source.old) (S.left source.new) }
    ensures failed { result ≡ Err Refusal.Source → Rose (S.faults source.old) (S.faults source.new) }
    ensures too_large { result ≡ Err Refusal.TooLarge → WasRead (λ n. GREATEST_INPUT < n) (S.left source.old) (S.left source.new) }
    ensures not_too_large { result ≢ Err Refusal.TooLarge → WasRead (λ n. n ≤ GREATEST_INPUT) (S.left source.old) (S.left source.new) }
{
    let input = read_all(alloc, source)?;
    let script = read_script(alloc, &input)?;
    Ok(script)
}

/// Tells a text, as far as the sink takes it.
pub fn tell<K: Sink>(sink: &mut K, text: &[u8])
    ensures told { Tells (K.held sink.old) (K.held sink.new) (K.faults sink.old) (K.faults sink.new) text.now }
    ensures later { K.faults sink.old ≤ K.faults sink.new }
{
    let _ = write_all(sink, text);
}

/// Tells why there is no report. The answer is the status.
pub fn refuse<K: Sink>(sink: &mut K, refusal: Refusal) -> u8
    ensures status { result ≡ status_of refusal }
    ensures told { Tells (K.held sink.old) (K.held sink.new) (K.faults sink.old) (K.faults sink.new) (message_of refusal) }
    ensures later { K.faults sink.old ≤ K.faults sink.new }
{
    tell(sink, refusal.message());
    refusal.status()
}

/// Replays the script that the source has: a connector takes its steps, over slots that are used again, and its report is
/// written, or why there is none. The answer is the status.
fn replay<S: Source, K: Sink>(alloc: Global, source: &mut S, sink: &mut K) -> u8
    ensures report { result ≡ 0 → WritesReport (S.left source.old) (S.left source.new) (K.held sink.old) (K.held sink.new) }
    ensures outside { result ≡ 3 → IsOutside (S.left source.old) (S.left source.new) }
    ensures source { result ≡ 4 → Rose (S.faults source.old) (S.faults source.new) }
    ensures front { result ≡ 5 → WritesReportFront (S.left source.old) (S.left source.new) (K.held sink.old) (K.held sink.new) }
    ensures sink { result ≡ 5 → Rose (K.faults sink.old) (K.faults sink.new) }
    ensures too_large { result ≡ 7 → WasRead (λ n. GREATEST_INPUT < n) (S.left source.old) (S.left source.new) }
    ensures not_too_large { result ≢ 7 → WasRead (λ n. n ≤ GREATEST_INPUT) (S.left source.old) (S.left source.new) }
    ensures told { IsTold (K.held sink.old) (K.held sink.new) (K.faults sink.old) (K.faults sink.new) result }
    ensures only { IsReplayStatus result }
{
    let script = match read_source(alloc, source) {
        Ok(script) => script,
        Err(refusal) => return refuse(sink, refusal),
    };
    let (rules, steps) = (script.rules.as_slice(), script.steps.as_slice());
    match run(alloc, &script.limits, rules, steps) {
        Ok(text) => match write_all(sink, text.as_slice()) {
            Ok(()) => 0,
            Err(_) => 5,
        },
        Err(WorldFault::NoMemory) => refuse(sink, Refusal::NoMemory),
        Err(WorldFault::BadPattern { .. } | WorldFault::RuleTwice { .. }) => unreachable!(),
    }
}

/// The program: the words are those of the command line without the program's name, and the answer is its status.
///
/// `replay` reads a script from the source to its end and writes its report to the sink. `check` reads settings and
/// writes them in full. Statuses:
///
/// - 0: the report, or the settings, were written.
/// - 2: the words are none of the forms; the usage is told.
/// - 3: the input is outside the form of a script, or is no text of settings.
/// - 4, 5: the source, the sink failed.
/// - 6: there is no memory.
/// - 7: the input has more than 67,108,864 bytes.
#[tactic(auto, using(crate::proofs::Statuses::completes))]
pub fn tool<S: Source, K: Sink>(
    alloc: Global,
    words: &Vec<String>,
    source: &mut S,
    sink: &mut K,
) -> u8
    // The source was read to its end, and the sink got the report of the script that was read: each reply, all answer
    // bytes, the cause and the charts are those that the definitions give to the connection's own steps.
    ensures report { IsReplay words.now.items → result ≡ 0 → WritesReport (S.left source.old) (S.left source.new) (K.held sink.old) (K.held sink.new) }

    // Exactly where the words are none of the forms. Then nothing was read.
    ensures words { (result ≡ 2) ↔ ((IsReplay words.now.items → ⊥) × (IsCheck words.now.items → ⊥)) }
    ensures usage { result ≡ 2 → Tells (K.held sink.old) (K.held sink.new) (K.faults sink.old) (K.faults sink.new) usage }
    ensures unread { result ≡ 2 → (S.left source.new ≡ S.left source.old) × (S.faults source.new ≡ S.faults source.old) }

    // Only where the input, read whole, is outside the form; and where it is, there is no report.
    ensures outside { IsReplay words.now.items → result ≡ 3 → IsOutside (S.left source.old) (S.left source.new) }

    // Only where a count of faults rose in this call; with 5 a front of the report was written.
    ensures source { result ≡ 4 → Rose (S.faults source.old) (S.faults source.new) }
    ensures sink { result ≡ 5 → Rose (K.faults sink.old) (K.faults sink.new) }
    ensures front { IsReplay words.now.items → result ≡ 5 → WritesReportFront (S.left source.old) (S.left source.new) (K.held sink.old) (K.held sink.new) }

    // Exactly where more than the greatest number of bytes were read in this call.
    ensures too_large { result ≡ 7 → WasRead (λ n. GREATEST_INPUT < n) (S.left source.old) (S.left source.new) }
    ensures not_too_large { IsReplay words.now.items → result ≢ 7 → WasRead (λ n. n ≤ GREATEST_INPUT) (S.left source.old) (S.left source.new) }

    // With 3, 4, 6 and 7 the message was told; there is no status beside these.
    ensures told { IsReplay words.now.items → IsTold (K.held sink.old) (K.held sink.new) (K.faults sink.old) (K.faults sink.new) result }
    ensures only { (result ≡ 2) ⊎ IsReplayStatus result }

    // A script of the form is replayed, where neither count rises and memory lasts.
    ensures complete { IsReplay words.now.items → IsInForm (S.left source.old)
        → HasNotRisen (S.faults source.old) (S.faults source.new) → HasNotRisen (K.faults sink.old) (K.faults sink.new)
        → (result ≡ 0) ⊎ (result ≡ 6) }

    // Settings are checked: each status has its cause, and with 0 the sink got the settings that were read.
    ensures checked { IsCheck words.now.items → IsChecked (S.left source.old) (S.left source.new) (K.held sink.old) (K.held sink.new)
        (S.faults source.old) (S.faults source.new) (K.faults sink.old) (K.faults sink.new) result }
{
    if is_check(words) {
        return check(alloc, source, sink);
    }
    if !is_replay(words) {
        tell(sink, USAGE);
        return 2;
    }
    replay(alloc, source, sink)
}

#[cfg(test)]
mod tests;
