//! What the lines of a script say, one by one.

ghost use Rattle.std.specs.Prelude.{◌≡◌, []};
ghost use Rattle.cy_script.specs.Answers.{Reads};
ghost use Rattle.cy_script.specs.Reading.{act_of, came_of, is_async, is_skipped, read_of, rule_line, rule_of_part, set_line, set_of, set_to, statement_of, statement_of_word, step_line, step_of_word, taken_of, write_of};

use crate::fault::ScriptFault;
use crate::fields::{alone, cut_word, number_field, quoted_field, word_field};
use cy_event::{Act, Bytes, Event, GREATEST_READ, Step};
use cy_map::Rule;
use cy_settings::{GREATEST_PART, Limit};
use std::alloc::Global;

/// What a line of a script says.
#[derive(Debug, Drop)]
pub(crate) enum Statement {
    /// Nothing: it is empty, or a comment.
    Nothing,
    /// A setting has this value.
    Set(Limit, u64),
    /// A connection may have any number of requests.
    NoLimit,
    /// The next rule.
    Rule(Rule),
    /// The next step.
    Step(Step),
}

/// What a line says. It begins with a word, and has its fields behind one space each.
pub(crate) fn read_statement(alloc: Global, line: &[u8]) -> Result<Statement, ScriptFault>
    ensures { Reads (λ s. s) result (statement_of line.now) }
{
    if is_skipped(line) {
        return Ok(Statement::Nothing);
    }
    let (word, fields) = cut_word(line);
    statement_of_word(alloc, word, fields)
}

/// Whether a line is empty, or a comment.
fn is_skipped(line: &[u8]) -> bool
    ensures { result ≡ is_skipped line.now }
{
    match line {
        [] => true,
        [first, ..] => *first == b'#',
    }
}

/// What a line says, by its first word.
fn statement_of_word(alloc: Global, word: &[u8], fields: &[u8]) -> Result<Statement, ScriptFault>
    ensures { Reads (λ s. s) result (statement_of_word word.now fields.now) }
{
    if word == b"set".as_slice() {
        set_line(fields)
    } else if word == b"rule".as_slice() {
        Ok(Statement::Rule(rule_line(alloc, fields)?))
    } else {
        Ok(Statement::Step(step_line(alloc, word, fields)?))
    }
}

/// A setting's name and its value.
fn set_line(fields: &[u8]) -> Result<Statement, ScriptFault>
    ensures { Reads (λ s. s) result (set_line fields.now) }
{
    if fields == b" maxKeepAliveRequests -1".as_slice() {
        return Ok(Statement::NoLimit);
    }
    let (name, rest) = word_field(fields)?;
    let setting = Limit::named(name).ok_or(ScriptFault::Refused)?;
    set_to(setting, rest)
}

/// The value of a setting, which is within its range.
fn set_to(setting: Limit, fields: &[u8]) -> Result<Statement, ScriptFault>
    ensures { Reads (λ s. s) result (set_to setting fields.now) }
{
    let (value, rest) = number_field(fields)?;
    let set = set_of(setting, value)?;
    alone(set, rest)
}

fn set_of(setting: Limit, value: u64) -> Result<Statement, ScriptFault>
    ensures { Reads (λ s. s) result (set_of setting value) }
{
    if u64::from(setting.least()) <= value && value <= u64::from(setting.greatest()) {
        Ok(Statement::Set(setting, value))
    } else {
        Err(ScriptFault::Refused)
    }
}

/// A rule's pattern, its part, and its mode.
fn rule_line(alloc: Global, fields: &[u8]) -> Result<Rule, ScriptFault>
    ensures { Reads (λ rule. rule) result (rule_line fields.now) }
{
    let (pattern, rest) = word_field(fields)?;
    let (part, rest) = number_field(rest)?;
    let (mode, rest) = word_field(rest)?;
    let can_async = is_async(mode)?;
    let rule = rule_of_part(alloc, pattern, part, can_async)?;
    alone(rule, rest)
}

fn is_async(mode: &[u8]) -> Result<bool, ScriptFault>
    ensures { Reads (λ mode. mode) result (is_async mode.now) }
{
    if mode == b"async".as_slice() {
        Ok(true)
    } else if mode == b"sync".as_slice() {
        Ok(false)
    } else {
        Err(ScriptFault::Refused)
    }
}

/// The rule, where its part is no greater than the greatest.
fn rule_of_part(
    alloc: Global,
    pattern: &[u8],
    part: u64,
    can_async: bool,
) -> Result<Rule, ScriptFault>
    ensures { Reads (λ rule. rule) result (rule_of_part pattern.now part can_async) }
{
    if part > u64::from(GREATEST_PART) {
        return Err(ScriptFault::Refused);
    }
    Ok(Rule {
        pattern: cy_bytes::Bytes::of(Vec::from_slice(alloc, pattern)?),
        part: part as u32,
        can_async,
    })
}

/// A step: its word, the number of its connection, and more fields.
fn step_line(alloc: Global, word: &[u8], fields: &[u8]) -> Result<Step, ScriptFault>
    ensures { Reads (λ step. step) result (step_line word.now fields.now) }
{
    let (conn, rest) = number_field(fields)?;
    step_of_word(alloc, word, conn, rest)
}

/// The step of a word, of a connection, and of the fields behind its number.
fn step_of_word(alloc: Global, word: &[u8], conn: u64, fields: &[u8]) -> Result<Step, ScriptFault>
    ensures { Reads (λ step. step) result (step_of_word word.now conn fields.now) }
{
    if word == b"admit".as_slice() {
        alone(Step::Admit(conn), fields)
    } else if word == b"in".as_slice() {
        came(alloc, conn, fields)
    } else if word == b"end".as_slice() {
        alone(on(alloc, conn, Event::End), fields)
    } else if word == b"out".as_slice() {
        taken(alloc, conn, fields)
    } else if word == b"run".as_slice() {
        alone(Step::Run(conn), fields)
    } else if word == b"act".as_slice() {
        act(alloc, conn, fields)
    } else if word == b"return".as_slice() {
        alone(returned(alloc, conn), fields)
    } else {
        Err(ScriptFault::Refused)
    }
}

/// An event without bytes.
fn on(alloc: Global, conn: u64, event: Event) -> Step
    ensures { result ≡ Step.On conn event [] }
{
    Step::On {
        conn,
        event,
        bytes: Bytes::of(Vec::new(alloc)),
    }
}

/// The return of a callback.
fn returned(alloc: Global, conn: u64) -> Step
    ensures { result ≡ Step.Act conn Act.Return [] }
{
    Step::Act {
        conn,
        act: Act::Return,
        bytes: Bytes::of(Vec::new(alloc)),
    }
}

/// Bytes that come in.
fn came(alloc: Global, conn: u64, fields: &[u8]) -> Result<Step, ScriptFault>
    ensures { Reads (λ step. step) result (came_of conn fields.now) }
{
    Ok(Step::On {
        conn,
        event: Event::In,
        bytes: quoted_field(alloc, fields)?,
    })
}

/// A number of bytes that the socket took.
fn taken(alloc: Global, conn: u64, fields: &[u8]) -> Result<Step, ScriptFault>
    ensures { Reads (λ step. step) result (taken_of conn fields.now) }
{
    let (count, rest) = number_field(fields)?;
    alone(on(alloc, conn, Event::Took(count)), rest)
}

/// An act of the running callback.
fn act(alloc: Global, conn: u64, fields: &[u8]) -> Result<Step, ScriptFault>
    ensures { Reads (λ step. step) result (act_of conn fields.now) }
{
    let (word, rest) = word_field(fields)?;
    if word == b"write".as_slice() {
        write(conn, quoted_field(alloc, rest)?)
    } else if word == b"read".as_slice() {
        read(alloc, conn, rest)
    } else {
        Err(ScriptFault::Refused)
    }
}

/// A read of at most so many bytes, where it may ask for as many.
fn read(alloc: Global, conn: u64, fields: &[u8]) -> Result<Step, ScriptFault>
    ensures { Reads (λ step. step) result (read_of conn fields.now) }
{
    let (count, rest) = number_field(fields)?;
    if count > u64::from(GREATEST_READ) {
        return Err(ScriptFault::Refused);
    }
    let step = Step::Act {
        conn,
        act: Act::Read(count as u32),
        bytes: Bytes::of(Vec::new(alloc)),
    };
    alone(step, rest)
}

/// A write of these bytes, where their number fits.
fn write(conn: u64, bytes: Bytes) -> Result<Step, ScriptFault>
    ensures { Reads (λ step. step) result (write_of conn bytes) }
{
    let Ok(count) = u32::try_from(bytes.as_slice().len()) else {
        return Err(ScriptFault::Refused);
    };
    Ok(Step::Act {
        conn,
        act: Act::Write(count),
        bytes,
    })
}
