//! Reading a script line by line.

ghost use Rattle.std.specs.Prelude.{◌≡◌, ◌==◌, [], ◌∷◌, IfOk, MatchOption, Some, option_map, position};
ghost use Rattle.cy_script.specs.declared.script.Script.{Script as ScriptValue};
ghost use Rattle.cy_script.specs.Answers.{Reads};
ghost use Rattle.cy_script.specs.Kept.{IsScript};
ghost use Rattle.cy_script.specs.TextLines.{line_feed};
ghost use Rattle.cy_script.specs.Reading.{after_lines, lines_of, nothing_said, script_of, with_parts};
ghost use Rattle.cy_script.specs.Spelling.{IsScriptText};

use crate::draft::Draft;
use crate::fault::ScriptFault;
use crate::script::Script;
use crate::statements::read_statement;
use std::alloc::Global;

/// The first line of a script.
const FIRST_LINE: &[u8] = b"coyote-script 1";

/// Reads the text of a script: its first line, then settings and rules, then steps, in one pass over the
/// lines. Empty lines and comments say nothing, and the last line may lack its line feed.
///
/// # Errors
///
/// `Refused` where the text is outside the form, `NoMemory` where memory ran out.
pub fn read_script(alloc: Global, bytes: &[u8]) -> Result<Script, ScriptFault>
    ensures exact { Reads (λ script. script) result (script_of bytes.now) }

    // What is read is spelled so, and what is spelled so is read, unless memory runs out.
    ensures found { IfOk result (IsScriptText bytes.now) }
    ensures only { (script : ScriptValue) →
        IsScriptText bytes.now script → Reads (λ read. read) result (Some script) }

    // Limits, rules and steps are within what a text of the form may say.
    ensures valid { IfOk result IsScript }
{
    read_text(alloc, bytes)
}

/// Reads the first line and then the further ones.
#[tactic(auto, unfolding(crate::specs::Reading::script_of))]
fn read_text(alloc: Global, text: &[u8]) -> Result<Script, ScriptFault>
    ensures { Reads (λ script. script) result (script_of text.now) }
{
    match first_line(text) {
        Some((line, rest)) if line == FIRST_LINE => read_lines(alloc, rest),
        _ => Err(ScriptFault::Refused),
    }
}

/// Reads the lines behind the first.
fn read_lines(alloc: Global, text: &[u8]) -> Result<Script, ScriptFault>
    ensures { Reads (λ script. script) result (option_map with_parts (after_lines nothing_said (lines_of text.now))) }
{
    let mut draft = Draft::new(alloc);
    let mut rest = text;
    while let Some((line, after)) = first_line(rest) {
        let statement = read_statement(alloc, line)?;
        draft.take(statement)?;
        rest = after;
    }
    Ok(draft.finish())
}

/// The first line, without its line feed, and the text behind it.
fn first_line(text: &[u8]) -> Option<(&[u8], &[u8])>
    ensures { MatchOption result (lines_of text.now ≡ []) (λ x. lines_of text.now ≡ x.0.now ∷ lines_of x.1.now) }
{
    if text.is_empty() {
        return None;
    }
    match line_end(text) {
        Some(end) => Some((&text[..end], &text[end + 1..])),
        None => Some((text, &[])),
    }
}

/// Where the first line feed stands.
fn line_end(text: &[u8]) -> Option<usize>
    ensures { result ≡ position (λ b. b == line_feed) text.now }
{
    text.iter().position(|byte| *byte == b'\n')
}
