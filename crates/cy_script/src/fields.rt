//! The fields of a line: words, numbers and quoted texts, each behind a space.

ghost use Rattle.std.specs.Prelude.{◌≡◌, ◌==◌, option_map, position};
ghost use Rattle.cy_script.specs.Answers.{Reads};
ghost use Rattle.cy_script.specs.TextLines.{space};
ghost use Rattle.cy_script.specs.Reading.{alone, behind_space, behind_word, between, number_field, quoted_field, word_field, word_of};

use crate::fault::ScriptFault;
use cy_bytes::{decimal, unquote};
use cy_event::Bytes;
use std::alloc::Global;

/// The first word of a text, and what follows it: nothing, or a space and more.
pub(crate) fn cut_word(text: &[u8]) -> (&[u8], &[u8])
    ensures word { result.0.now ≡ word_of text.now }
    ensures rest { result.1.now ≡ behind_word text.now }
{
    match space_in(text) {
        Some(end) => (&text[..end], &text[end..]),
        None => (text, &[]),
    }
}

/// Where the first space stands.
fn space_in(text: &[u8]) -> Option<usize>
    ensures { result ≡ position (λ b. b == space) text.now }
{
    text.iter().position(|byte| *byte == b' ')
}

/// What stands behind the space that begins a text.
fn behind_space(text: &[u8]) -> Result<&[u8], ScriptFault>
    ensures { Reads (λ field. field.now) result (behind_space text.now) }
{
    match text {
        [b' ', field @ ..] => Ok(field),
        _ => Err(ScriptFault::Refused),
    }
}

/// The next field as a word, and what follows it.
pub(crate) fn word_field(text: &[u8]) -> Result<(&[u8], &[u8]), ScriptFault>
    ensures { Reads (λ x. (x.0.now, x.1.now)) result (word_field text.now) }
{
    let field = behind_space(text)?;
    Ok(cut_word(field))
}

/// The next field as a number, and what follows it.
pub(crate) fn number_field(text: &[u8]) -> Result<(u64, &[u8]), ScriptFault>
    ensures { Reads (λ x. (x.0, x.1.now)) result (number_field text.now) }
{
    let (word, rest) = word_field(text)?;
    let number = decimal(word).ok_or(ScriptFault::Refused)?;
    Ok((number, rest))
}

/// The bytes of the last field, a quoted text.
pub(crate) fn quoted_field(alloc: Global, text: &[u8]) -> Result<Bytes, ScriptFault>
    ensures { Reads (λ bytes. bytes) result (quoted_field text.now) }
{
    let inner = between(text, b" \"", b"\"").ok_or(ScriptFault::Refused)?;
    let bytes = unquote(alloc, inner)?;
    Ok(Bytes::of(bytes.into_vec()))
}

/// Refuses a line on which a field follows.
pub(crate) fn alone<T: Drop>(x: T, rest: &[u8]) -> Result<T, ScriptFault>
    ensures { Reads (λ t. t) result (alone x rest.now) }
{
    if rest.is_empty() {
        Ok(x)
    } else {
        Err(ScriptFault::Refused)
    }
}

/// What stands in a text between a front and a back.
fn between<'a>(text: &'a [u8], front: &[u8], back: &[u8]) -> Option<&'a [u8]>
    ensures { option_map (λ x. x.now) result ≡ between front.now back.now text.now }
{
    text.strip_prefix(front)?.strip_suffix(back)
}
