//! The text between the quotation marks of a quoted text.

ghost use Rattle.std.specs.Prelude.{◌≡◌, ℕ, ◌++◌, ◌<◌, ◌↔◌, List, length, IsTrue, IfOk, IfSome, OnOk, Ok, Err, option_map};
ghost use Rattle.std.specs.Char.{digit_char, digit_value};
ghost use Rattle.std.specs.Option.{SomeIff};
ghost use Rattle.cy_bytes.specs.QuoteFault.{Gives};
ghost use Rattle.cy_bytes.specs.Quoting.{StandsAsItself, escaped, spelling_of, quoted, item_at, unquoted, IsSpelling, HasFirstFault};
ghost use Rattle.cy_bytes.specs.declared.fault.QuoteFault.TheVariants.{BadEscape};

use crate::bytes::Bytes;
use crate::fault::{NoMemory, QuoteFault};
use std::alloc::{AllocError, Global};

/// Writes what stands between the quotation marks of a quoted text: an item for each byte, one after
/// another. A carriage return, a line feed, a tab, a backslash and a quotation mark are `\r`, `\n`,
/// `\t`, `\\` and `\"`, any other byte from space to `~` is itself, and the rest are `\x` with two
/// lower-case hexadecimal digits.
///
/// # Errors
///
/// `NoMemory` where memory ran out.
#[tactic(auto, unfolding(crate::specs::Quoting::quoted))]
pub fn quote(alloc: Global, bytes: &[u8]) -> Result<Bytes, NoMemory>
    ensures text { IfOk result (λ text. text ≡ quoted bytes.now) }
{
    let mut text = Vec::with_capacity(alloc, bytes.len())?;
    for &byte in bytes {
        push_spelling(&mut text, byte)?;
    }
    Ok(Bytes::of(text))
}

/// Writes one byte at the end.
fn push_spelling(text: &mut Vec<u8>, byte: u8) -> Result<(), AllocError>
    ensures { OnOk result (text.new.items ≡ text.old.items ++ spelling_of byte) }
{
    match byte {
        b'\r' => text.extend_from_slice(b"\\r"),
        b'\n' => text.extend_from_slice(b"\\n"),
        b'\t' => text.extend_from_slice(b"\\t"),
        b'\\' => text.extend_from_slice(b"\\\\"),
        b'"' => text.extend_from_slice(b"\\\""),
        b' '..=b'~' => text.extend_from_slice(&[byte]),
        _ => text.extend_from_slice(&[b'\\', b'x', hex_digit(byte / 16), hex_digit(byte % 16)]),
    }
}

/// The digit of a value, in lower case.
fn hex_digit(value: u8) -> u8
    requires { value < 16 }
    ensures { result ≡ digit_char value }
{
    if value < 10 {
        b'0' + value
    } else {
        b'a' - 10 + value
    }
}

/// Reads what stands between the quotation marks of a quoted text: whole items up to the end. The digits
/// behind `\x` are of either case, and a byte that stands as itself may also be written `\x`.
///
/// # Errors
///
/// `BadEscape` at the first place where no item begins: at a bare quotation mark, at a byte below space
/// or above `~`, at an unknown escape, and at one that is cut off. `NoMemory` where memory ran out.
pub fn unquote(alloc: Global, inner: &[u8]) -> Result<Bytes, QuoteFault>
    ensures exact { Gives result (unquoted inner.now) }

    // What is read is spelled so, and what is spelled so is read, unless memory runs out.
    ensures spelled { IfOk result (IsSpelling inner.now) }
    ensures read { (bytes : List ℕ) → IsSpelling inner.now bytes → Gives result (Ok bytes) }

    // The place is the first fault, and a first fault is named, unless memory runs out.
    ensures bad_escape { (place : ℕ) →
        result ≡ Err (BadEscape place) → HasFirstFault inner.now place }
    ensures fault { (place : ℕ) → HasFirstFault inner.now place → Gives result (Err place) }
{
    read_items(alloc, inner)
}

/// Reads item by item. A text is never shorter than its bytes, so there is room for all of them.
fn read_items(alloc: Global, inner: &[u8]) -> Result<Bytes, QuoteFault>
    ensures { Gives result (unquoted inner.now) }
{
    let mut bytes = Vec::with_capacity(alloc, inner.len())?;
    let mut rest = inner;
    while !rest.is_empty() {
        let Some((byte, after)) = first_item(rest) else {
            let place = inner.len() - rest.len();
            return Err(QuoteFault::BadEscape {
                place: place as u64,
            });
        };
        bytes.push_reserved(byte);
        rest = after;
    }
    Ok(Bytes::of(bytes))
}

/// The byte that the first item stands for, and the text behind the item.
fn first_item(text: &[u8]) -> Option<(u8, &[u8])>
    ensures item { option_map (λ x. (x.0, x.1.now)) result ≡ item_at text.now }
    ensures shorter { IfSome result (λ x. length x.1.now < length text.now) }
{
    match text {
        [byte, rest @ ..] if stands_as_itself(*byte) => Some((*byte, rest)),
        [b'\\', b'x', high, low, rest @ ..] => {
            Some((hex_value(*high)? * 16 + hex_value(*low)?, rest))
        }
        [b'\\', letter, rest @ ..] => Some((escaped(*letter)?, rest)),
        _ => None,
    }
}

fn stands_as_itself(byte: u8) -> bool
    ensures { IsTrue result ↔ StandsAsItself byte }
{
    matches!(byte, b' '..=b'~') && byte != b'\\' && byte != b'"'
}

/// The byte that a letter behind a backslash stands for.
fn escaped(letter: u8) -> Option<u8>
    ensures { result ≡ escaped letter }
{
    match letter {
        b'r' => Some(b'\r'),
        b'n' => Some(b'\n'),
        b't' => Some(b'\t'),
        b'\\' | b'"' => Some(letter),
        _ => None,
    }
}

/// The value of a digit of either case.
pub(crate) fn hex_value(digit: u8) -> Option<u8>
    ensures { SomeIff result (digit_value digit < 16) (digit_value digit) }
{
    match digit {
        b'0'..=b'9' => Some(digit - b'0'),
        b'a'..=b'f' => Some(digit - b'a' + 10),
        b'A'..=b'F' => Some(digit - b'A' + 10),
        _ => None,
    }
}
