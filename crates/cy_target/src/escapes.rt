//! Escapes: a percent sign and two hexadecimal digits (RFC 3986, section 2.1).

ghost use Rattle.std.specs.Prelude.{◌≡◌, ◌+◌, ◌≤◌, ◌++◌, length, is_some, vec_len, vec_capacity, Some, None};
ghost use Rattle.cy_event.specs.Targets.{is_escape, may_be_escaped, unescaped};
ghost use Rattle.percent_encoding.specs.Percent.{percent_decode};
ghost use Rattle.cy_target.specs.Reading.{Appends, begins_with_escape};

use crate::bad_target::BadTarget;
use percent_encoding::percent_decode;

/// Puts the bytes at the end of the path, each escape as its byte.
///
/// # Errors
///
/// `BadTarget` where a percent sign begins no escape, or one of a slash, a backslash or NUL. The path is as before then.
pub fn push_unescaped(path: &mut Vec<u8>, bytes: &[u8]) -> Result<(), BadTarget>
    requires { vec_len path.old + length bytes.now ≤ vec_capacity path.old }
    ensures bytes { Appends path.old.items (unescaped bytes.now) path.new.items result }
    ensures size { vec_len path.new ≤ vec_len path.old + length bytes.now }
    ensures room { vec_capacity path.new ≡ vec_capacity path.old }
{
    if !has_right_escapes(bytes) {
        return Err(BadTarget);
    }
    push_decoded(path, bytes);
    Ok(())
}

/// Puts the decoded bytes at the end of the path.
fn push_decoded(path: &mut Vec<u8>, bytes: &[u8])
    requires { vec_len path.old + length bytes.now ≤ vec_capacity path.old }
    ensures items { path.new.items ≡ path.old.items ++ percent_decode bytes.now }
    ensures room { vec_capacity path.new ≡ vec_capacity path.old }
{
    for byte in percent_decode(bytes) {
        path.push_reserved(byte);
    }
}

/// Whether each percent sign begins an escape of a byte that may be escaped.
fn has_right_escapes(bytes: &[u8]) -> bool
    ensures { result ≡ is_some (unescaped bytes.now) }
{
    for (i, byte) in bytes.iter().enumerate() {
        if *byte == b'%' && !begins_with_escape(&bytes[i + 1..]) {
            return false;
        }
    }
    true
}

/// Whether the two digits of such an escape stand first.
fn begins_with_escape(text: &[u8]) -> bool
    ensures { result ≡ begins_with_escape text.now }
{
    match text {
        [high, low, ..] => is_escape(*high, *low),
        _ => false,
    }
}

/// Whether the two are the digits of such an escape.
fn is_escape(high: u8, low: u8) -> bool
    ensures { result ≡ is_escape high low }
{
    match (char::from(high).to_digit(16), char::from(low).to_digit(16)) {
        (Some(high), Some(low)) => may_be_escaped(high * 16 + low),
        _ => false,
    }
}

/// Whether an escape may stand for this byte.
fn may_be_escaped(byte: u32) -> bool
    ensures { result ≡ may_be_escaped byte }
{
    byte != u32::from(b'/') && byte != u32::from(b'\\') && byte != 0
}
