//! The segments of a path (RFC 3986, sections 3.3 and 5.2.4).

ghost use Rattle.std.specs.Prelude.{◌≡◌, ◌+◌, ◌<◌, ◌≤◌, [], length, vec_len, vec_capacity, IfOk, IsTrue, MatchResult, Some, None};
ghost use Rattle.cy_event.specs.Targets.{path_of, without_parameters};
ghost use Rattle.cy_target.specs.Reading.{after_segment, move_of, parent_text};

use crate::bad_target::BadTarget;
use crate::escapes::push_unescaped;
use cy_event::cut;

/// What a segment does.
#[derive(Clone, Copy)]
enum Move {
    /// It is empty or a dot.
    Stay,
    /// It is two dots.
    Leave,
    /// It is a name.
    Enter,
}

/// Writes the path of what a target has behind its first slash, up to its query, into an empty vector.
///
/// # Errors
///
/// `BadTarget` where an escape is wrong or a segment leads above the root. What was written by then stays.
pub fn write_path(raw: &[u8], path: &mut Vec<u8>) -> Result<(), BadTarget>
    requires empty { path.old.items ≡ [] }
    requires room { length raw.now < vec_capacity path.old }
    ensures path { MatchResult result
        (λ _. path_of raw.now ≡ Some path.new.items) (λ _. path_of raw.now ≡ None) }
    ensures size { vec_len path.new ≤ length raw.now + 1 }
    ensures room { vec_capacity path.new ≡ vec_capacity path.old }
{
    let mut rest = raw;
    while let Some((segment, more)) = cut(rest, b'/') {
        go_through(path, segment)?;
        rest = more;
    }
    if go_through(path, rest)? {
        path.push_reserved(b'/');
    }
    Ok(())
}

/// Goes through one segment, and tells whether it is empty or a dot segment. A path that ends in it ends in a slash.
fn go_through(path: &mut Vec<u8>, raw: &[u8]) -> Result<bool, BadTarget>
    requires { vec_len path.old + length raw.now < vec_capacity path.old }
    ensures segment { MatchResult result
        (λ unnamed. after_segment path.old.items raw.now ≡ Some (unnamed, path.new.items))
        (λ _. after_segment path.old.items raw.now ≡ None) }
    ensures size { vec_len path.new ≤ vec_len path.old + length raw.now + 1 }
    ensures back { IfOk result (λ unnamed. IsTrue unnamed → vec_len path.new ≤ vec_len path.old) }
    ensures room { vec_capacity path.new ≡ vec_capacity path.old }
{
    let start = path.len();
    path.push_reserved(b'/');
    push_unescaped(path, without_parameters(raw))?;
    match move_of(&path[start + 1..]) {
        Move::Enter => Ok(false),
        Move::Stay => {
            path.truncate(start);
            Ok(true)
        }
        Move::Leave => {
            path.truncate(start);
            leave(path)?;
            Ok(true)
        }
    }
}

/// The segment up to its first semicolon.
fn without_parameters(segment: &[u8]) -> &[u8]
    ensures value { result.now ≡ without_parameters segment.now }
    ensures shorter { length result.now ≤ length segment.now }
{
    match cut(segment, b';') {
        Some((name, _)) => name,
        None => segment,
    }
}

fn move_of(segment: &[u8]) -> Move
    ensures { result ≡ move_of segment.now }
{
    match segment {
        b"" | b"." => Move::Stay,
        b".." => Move::Leave,
        _ => Move::Enter,
    }
}

/// Takes away the last segment and the slash before it.
///
/// # Errors
///
/// `BadTarget` at the root. The path is empty then.
fn leave(path: &mut Vec<u8>) -> Result<(), BadTarget>
    ensures parent { MatchResult result
        (λ _. parent_text path.old.items ≡ Some path.new.items)
        (λ _. parent_text path.old.items ≡ None) }
    ensures size { vec_len path.new ≤ vec_len path.old }
    ensures room { vec_capacity path.new ≡ vec_capacity path.old }
{
    while let Some(byte) = path.pop() {
        if byte == b'/' {
            return Ok(());
        }
    }
    Err(BadTarget)
}
