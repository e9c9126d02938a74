//! Whether a head is due.

ghost use Rattle.std.specs.Prelude.{◌≡◌, ◌↔◌, ◌≤◌, length, IfSome};
ghost use Rattle.cy_event.specs.Heads.{awaited, front_length, head_of, is_empty_line};
ghost use Rattle.cy_head.specs.Answers.{due_by_bytes};

use cy_event::Limits;
use memchr::memchr;

/// Whether a head is due.
#[derive(Clone, Copy, Debug, PartialEq, Eq)]
pub enum Due {
    /// There is no whole front, and it may still come.
    Wait,
    /// There is a whole front, of so many bytes; that may be more than a head may have.
    Front { length: usize },
    /// As many bytes came as a head may have, without a front.
    TooLong,
}

/// Tells whether a head is due at the front of the bytes, without reading it: whether `head_front` answers something
/// other than `Wait`. The front is everything up to the first empty line behind a line that isn't empty.
pub fn head_due(bytes: &[u8], limits: &Limits) -> Due
    ensures due { result ≡ due_by_bytes limits.now.max_head bytes.now }
    ensures wait { (result ≡ Due.Wait) ↔ (head_of limits.now.max_head limits.now.max_fields bytes.now ≡ awaited) }
{
    match front_of(bytes) {
        Some(length) => Due::Front { length },
        None if bytes.len() < limits.max_head as usize => Due::Wait,
        None => Due::TooLong,
    }
}

/// How many bytes there are up to the first empty line after a line that isn't empty.
pub(crate) fn front_of(bytes: &[u8]) -> Option<usize>
    ensures front { result ≡ front_length bytes.now }
    ensures within { IfSome result (λ n. n ≤ length bytes.now) }
{
    let mut begun = false;
    let mut rest = bytes;
    while let Some(end) = memchr(b'\n', rest) {
        let is_empty = is_line_end(&rest[..end]);
        rest = &rest[end + 1..];
        if !is_empty {
            begun = true;
        } else if begun {
            return Some(bytes.len() - rest.len());
        }
    }
    None
}

/// Whether the line, whose LF is cut off, is empty.
fn is_line_end(line: &[u8]) -> bool
    ensures { result ≡ is_empty_line line.now }
{
    match line {
        [] => true,
        [byte] => *byte == b'\r',
        _ => false,
    }
}
