//! Bytes, cut in two.

ghost use Rattle.std.specs.Prelude.{◌≡◌, ◌+◌, ◌<◌, ◌==◌, length, IfSome, None, Some, MatchOption};
ghost use Rattle.std.specs.List.{position};
ghost use Rattle.cy_event.specs.Heads.{cut_at};

/// What stands before the first such byte and what stands behind it, or none where there is no such byte.
pub fn cut(text: &[u8], byte: u8) -> Option<(&[u8], &[u8])>
    ensures parts { MatchOption result (cut_at byte text.now ≡ None)
        (λ parts. cut_at byte text.now ≡ Some (parts.0.now, parts.1.now)) }
    ensures lengths { IfSome result (λ parts.
        length parts.0.now + length parts.1.now + 1 ≡ length text.now) }
{
    let place = place_of(text, byte)?;
    Some((&text[..place], &text[place + 1..]))
}

/// Where the byte first stands.
fn place_of(text: &[u8], byte: u8) -> Option<usize>
    ensures place { result ≡ position (λ b. b == byte) text.now }
    ensures within { IfSome result (λ place. place < length text.now) }
{
    text.iter().position(|b| *b == byte)
}
