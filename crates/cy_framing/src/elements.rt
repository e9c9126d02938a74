//! The elements of a list field (RFC 9110, section 5.6.1), one after another.

ghost use Rattle.std.specs.Prelude.{◌≡◌, ◌<◌, fold, length, reverse};
ghost use Rattle.std.specs.List.{list_any};
ghost use Rattle.cy_event.specs.Heads.{is_blank, is_named, skip_blanks, trimmed, values_of};
ghost use Rattle.cy_event.specs.Framings.{elements_in, elements_of, is_word};
ghost use Rattle.cy_framing.specs.Lists.{first_part, later_parts};

use cy_event::{RequestHead, cut};

/// What is remembered of a list's elements, which are taken one after another.
pub trait Tally {
    ghost use Rattle.std.specs.Prelude.{◌≡◌, List, ℕ};

    /// What is remembered when one more was taken.
    ghost after: { Self → List ℕ → Self };

    fn take(&mut self, element: &[u8])
        ensures { self.new ≡ after self.old element.now };
}

/// Takes the elements of all lines of a field, whose name is compared without case.
pub fn take_elements<T: Tally>(head: &RequestHead, name: &[u8], tally: &mut T)
    ensures { tally.new ≡ fold T.after tally.old (elements_of (values_of name.now head.now.head.fields)) }
{
    for i in 0..head.field_count() {
        let (field_name, value) = head.field(i);
        if is_word(field_name, name) {
            take_elements_in(value, tally);
        }
    }
}

/// Takes the elements of one line.
fn take_elements_in<T: Tally>(value: &[u8], tally: &mut T)
    ensures { tally.new ≡ fold T.after tally.old (elements_in value.now) }
{
    let mut rest = value;
    while !rest.is_empty() {
        let (part, more) = first_part(rest);
        let element = without_blanks(part);
        if !element.is_empty() {
            tally.take(element);
        }
        rest = more;
    }
}

/// What stands before the first comma, and what stands behind it.
fn first_part(list: &[u8]) -> (&[u8], &[u8])
    ensures part { result.0.now ≡ first_part list.now }
    ensures later { result.1.now ≡ later_parts list.now }
    ensures shorter { 0 < length list.now → length result.1.now < length list.now }
{
    match cut(list, b',') {
        Some((part, more)) => (part, more),
        None => (list, &[]),
    }
}

/// The bytes without spaces and tabs at both ends.
#[tactic(auto, unfolding(cy_event::specs::Heads::trimmed))]
fn without_blanks(part: &[u8]) -> &[u8]
    ensures value { result.now ≡ trimmed part.now }
{
    without_blanks_behind(without_blanks_before(part))
}

/// The bytes from the first that is no blank.
fn without_blanks_before(part: &[u8]) -> &[u8]
    ensures { result.now ≡ skip_blanks part.now }
{
    let mut text = part;
    while let [first, rest @ ..] = text {
        if !is_blank(*first) {
            return text;
        }
        text = rest;
    }
    text
}

/// The bytes up to the last that is no blank.
fn without_blanks_behind(part: &[u8]) -> &[u8]
    ensures { result.now ≡ reverse (skip_blanks (reverse part.now)) }
{
    let mut text = part;
    while let [rest @ .., last] = text {
        if !is_blank(*last) {
            return text;
        }
        text = rest;
    }
    text
}

/// Whether it is a space or a tab.
fn is_blank(byte: u8) -> bool
    ensures { result ≡ is_blank byte }
{
    byte == b' ' || byte == b'\t'
}

/// Whether there is a field of this name, which is compared without case.
pub fn has_field(head: &RequestHead, name: &[u8]) -> bool
    ensures { result ≡ list_any (is_named name.now) head.now.head.fields }
{
    for i in 0..head.field_count() {
        let (field_name, _) = head.field(i);
        if is_word(field_name, name) {
            return true;
        }
    }
    false
}

/// Whether the text is this word, in any case.
pub fn is_word(text: &[u8], word: &[u8]) -> bool
    ensures { result ≡ is_word word.now text.now }
{
    text.eq_ignore_ascii_case(word)
}
