//! Content-Length (RFC 9112, section 6.2).

ghost use Rattle.std.specs.Prelude.{◌≡◌, codes};
ghost use Rattle.cy_bytes.specs.Numbers.{number_of};
ghost use Rattle.cy_event.specs.Heads.{values_of};
ghost use Rattle.cy_event.specs.Framings.{elements_of, length_framing};
ghost use Rattle.cy_framing.specs.Lists.{length_in, lengths_verdict, without_zeros};

use crate::elements::{Tally, take_elements};
use crate::status::BAD_REQUEST;
use cy_bytes::decimal;
use cy_event::{Framing, RequestHead};

/// The longest body: 2^62 bytes.
const GREATEST_LENGTH: u64 = 1 << 62;

/// What the elements tell so far.
#[derive(Clone, Copy, Debug, PartialEq, Eq)]
enum Lengths {
    /// There was none.
    Unknown,
    /// All were this number.
    Same(u64),
    /// One was none, or another number, or too great.
    Refused,
}

impl Tally for Lengths {
    ghost use Rattle.cy_framing.specs.Lists.{after_element};

    ghost after = { after_element };

    fn take(&mut self, element: &[u8]) {
        *self = match (*self, length_in(element)) {
            (Lengths::Unknown, Some(length)) => Lengths::Same(length),
            (Lengths::Same(known), Some(length)) if known == length => Lengths::Same(known),
            _ => Lengths::Refused,
        };
    }
}

impl Lengths {
    /// The framing that they tell.
    fn framing(self) -> Result<Framing, u16>
        ensures { result ≡ lengths_verdict self }
    {
        match self {
            Lengths::Same(length) => Ok(Framing::Length(length)),
            Lengths::Unknown | Lengths::Refused => Err(BAD_REQUEST),
        }
    }
}

/// The framing by Content-Length alone.
///
/// # Errors
///
/// 400 where the elements aren't one number of at most 2^62.
pub fn length_framing(head: &RequestHead) -> Result<Framing, u16>
    ensures { result ≡ length_framing
        (elements_of (values_of (codes "Content-Length") head.now.head.fields)) }
{
    let mut lengths = Lengths::Unknown;
    take_elements(head, b"Content-Length", &mut lengths);
    lengths.framing()
}

/// The number that the element is, zeros before it too, where it is at most 2^62.
fn length_in(element: &[u8]) -> Option<u64>
    ensures { result ≡ length_in element.now }
{
    match number_in(element) {
        Some(length) if length <= GREATEST_LENGTH => Some(length),
        _ => None,
    }
}

/// The number that the element is, zeros before it too.
fn number_in(element: &[u8]) -> Option<u64>
    ensures { result ≡ number_of 10 element.now }
{
    let digits = without_zeros(element);
    if digits.is_empty() {
        Some(0)
    } else {
        decimal(digits)
    }
}

/// The bytes from the first that isn't a zero.
fn without_zeros(element: &[u8]) -> &[u8]
    ensures { result.now ≡ without_zeros element.now }
{
    let mut digits = element;
    while let [b'0', rest @ ..] = digits {
        digits = rest;
    }
    digits
}
