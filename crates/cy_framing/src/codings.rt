//! Transfer-Encoding (RFC 9112, section 6.1).

ghost use Rattle.std.specs.Prelude.{◌≡◌, codes};
ghost use Rattle.cy_event.specs.Heads.{values_of};
ghost use Rattle.cy_event.specs.Framings.{coding_framing};
ghost use Rattle.cy_framing.specs.Lists.{codings_verdict};

use crate::elements::{Tally, is_word, take_elements};
use crate::status::{BAD_REQUEST, NOT_IMPLEMENTED};
use cy_event::{Framing, RequestHead};

/// How the codings end so far.
#[derive(Clone, Copy, Debug, PartialEq, Eq)]
enum Codings {
    /// There was none.
    Unknown,
    /// There were some, and none was chunked.
    Others,
    /// There was chunked alone.
    Chunked,
    /// Chunked came after others.
    ChunkedLast,
    /// Something came after chunked.
    Refused,
}

impl Tally for Codings {
    ghost use Rattle.cy_framing.specs.Lists.{after_coding};

    ghost after = { after_coding };

    fn take(&mut self, element: &[u8]) {
        let chunked = is_word(element, b"chunked");
        *self = match (*self, chunked) {
            (Codings::Unknown, true) => Codings::Chunked,
            (Codings::Others, true) => Codings::ChunkedLast,
            (Codings::Unknown | Codings::Others, false) => Codings::Others,
            _ => Codings::Refused,
        };
    }
}

impl Codings {
    /// The framing that they tell.
    fn framing(self) -> Result<Framing, u16>
        ensures { result ≡ codings_verdict self }
    {
        match self {
            Codings::Chunked => Ok(Framing::Chunked),
            Codings::ChunkedLast => Err(NOT_IMPLEMENTED),
            Codings::Unknown | Codings::Others | Codings::Refused => Err(BAD_REQUEST),
        }
    }
}

/// The framing by Transfer-Encoding alone.
///
/// # Errors
///
/// 400 in HTTP/1.0, which has no codings. 501 where chunked is the last coding and others stand before it, and 400 where
/// it isn't the last, or isn't there, or stands twice.
pub fn coding_framing(head: &RequestHead) -> Result<Framing, u16>
    ensures { result ≡ coding_framing head.now.head.minor
        (values_of (codes "Transfer-Encoding") head.now.head.fields) }
{
    if head.minor() == 0 {
        return Err(BAD_REQUEST);
    }
    let mut codings = Codings::Unknown;
    take_elements(head, b"Transfer-Encoding", &mut codings);
    codings.framing()
}
