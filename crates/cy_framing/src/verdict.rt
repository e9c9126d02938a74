//! All that a head tells of its body and its connection.

ghost use Rattle.std.specs.Prelude.{◌≡◌, codes};
ghost use Rattle.cy_event.specs.Framings.{body_framing, framed, has_body};
ghost use Rattle.cy_framing.specs.Told.{shown};

use crate::codings::coding_framing;
use crate::connection::persists;
use crate::elements::has_field;
use crate::expectations::expected_by;
use crate::lengths::length_framing;
use crate::status::{BAD_REQUEST, EXPECTATION_FAILED};
use cy_event::{Framing, RequestHead};

/// What a head tells of its body and its connection.
#[derive(Clone, Copy, Debug, PartialEq, Eq)]
pub struct Framed {
    /// How the body is framed.
    pub body: Framing,
    /// Whether the connection is kept after the request: by HTTP/1.1 unless `close` is said, by HTTP/1.0 where
    /// `keep-alive` is said and `close` isn't.
    pub keep: bool,
    /// Whether `100 Continue` is due before the body comes: in HTTP/1.1, where it is expected and there is a body.
    pub go_on: bool,
}

/// How the request's body is framed, whether its connection is kept, and whether `100 Continue` is due. It takes no
/// memory.
///
/// # Errors
///
/// The status that refuses the request. 400 where the framing makes no sense: Content-Length and Transfer-Encoding
/// stand both or one of them without an element, lengths are no numbers or differ or are above 2^62, chunked isn't the last coding or stands twice, or
/// HTTP/1.0 has a coding. 501 where another coding stands before chunked. Else 417 where HTTP/1.1 expects anything
/// but `100-continue`.
pub fn framing(head: &RequestHead) -> Result<Framed, u16>
    ensures { shown result ≡ framed head.now.head.minor head.now.head.fields }
{
    let body = body_framing(head)?;
    let expected = expected_by(head);
    if expected.other {
        return Err(EXPECTATION_FAILED);
    }
    Ok(Framed {
        body,
        keep: persists(head),
        go_on: expected.go_on && has_body(body),
    })
}

/// How the body is framed (RFC 9112, section 6.3). A request with both fields is refused: where two servers on its way
/// read different ends of its body, the rest is taken for a request (section 11.2).
fn body_framing(head: &RequestHead) -> Result<Framing, u16>
    ensures { result ≡ body_framing head.now.head.minor head.now.head.fields }
{
    let has_length = has_field(head, b"Content-Length");
    if !has_field(head, b"Transfer-Encoding") {
        return if has_length {
            length_framing(head)
        } else {
            Ok(Framing::None)
        };
    }
    if has_length {
        return Err(BAD_REQUEST);
    }
    coding_framing(head)
}

/// Whether bytes of a body come.
fn has_body(body: Framing) -> bool
    ensures { result ≡ has_body body }
{
    match body {
        Framing::None => false,
        Framing::Length(length) => length > 0,
        Framing::Chunked => true,
    }
}
