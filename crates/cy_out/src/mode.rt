//! How the content of an answer is sent, and what its head says of that.
ghost use Rattle.std.specs.Prelude.{◌≡◌, ◌≤◌, ◌&&◌, ◌||◌, not, length, codes, decimal};
ghost use Rattle.cy_event.specs.AnswerModes.{closes, content_mode, has_no_content, last_text, mode_of, shape_of};
ghost use Rattle.cy_out.specs.Told.{told_asked, told_mode};
ghost use Rattle.cy_respond.specs.Shapes.{told_shape};

use cy_respond::{Connection, Shape};

/// The request that is answered.
#[derive(Clone, Copy, Debug, PartialEq, Eq)]
pub struct Answer {
    /// Its version is HTTP/1.0 or HTTP/1.1; this is the digit behind the dot.
    pub minor: u8,
    /// Its method is HEAD, so the answer has no content.
    pub is_head: bool,
    /// Its connection may be kept.
    pub keep: bool,
}

/// How content is sent (RFC 9112, section 6).
#[derive(Clone, Copy, Debug, PartialEq, Eq)]
pub(crate) enum Mode {
    /// Not at all.
    Void,
    /// So many bytes as the head says.
    Counted,
    /// In chunks.
    Chunked,
    /// As it comes, until the connection closes.
    UntilClose,
}

impl Answer {
    /// How content is sent with this status, where its length is known or isn't.
    pub(crate) fn mode(&self, status: u16, length: Option<u64>) -> Mode
        ensures { told_mode result ≡ mode_of (told_asked self.now) status length }
    {
        if self.is_head || has_no_content(status) {
            return Mode::Void;
        }
        match length {
            Some(_) => Mode::Counted,
            None if self.minor == 1 => Mode::Chunked,
            None => Mode::UntilClose,
        }
    }

    /// Whether the connection closes behind an answer in this mode.
    pub(crate) fn closes(&self, mode: Mode) -> bool
        ensures { result ≡ closes (told_asked self.now) (told_mode mode) }
    {
        !self.keep || matches!(mode, Mode::UntilClose)
    }

    /// What a head of this status says. An answer to HEAD says of the content what one to GET would.
    pub(crate) fn shape(&self, status: u16, length: Option<u64>) -> Shape
        ensures { told_shape result ≡ shape_of (told_asked self.now) status length }
    {
        let connection = if self.closes(self.mode(status, length)) {
            Connection::Close
        } else if self.minor == 1 {
            Connection::Silent
        } else {
            Connection::KeepAlive
        };
        if has_no_content(status) {
            return Shape {
                length: None,
                chunked: false,
                connection,
            };
        }
        Shape {
            length,
            chunked: length.is_none() && self.minor == 1,
            connection,
        }
    }
}

/// Whether answers of this status have no content (RFC 9110, sections 15.3.5 and 15.4.5).
fn has_no_content(status: u16) -> bool
    ensures { result ≡ has_no_content status }
{
    matches!(status, 204 | 304)
}
