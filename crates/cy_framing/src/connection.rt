//! Connection (RFC 9110, section 7.6.1), and whether the connection is kept (RFC 9112, section 9.3).

ghost use Rattle.std.specs.Prelude.{◌≡◌, ◌==◌, ◌&&◌, ◌||◌, not, codes};
ghost use Rattle.cy_event.specs.Heads.{values_of};
ghost use Rattle.cy_event.specs.Framings.{elements_of, persists};

use crate::elements::{Tally, is_word, take_elements};
use cy_event::RequestHead;

/// Which options there were.
#[derive(Clone, Copy, Debug, PartialEq, Eq)]
struct Options {
    close: bool,
    keep_alive: bool,
}

impl Tally for Options {
    ghost use Rattle.cy_framing.specs.Lists.{after_option};

    ghost after = { after_option };

    fn take(&mut self, element: &[u8]) {
        self.close = self.close || is_word(element, b"close");
        self.keep_alive = self.keep_alive || is_word(element, b"keep-alive");
    }
}

impl Options {
    /// Whether they keep a connection of HTTP/1.minor.
    fn keep(self, minor: u8) -> bool
        ensures { result ≡ (not self.close && (not (minor == 0) || self.keep_alive)) }
    {
        !self.close && (minor != 0 || self.keep_alive)
    }
}

/// Whether the connection is kept after the request: HTTP/1.1 unless `close` is said, and HTTP/1.0 where `keep-alive`
/// is said and `close` isn't.
pub fn persists(head: &RequestHead) -> bool
    ensures { result ≡ persists head.now.head.minor
        (elements_of (values_of (codes "Connection") head.now.head.fields)) }
{
    let mut options = Options {
        close: false,
        keep_alive: false,
    };
    take_elements(head, b"Connection", &mut options);
    options.keep(head.minor())
}
