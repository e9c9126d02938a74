//! Expect (RFC 9110, section 10.1.1).

ghost use Rattle.std.specs.Prelude.{◌≡◌, ◌==◌, ◌&&◌, ◌||◌, not, codes};
ghost use Rattle.std.specs.List.{list_all, list_any};
ghost use Rattle.cy_event.specs.Heads.{values_of};
ghost use Rattle.cy_event.specs.Framings.{elements_of, is_continue};

use crate::elements::{Tally, is_word, take_elements};
use cy_event::RequestHead;

/// What a request expects.
#[derive(Clone, Copy, Debug, PartialEq, Eq)]
pub struct Expected {
    /// `100-continue`.
    pub go_on: bool,
    /// Anything else.
    pub other: bool,
}

impl Tally for Expected {
    ghost use Rattle.cy_framing.specs.Lists.{after_expectation};

    ghost after = { after_expectation };

    fn take(&mut self, element: &[u8]) {
        if is_word(element, b"100-continue") {
            self.go_on = true;
        } else {
            self.other = true;
        }
    }
}

/// What the request expects; in HTTP/1.0 the field is ignored.
pub fn expected_by(head: &RequestHead) -> Expected
    ensures go_on { result.go_on ≡ (not (head.now.head.minor == 0)
        && list_any is_continue (elements_of (values_of (codes "Expect") head.now.head.fields))) }
    ensures other { not result.other ≡ (head.now.head.minor == 0
        || list_all is_continue (elements_of (values_of (codes "Expect") head.now.head.fields))) }
{
    let mut expected = Expected {
        go_on: false,
        other: false,
    };
    if head.minor() != 0 {
        take_elements(head, b"Expect", &mut expected);
    }
    expected
}
