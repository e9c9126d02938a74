//! Where the parts of a head are.

ghost use Rattle.std.specs.Prelude.{◌≡◌, ◌≤◌, [], length, IfNone, IfSome};
ghost use Rattle.httparse.specs.Grammar.{RequestHead, ReadsRequest};
ghost use Rattle.httparse.specs.Spans.{IsRequestAt, IsRequestWithin};
ghost use Rattle.cy_event.specs.Heads.{head_of};
ghost use Rattle.cy_head.specs.Answers.{Locates, AreSpansWithin};
ghost use Rattle.cy_head.specs.HeadSpans.{HasWhole};

use crate::due::front_of;
use crate::hosts::has_right_host;
use httparse::Status;
use httparse::spans::{HeaderSpan, RequestSpans, parse_request};

/// What stands at the front of the bytes.
#[derive(Clone, Copy, Debug, PartialEq, Eq)]
pub enum FrontSpans {
    /// No whole head yet.
    Wait,
    /// A head of `len` bytes; its spans count from the first byte.
    Head(RequestSpans),
    /// No head, and none to come.
    Bad,
}

/// Finds the head at the front of the bytes, of at most so many bytes and as many fields as there are spans. The
/// spans of its fields stand first; what stands in the others isn't told.
pub fn find_spans(bytes: &[u8], max_head: u32, spans: &mut [HeaderSpan]) -> FrontSpans
    ensures found { Locates (head_of max_head (length spans.old) bytes.now) bytes.now spans.new result }
    ensures within { AreSpansWithin bytes.now spans.new result }
{
    let Some(length) = front_of(bytes) else {
        return if bytes.len() < max_head as usize {
            FrontSpans::Wait
        } else {
            FrontSpans::Bad
        };
    };
    if length > max_head as usize {
        return FrontSpans::Bad;
    }
    let front = &bytes[..length];
    let Some(head) = whole_request(front, spans) else {
        return FrontSpans::Bad;
    };
    if has_right_host(front, head.version, &spans[..head.headers]) {
        FrontSpans::Head(head)
    } else {
        FrontSpans::Bad
    }
}

/// Where the parts of the head are that the whole front is, if it is one and has no more fields than spans.
fn whole_request(front: &[u8], spans: &mut [HeaderSpan]) -> Option<RequestSpans>
    ensures whole { IfSome result (λ r. r.len ≡ length front.now) }
    ensures within { IfSome result (IsRequestWithin front.now spans.new) }
    ensures some { IfSome result (λ r. (h : RequestHead) × ReadsRequest front.now h [] × (length h.fields ≤ length spans.old) × IsRequestAt front.now spans.new r h) }
    ensures none { IfNone result (HasWhole front.now (length spans.old) → ⊥) }
{
    match parse_request(front, spans) {
        Ok(Status::Complete(head)) if head.len == front.len() => Some(head),
        _ => None,
    }
}
