//! A head that is read into its table.

ghost use Rattle.std.specs.Prelude.{◌≡◌, ◌≤◌, length, take};
ghost use Rattle.httparse.specs.Spans.{IsHeaderWithin, IsWithin};
ghost use Rattle.std.specs.List.{All};
ghost use Rattle.cy_event.specs.Heads.{head_of};
ghost use Rattle.cy_event.specs.declared.head.TheConstants.{HEAD_ROOM, FIELD_ROOM};
ghost use Rattle.cy_head.specs.Answers.{answer_to, filled_by, just_read, size_of_fields};
ghost use Rattle.cy_head.specs.HeadSpans.{fields_at, head_at};

use crate::spans::{FrontSpans, find_spans};
use cy_event::{FIELD_ROOM, Limits, RequestHead};
use httparse::spans::{EMPTY_HEADER_SPAN, HeaderSpan, RequestSpans};

/// What stands at the front of the bytes.
#[derive(Clone, Copy, Debug, PartialEq, Eq)]
pub enum Front {
    /// No whole head yet.
    Wait,
    /// A head of so many bytes, its empty line included.
    Head { length: usize },
    /// No head, and none to come.
    Bad,
}

/// Most heads have fewer fields than this, for which little room has to be made ready.
const FEW_FIELDS: usize = 32;

/// Reads the head at the front of the bytes (RFC 9112, sections 2, 3 and 5). It takes no memory.
///
/// The front is everything up to the first empty line behind a line that isn't empty; lines end at LF, and one CR
/// before it doesn't count. It is a head where it has at most `max_head` bytes and `max_fields` fields, `httparse`
/// reads the whole of it, and its Host is right: one in HTTP/1.1, at most one in HTTP/1.0. A whole front that is no
/// head is bad, and so are `max_head` bytes without a front.
///
/// After a head `into` has its method, its target, its version and its fields in their order, each value without the
/// blanks around it, and neither path nor query. Otherwise `into` stays as it is.
pub fn head_front(bytes: &[u8], limits: &Limits, into: &mut RequestHead) -> Front
    requires head_room { limits.now.max_head ≤ HEAD_ROOM }
    requires field_room { limits.now.max_fields ≤ FIELD_ROOM }
    ensures front { result ≡ answer_to (head_of limits.now.max_head limits.now.max_fields bytes.now) }
    ensures parts { into.new ≡ filled_by (head_of limits.now.max_head limits.now.max_fields bytes.now) into.old }
{
    let mut few = [EMPTY_HEADER_SPAN; FEW_FIELDS];
    let room = FEW_FIELDS.min(limits.max_fields as usize);
    match read_front(bytes, limits.max_head, &mut few[..room], into) {
        Front::Bad => {
            let mut spans = [EMPTY_HEADER_SPAN; FIELD_ROOM];
            let spans = &mut spans[..limits.max_fields as usize];
            read_front(bytes, limits.max_head, spans, into)
        }
        front => front,
    }
}

/// Reads the head at the front of the bytes, where it has no more fields than there are spans.
fn read_front(
    bytes: &[u8],
    max_head: u32,
    spans: &mut [HeaderSpan],
    into: &mut RequestHead,
) -> Front
    requires head_room { max_head ≤ HEAD_ROOM }
    requires field_room { length spans.old ≤ FIELD_ROOM }
    ensures front { result ≡ answer_to (head_of max_head (length spans.old) bytes.now) }
    ensures parts { into.new ≡ filled_by (head_of max_head (length spans.old) bytes.now) into.old }
{
    match find_spans(bytes, max_head, spans) {
        FrontSpans::Wait => Front::Wait,
        FrontSpans::Bad => Front::Bad,
        FrontSpans::Head(head) => {
            fill(&bytes[..head.len], &head, &spans[..head.headers], into);
            Front::Head { length: head.len }
        }
    }
}

/// Fills the table with the parts that the spans cover.
fn fill(front: &[u8], head: &RequestSpans, fields: &[HeaderSpan], into: &mut RequestHead)
    requires room { length front.now ≤ HEAD_ROOM }
    requires method { IsWithin (length front.now) head.now.method }
    requires path { IsWithin (length front.now) head.now.path }
    requires version { head.now.version ≤ 1 }
    requires fields { All (IsHeaderWithin (length front.now)) fields.now }
    requires few { length fields.now ≤ FIELD_ROOM }
    requires size { size_of_fields (fields_at front.now fields.now) ≤ HEAD_ROOM }
    ensures { into.new ≡ just_read (head_at front.now head.now fields.now) }
{
    into.clear();
    into.set_request_line(head.method.of(front), head.path.of(front), head.version);
    for field in fields {
        into.push_field(field.name.of(front), field.value.of(front));
    }
}
