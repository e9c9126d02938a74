//! The head of a request, kept in room that is made once.

ghost use Rattle.std.specs.Prelude.{◌≡◌, ◌+◌, ◌<◌, ◌≤◌, [], ◌++◌, length, option_map, slice_get, vec_len, vec_capacity, IfOk, Some};
ghost use Rattle.cy_event.specs.RequestHeads.{no_request, with_last_field, with_request_line};

use crate::limits::Limits;
use crate::no_memory::NoMemory;
use std::alloc::Global;
use std::marker::Model;

/// How many bytes each byte field of a head has room for. No limit of a head is greater.
pub const HEAD_ROOM: usize = 8192;

/// How many fields a head has room for. No limit of fields is greater.
pub const FIELD_ROOM: usize = 100;

/// Where a field stands in a head's `field_bytes`: its name from `start` to `middle`, its value from `middle` to `end`.
#[derive(Clone, Copy, Debug, PartialEq, Eq)]
pub struct FieldSpan {
    pub start: u32,
    pub middle: u32,
    pub end: u32,
}

/// The head of a request (RFC 9112, sections 3 and 5), and the path and the query of its target (RFC 3986, sections
/// 3.3 and 3.4). It keeps its room, whatever is read into it: `HEAD_ROOM` bytes in each byte field, and `FIELD_ROOM`
/// spans. So filling it takes no memory.
#[derive(Debug, Drop)]
pub struct RequestHead {
    pub method_bytes: Vec<u8>,
    /// The target as it was sent.
    pub target_bytes: Vec<u8>,
    /// The decoded path.
    pub path_bytes: Vec<u8>,
    /// The query as it was sent, and empty where there is none.
    pub query_bytes: Vec<u8>,
    pub has_query: bool,
    /// The version is HTTP/1.0 or HTTP/1.1; this is the digit behind the dot.
    pub version: u8,
    /// The names and the values of the fields, where the spans find them.
    pub field_bytes: Vec<u8>,
    pub spans: Vec<FieldSpan>,
}

impl Model for RequestHead {
    ghost use Rattle.cy_event.specs.RequestHeads.{RequestParts};

    ghost Value = { RequestParts };

    ghost use Rattle.cy_event.specs.HeadRoom.{parts_of, KeepsRoom};

    ghost view = { parts_of };

    ghost invariant = { KeepsRoom };
}

impl RequestHead {
    /// An empty head, with room for any head within limits: whatever they are, the room is that of the greatest.
    ///
    /// # Errors
    ///
    /// `NoMemory` where memory ran out.
    pub fn new(alloc: Global, _limits: &Limits) -> Result<RequestHead, NoMemory>
        ensures { IfOk result (λ head. head ≡ no_request) }
    {
        Ok(RequestHead {
            method_bytes: Vec::with_capacity(alloc, HEAD_ROOM)?,
            target_bytes: Vec::with_capacity(alloc, HEAD_ROOM)?,
            path_bytes: Vec::with_capacity(alloc, HEAD_ROOM)?,
            query_bytes: Vec::with_capacity(alloc, HEAD_ROOM)?,
            has_query: false,
            version: 0,
            field_bytes: Vec::with_capacity(alloc, HEAD_ROOM)?,
            spans: Vec::with_capacity(alloc, FIELD_ROOM)?,
        })
    }

    /// The method, as `GET`.
    pub fn method(&self) -> &[u8]
        ensures { result.now ≡ self.now.head.method }
    {
        self.method_bytes.as_slice()
    }

    /// The target as it was sent.
    pub fn target(&self) -> &[u8]
        ensures { result.now ≡ self.now.head.target }
    {
        self.target_bytes.as_slice()
    }

    /// The decoded path.
    pub fn path(&self) -> &[u8]
        ensures { result.now ≡ self.now.path }
    {
        self.path_bytes.as_slice()
    }

    /// The query as it was sent, if there is one.
    pub fn query(&self) -> Option<&[u8]>
        ensures { option_map (λ q. q.now) result ≡ self.now.query }
    {
        if self.has_query {
            Some(self.query_bytes.as_slice())
        } else {
            None
        }
    }

    /// 1 for HTTP/1.1, and 0 for HTTP/1.0.
    pub fn minor(&self) -> u8
        ensures value { result ≡ self.now.head.minor }
        ensures known { result ≤ 1 }
    {
        self.version
    }

    /// How many fields there are.
    pub fn field_count(&self) -> usize
        ensures count { result ≡ length self.now.head.fields }
        ensures few { result ≤ FIELD_ROOM }
    {
        self.spans.len()
    }

    /// The name and the value of a field, of which the first has the number 0.
    pub fn field(&self, i: usize) -> (&[u8], &[u8])
        requires { i < length self.now.head.fields }
        ensures { slice_get self.now.head.fields i ≡ Some (record { name = result.0.now; value = result.1.now }) }
    {
        let span = self.spans[i];
        let bytes = self.field_bytes.as_slice();
        (
            &bytes[span.start as usize..span.middle as usize],
            &bytes[span.middle as usize..span.end as usize],
        )
    }

    /// Empties the head.
    pub fn clear(&mut self)
        ensures { self.new ≡ no_request }
    {
        self.method_bytes.clear();
        self.target_bytes.clear();
        self.path_bytes.clear();
        self.query_bytes.clear();
        self.has_query = false;
        self.version = 0;
        self.spans.clear();
        self.field_bytes.clear();
    }

    /// Sets what the first line has (RFC 9112, section 3), and leaves all else.
    pub fn set_request_line(&mut self, method: &[u8], target: &[u8], minor: u8)
        requires method { length method.now ≤ HEAD_ROOM }
        requires target { length target.now ≤ HEAD_ROOM }
        requires minor { minor ≤ 1 }
        ensures { self.new ≡ with_request_line method.now target.now minor self.old }
    {
        self.method_bytes.clear();
        extend_in_room(&mut self.method_bytes, method);
        self.target_bytes.clear();
        extend_in_room(&mut self.target_bytes, target);
        self.version = minor;
    }

    /// Adds a field at the end, and leaves all else.
    pub fn push_field(&mut self, name: &[u8], value: &[u8])
        requires few { length self.old.head.fields < FIELD_ROOM }
        requires room { self.old.field_size + length name.now + length value.now ≤ HEAD_ROOM }
        ensures { self.new ≡ with_last_field (record { name = name.now; value = value.now }) self.old }
    {
        let start = self.field_bytes.len();
        let middle = start + name.len();
        let end = middle + value.len();
        extend_in_room(&mut self.field_bytes, name);
        extend_in_room(&mut self.field_bytes, value);
        self.spans.push_reserved(FieldSpan {
            start: start as u32,
            middle: middle as u32,
            end: end as u32,
        });
    }
}

/// Puts the bytes at the end of a vector that has room for them, without taking memory.
pub fn extend_in_room(to: &mut Vec<u8>, bytes: &[u8])
    requires { vec_len to.old + length bytes.now ≤ vec_capacity to.old }
    ensures items { to.new.items ≡ to.old.items ++ bytes.now }
    ensures room { vec_capacity to.old ≤ vec_capacity to.new }
{
    match to.extend_from_slice(bytes) {
        Ok(()) => {}
        Err(_) => unreachable!(),
    }
}

#[cfg(test)]
mod tests;
