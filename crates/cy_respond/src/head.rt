//! The status and the fields of an answer, kept in room that is made once.
ghost use Rattle.std.specs.Prelude.{◌≡◌, ℕ, ◌+◌, ◌*◌, ◌<◌, ◌≤◌, ◌++◌, length, decimal, true, vec_len, vec_capacity, IfOk};
ghost use Rattle.std.specs.List.{flat_map, list_all};
ghost use Rattle.cy_event.specs.Answers.{connection_line, content_length, field_line, fresh_answer};
ghost use Rattle.cy_event.specs.AnswerModes.{chunked_line, framing_lines, head_of_shape, length_line};
ghost use Rattle.cy_event.specs.declared.limits.TheConstants.{GREATEST_MOMENT};
ghost use Rattle.cy_rings.specs.declared.kit.TheConstants.{OUT_CAPACITY};
ghost use Rattle.cy_respond.specs.Shapes.{told, told_shape};
ghost use Rattle.cy_respond.specs.HeadParts.{end_lines, start_lines};

use crate::date::date_of;
use crate::fields::may_stand;
use crate::shape::{Connection, Shape};
use cy_event::{NoMemory, Reply};
use cy_rings::ConnKit;
use itoa::Buffer;
use std::alloc::Global;
use std::marker::Model;

/// The least status of an answer (RFC 9110, section 15).
const LEAST_STATUS: u16 = 200;

/// The greatest status of an answer.
const GREATEST_STATUS: u16 = 599;

/// How many fields a component may give an answer.
pub const FIELD_LIMIT: usize = 100;

/// How many bytes the names and the values of these fields may have together.
pub const FIELD_SIZE_LIMIT: usize = 7000;

/// What a line has beside its name and its value: a colon, a space, CR and LF.
const LINE_EXTRA: usize = 4;

/// Room for the lines of all fields.
const LINE_ROOM: usize = 7400;

/// What the first line of a head has beside the status: the version, two spaces and a line end.
const START_LEN: usize = 12;

/// What the end of a head has beside what it says of the connection: the Date field and an empty line.
const END_LEN: usize = 39;

/// The field that says that content comes in chunks.
const CHUNKED_LINE: &[u8] = b"Transfer-Encoding: chunked\r\n";

/// The bytes of a head at most, with both fields that frame content.
pub const ANSWER_HEAD_ROOM: usize = 7544;

/// Where the line of a field stands: its name from `start` to `colon`, its value from two bytes behind to `end`.
#[derive(Clone, Copy, Debug, PartialEq, Eq)]
struct FieldPlace {
    start: usize,
    colon: usize,
    end: usize,
}

/// The status and the fields that a component gave an answer. Contracts see the answer without its content. The lines
/// of the fields are kept as they will be written, in room that is taken when the value is made.
#[derive(Debug, Drop)]
pub struct RespHead {
    status: u16,
    lines: Vec<u8>,
    places: Vec<FieldPlace>,
}

impl Model for RespHead {
    ghost use Rattle.cy_event.specs.Answers.{Answer};

    ghost Value = { Answer };

    ghost use Rattle.cy_respond.specs.FieldLines.{answer_of, KeepsFields};

    ghost view = { answer_of };

    ghost invariant = { KeepsFields };
}

impl RespHead {
    ghost use Rattle.cy_respond.specs.Fields.{after_field, after_status, field_reply, field_size, may_stand, status_reply, with_field};

    /// Status 200, and no field.
    ///
    /// # Errors
    ///
    /// `NoMemory` where memory ran out.
    pub fn new(alloc: Global) -> Result<RespHead, NoMemory>
        ensures { IfOk result (λ head. head ≡ fresh_answer) }
    {
        Ok(RespHead {
            status: LEAST_STATUS,
            lines: Vec::with_capacity(alloc, LINE_ROOM)?,
            places: Vec::with_capacity(alloc, FIELD_LIMIT)?,
        })
    }

    /// Sets the status. `BadValue` where it is outside 200 to 599; then all stays.
    pub fn set_status(&mut self, status: u16) -> Reply
        ensures reply { result ≡ status_reply status }
        ensures after { self.new ≡ after_status status self.old }
    {
        if !(LEAST_STATUS..=GREATEST_STATUS).contains(&status) {
            return Reply::BadValue;
        }
        self.status = status;
        Reply::Done
    }

    /// The status.
    pub fn status(&self) -> u16
        ensures { result ≡ self.now.status }
    {
        self.status
    }

    /// Adds a field behind the others. `BadValue` where its name is no token or one that the connector writes itself,
    /// or where its value has CR, LF or NUL; else `TooMany` with the limit of fields or of their bytes that it would
    /// pass. Then all stays.
    pub fn add_header(&mut self, name: &[u8], value: &[u8]) -> Reply
        ensures reply { result ≡ field_reply (record { name = name.now; value = value.now }) self.old }
        ensures after { self.new ≡ after_field (record { name = name.now; value = value.now }) self.old }
    {
        if !may_stand(name, value) {
            return Reply::BadValue;
        }
        if self.field_count() >= FIELD_LIMIT {
            return Reply::TooMany(FIELD_LIMIT as u64);
        }
        let room = FIELD_SIZE_LIMIT - self.field_size();
        if name.len() > room || value.len() > room - name.len() {
            return Reply::TooMany(FIELD_SIZE_LIMIT as u64);
        }
        self.push_field(name, value);
        Reply::Done
    }

    /// How many fields there are.
    fn field_count(&self) -> usize
        ensures { result ≡ length self.now.fields }
    {
        self.places.len()
    }

    /// How many bytes the names and the values have together.
    fn field_size(&self) -> usize
        ensures size { result ≡ field_size self.now.fields }
        ensures within { result ≤ FIELD_SIZE_LIMIT }
    {
        self.lines.len() - LINE_EXTRA * self.places.len()
    }

    /// Adds a field that may stand, and for which there is room.
    fn push_field(&mut self, name: &[u8], value: &[u8])
        requires fits { may_stand (record { name = name.now; value = value.now }) ≡ true }
        requires few { length self.old.fields < FIELD_LIMIT }
        requires short { field_size self.old.fields + (length name.now + length value.now) ≤ FIELD_SIZE_LIMIT }
        ensures { self.new ≡ with_field (record { name = name.now; value = value.now }) self.old }
    {
        let start = self.lines.len();
        let colon = start + name.len();
        let end = colon + 2 + value.len();
        push_line(&mut self.lines, name, value);
        self.places.push_reserved(FieldPlace { start, colon, end });
    }

    /// Status 200 and no field again.
    pub fn reset(&mut self)
        ensures { self.new ≡ fresh_answer }
    {
        self.status = LEAST_STATUS;
        self.lines.clear();
        self.places.clear();
    }

    /// How many bytes `write_head` puts for this shape, at any moment.
    pub fn head_len(&self, shape: &Shape) -> usize
        ensures exact { (at : ℕ) → length (head_of_shape self.now (told_shape shape.now) at) ≡ result }
        ensures within { result ≤ ANSWER_HEAD_ROOM }
    {
        let mut digits = Buffer::new();
        START_LEN
            + END_LEN
            + digits.format(self.status).len()
            + self.lines.len()
            + framing_len(shape)
            + shape.connection.line().len()
    }

    /// Writes the head (RFC 9112, sections 4 and 5) into the out ring, in which `head_len` bytes must be free. `at` is
    /// the moment of its Date, in milliseconds since 1970-01-01 00:00 UTC.
    pub fn write_head(&self, shape: &Shape, at: u64, kit: &mut ConnKit)
        requires moment { at ≤ GREATEST_MOMENT }
        requires room { length kit.old.output + length (head_of_shape self.now (told_shape shape.now) at) ≤ OUT_CAPACITY }
        ensures head { kit.new ≡ record kit.old { output = kit.old.output ++ head_of_shape self.now (told_shape shape.now) at } }
        // so no component can end a head before its end
        ensures fields { list_all may_stand self.now.fields ≡ true }
    {
        self.put_start(kit);
        put_framing(shape, kit);
        put_end(shape.connection, at, kit);
    }

    /// Writes the first line and the component's fields.
    fn put_start(&self, kit: &mut ConnKit)
        requires { length kit.old.output + (START_LEN + length (decimal self.now.status) + length (flat_map field_line self.now.fields)) ≤ OUT_CAPACITY }
        ensures output { kit.new ≡ record kit.old { output = kit.old.output ++ start_lines self.now } }
        ensures len { length kit.new.output ≡ length kit.old.output + (START_LEN + length (decimal self.now.status) + length (flat_map field_line self.now.fields)) }
        ensures fields { list_all may_stand self.now.fields ≡ true }
    {
        let mut digits = Buffer::new();
        put(kit, b"HTTP/1.1 ");
        put(kit, digits.format(self.status).as_bytes());
        put(kit, b" \r\n");
        put(kit, self.lines.as_slice());
    }
}

/// Writes the Date, what is said of the connection, and the empty line.
fn put_end(connection: Connection, at: u64, kit: &mut ConnKit)
    requires moment { at ≤ GREATEST_MOMENT }
    requires room { length kit.old.output + (END_LEN + length (connection_line (told connection))) ≤ OUT_CAPACITY }
    ensures { kit.new ≡ record kit.old { output = kit.old.output ++ end_lines at (told connection) } }
{
    put(kit, b"Date: ");
    put(kit, &date_of(at));
    put(kit, b"\r\n");
    put(kit, connection.line());
    put(kit, b"\r\n");
}

/// Appends the line of a field, for which there is room.
fn push_line(lines: &mut Vec<u8>, name: &[u8], value: &[u8])
    requires { vec_len lines.old + (length name.now + length value.now + LINE_EXTRA) ≤ vec_capacity lines.old }
    ensures line { lines.new.items ≡ lines.old.items ++ field_line (record { name = name.now; value = value.now }) }
    ensures len { vec_len lines.new ≡ vec_len lines.old + (length name.now + length value.now + LINE_EXTRA) }
    ensures room { vec_capacity lines.old ≤ vec_capacity lines.new }
{
    append(lines, name);
    append(lines, b": ");
    append(lines, value);
    append(lines, b"\r\n");
}

/// Appends bytes for which there is room.
fn append(lines: &mut Vec<u8>, bytes: &[u8])
    requires { vec_len lines.old + length bytes.now ≤ vec_capacity lines.old }
    ensures items { lines.new.items ≡ lines.old.items ++ bytes.now }
    ensures len { vec_len lines.new ≡ vec_len lines.old + length bytes.now }
    ensures room { vec_capacity lines.old ≤ vec_capacity lines.new }
{
    lines.extend_from_slice(bytes).unwrap();
}

/// How many bytes the fields have that frame the content.
fn framing_len(shape: &Shape) -> usize
    ensures exact { result ≡ length (framing_lines shape.now.length shape.now.chunked) }
    ensures within { result ≤ 66 }
{
    let of_length = match shape.length {
        Some(n) => length_len(n),
        None => 0,
    };
    let of_chunks = if shape.chunked { CHUNKED_LINE.len() } else { 0 };
    of_length + of_chunks
}

/// How many bytes the field has that says a length.
fn length_len(n: u64) -> usize
    ensures exact { result ≡ length (content_length n) }
    ensures within { result ≤ 38 }
{
    let mut digits = Buffer::new();
    18 + digits.format(n).len()
}

/// Writes the fields that frame the content.
fn put_framing(shape: &Shape, kit: &mut ConnKit)
    requires { length kit.old.output + length (framing_lines shape.now.length shape.now.chunked) ≤ OUT_CAPACITY }
    ensures output { kit.new ≡ record kit.old { output = kit.old.output ++ framing_lines shape.now.length shape.now.chunked } }
    ensures len { length kit.new.output ≡ length kit.old.output + length (framing_lines shape.now.length shape.now.chunked) }
{
    put_length(shape.length, kit);
    put_chunked(shape.chunked, kit);
}

/// Writes the field that says that content comes in chunks, where it does.
fn put_chunked(told: bool, kit: &mut ConnKit)
    requires { length kit.old.output + length (chunked_line told) ≤ OUT_CAPACITY }
    ensures output { kit.new ≡ record kit.old { output = kit.old.output ++ chunked_line told } }
    ensures len { length kit.new.output ≡ length kit.old.output + length (chunked_line told) }
{
    if told {
        put(kit, CHUNKED_LINE);
    }
}

/// Writes the field that says the length, where there is one.
fn put_length(told: Option<u64>, kit: &mut ConnKit)
    requires { length kit.old.output + length (length_line told) ≤ OUT_CAPACITY }
    ensures output { kit.new ≡ record kit.old { output = kit.old.output ++ length_line told } }
    ensures len { length kit.new.output ≡ length kit.old.output + length (length_line told) }
{
    if let Some(n) = told {
        let mut digits = Buffer::new();
        put(kit, b"Content-Length: ");
        put(kit, digits.format(n).as_bytes());
        put(kit, b"\r\n");
    }
}

/// Puts bytes for which there is room, and tells how many wait then.
fn put(kit: &mut ConnKit, bytes: &[u8])
    requires { length kit.old.output + length bytes.now ≤ OUT_CAPACITY }
    ensures output { kit.new ≡ record kit.old { output = kit.old.output ++ bytes.now } }
    ensures len { length kit.new.output ≡ length kit.old.output + length bytes.now }
{
    kit.put_out(bytes);
}
