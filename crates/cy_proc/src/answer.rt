//! The bytes of an answer, written to the out ring.
ghost use Rattle.std.specs.Prelude.{◌≡◌, ◌+◌, ◌≤◌, ◌++◌, length};
ghost use Rattle.cy_event.specs.Answers.{after_put, answer_text, connection_line, continue_text, fresh_answer};
ghost use Rattle.cy_model.specs.Outputs.{begin_text};
ghost use Rattle.cy_event.specs.declared.limits.TheConstants.{GREATEST_MOMENT};
ghost use Rattle.cy_rings.specs.declared.kit.TheConstants.{OUT_CAPACITY};
ghost use Rattle.cy_proc.specs.AnswerBytes.{error_bytes, head_bytes, said};
ghost use Rattle.cy_proc.specs.declared.answer.TheConstants.{PLAIN_HEAD_ROOM, ERROR_ROOM};

use cy_respond::date_of;
use cy_rings::ConnKit;
use itoa::Buffer;

/// What an answer says of its connection (RFC 9112, section 9.3).
#[derive(Clone, Copy, Debug, PartialEq, Eq)]
pub enum Connection {
    /// Nothing: it stays open by the rule of its version.
    Silent,
    /// It closes after this answer.
    Close,
    /// It stays open, though that isn't the rule of HTTP/1.0.
    KeepAlive,
}

impl Connection {
    /// The field line that says so.
    fn line(self) -> &'static [u8]
        ensures line { result.now ≡ connection_line (said self) }
        ensures short { length result.now ≤ 24 }
    {
        match self {
            Connection::Silent => b"",
            Connection::Close => b"Connection: close\r\n",
            Connection::KeepAlive => b"Connection: keep-alive\r\n",
        }
    }
}

/// The bytes of the head of an answer in one piece at most.
pub const PLAIN_HEAD_ROOM: usize = 144;

/// The bytes of an error answer at most.
pub const ERROR_ROOM: usize = PLAIN_HEAD_ROOM + 12;

/// The field line of an error answer.
const ERROR_FIELDS: &[u8] = b"Content-Type: text/plain\r\n";

/// Puts `100 Continue` where it is due as a request begins (RFC 9110, section 15.2.1).
pub fn put_begin(kit: &mut ConnKit, go_on: bool)
    requires { length kit.old.output + length continue_text ≤ OUT_CAPACITY }
    ensures output { kit.new.output ≡ kit.old.output ++ begin_text go_on }
    ensures input { kit.new.input ≡ kit.old.input }
{
    if go_on {
        put(kit, b"HTTP/1.1 100 \r\n\r\n");
    }
}

/// Puts the answer of status 200 with this content.
pub fn put_answer(kit: &mut ConnKit, content: &[u8], at: u64, connection: Connection)
    requires moment { at ≤ GREATEST_MOMENT }
    requires room { length kit.old.output + PLAIN_HEAD_ROOM + length content.now ≤ OUT_CAPACITY }
    ensures output { kit.new.output ≡ kit.old.output ++ answer_text (after_put content.now fresh_answer) at (said connection) }
    ensures input { kit.new.input ≡ kit.old.input }
{
    put_head(kit, 200, b"", content.len(), at, connection);
    kit.put_out(content);
}

/// Puts the answer that tells of an error, without its content where that is left out.
pub fn put_error(
    kit: &mut ConnKit,
    status: u16,
    with_content: bool,
    at: u64,
    connection: Connection,
)
    requires moment { at ≤ GREATEST_MOMENT }
    requires room { length kit.old.output + ERROR_ROOM ≤ OUT_CAPACITY }
    ensures output { kit.new.output ≡ kit.old.output ++ error_bytes status with_content at connection }
    ensures input { kit.new.input ≡ kit.old.input }
{
    let mut digits = Buffer::new();
    let number = digits.format(status).as_bytes();
    let size = b"Error ".len() + number.len() + b"\n".len();
    put_head(kit, status, ERROR_FIELDS, size, at, connection);
    if with_content {
        put(kit, b"Error ");
        put(kit, number);
        put(kit, b"\n");
    }
}

/// Puts a head with these lines of fields, for content of this length.
fn put_head(
    kit: &mut ConnKit,
    status: u16,
    fields: &[u8],
    size: usize,
    at: u64,
    connection: Connection,
)
    requires moment { at ≤ GREATEST_MOMENT }
    requires fields { length fields.now ≤ 26 }
    requires room { length kit.old.output + PLAIN_HEAD_ROOM ≤ OUT_CAPACITY }
    ensures head { kit.new.output ≡ kit.old.output ++ head_bytes status fields.now size at connection }
    ensures input { kit.new.input ≡ kit.old.input }
    ensures short { length kit.new.output ≤ length kit.old.output + PLAIN_HEAD_ROOM }
{
    let mut digits = Buffer::new();
    put(kit, b"HTTP/1.1 ");
    put(kit, digits.format(status).as_bytes());
    put(kit, b" \r\n");
    put(kit, fields);
    put(kit, b"Content-Length: ");
    put(kit, digits.format(size).as_bytes());
    put(kit, b"\r\nDate: ");
    put(kit, &date_of(at));
    put(kit, b"\r\n");
    put(kit, connection.line());
    put(kit, b"\r\n");
}

/// Puts bytes for which there is room.
fn put(kit: &mut ConnKit, bytes: &[u8])
    requires { length kit.old.output + length bytes.now ≤ OUT_CAPACITY }
    ensures output { kit.new.output ≡ kit.old.output ++ bytes.now }
    ensures input { kit.new.input ≡ kit.old.input }
    ensures size { length kit.new.output ≡ length kit.old.output + length bytes.now }
{
    kit.put_out(bytes);
}
