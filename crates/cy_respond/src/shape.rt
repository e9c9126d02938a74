//! What a head says of the content and of the connection.
ghost use Rattle.std.specs.Prelude.{◌≡◌, ◌≤◌, length};
ghost use Rattle.cy_event.specs.Answers.{connection_line};
ghost use Rattle.cy_respond.specs.Shapes.{told};

/// What a head says of the connection (RFC 9112, section 9.3).
#[derive(Clone, Copy, Debug, PartialEq, Eq)]
pub enum Connection {
    /// Nothing: the version's own rule holds.
    Silent,
    /// It closes behind this answer.
    Close,
    /// It stays.
    KeepAlive,
}

impl Connection {
    /// The field that says it, with its line end, or nothing.
    pub(crate) fn line(self) -> &'static [u8]
        ensures text { result.now ≡ connection_line (told self) }
        ensures short { length result.now ≤ 24 }
    {
        match self {
            Connection::Silent => b"",
            Connection::Close => b"Connection: close\r\n",
            Connection::KeepAlive => b"Connection: keep-alive\r\n",
        }
    }
}

/// What a head says of the content and of the connection (RFC 9112, section 6).
#[derive(Clone, Copy, Debug, PartialEq, Eq)]
pub struct Shape {
    /// The length of the content in bytes, where the head says it.
    pub length: Option<u64>,
    /// The content comes in chunks.
    pub chunked: bool,
    pub connection: Connection,
}
