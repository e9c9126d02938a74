//! How far a body came, byte by byte.

/// The greatest size of a chunk.
pub const GREATEST_CHUNK: u64 = 1 << 62;

/// The most digits of a chunk's size.
pub const MOST_DIGITS: u8 = 16;

/// The most bytes of the line before a chunk, with its CR LF.
pub const GREATEST_LINE: u16 = 1024;

/// What may come next in a body (RFC 9112, sections 6 and 7.1).
#[derive(Clone, Copy, Debug, PartialEq, Eq)]
pub enum BodyStage {
    /// The body is whole, and nothing more belongs to it.
    Whole,
    /// So many bytes of a body that has a length, 1 or more.
    Counted(u64),
    /// The first digit of a chunk's size.
    SizeDue,
    /// Behind so many digits of a size: another, or what ends the size.
    InSize { digits: u8, size: u64 },
    /// Behind a blank after a size: another, or a semicolon. So many bytes of the line came.
    InBlanks { line: u16, size: u64 },
    /// Inside the extension of a chunk's line, of which so many bytes came.
    InExtension { line: u16, size: u64 },
    /// The LF of a chunk's line.
    LineEnds { size: u64 },
    /// So many bytes of a chunk, 1 or more.
    InChunk(u64),
    /// The CR behind a chunk.
    ChunkEnds,
    /// The LF behind a chunk.
    ChunkEnded,
    /// The first byte of a trailer's name, or the CR of the last line. So many bytes of trailers came.
    FieldDue { trailers: u32 },
    /// Inside a trailer's name: another byte of it, or the colon.
    InName { trailers: u32 },
    /// Behind a trailer's colon: a byte of its value, or the CR of its line.
    InValue { trailers: u32 },
    /// The LF of a trailer's line.
    FieldEnds { trailers: u32 },
    /// The LF of the last line.
    LastEnds,
    /// A byte came that no body has there.
    Malformed,
    /// A byte came that only a body with longer trailers has there.
    TooLong,
}

/// A place in a body.
#[derive(Clone, Copy, Debug, PartialEq, Eq)]
pub struct BodyMark {
    /// How many bytes of the body stand before it.
    pub raw: u64,
    /// How many of them are content.
    pub content: u64,
    /// What may come next.
    pub stage: BodyStage,
}
