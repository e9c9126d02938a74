//! How a body is framed.

/// How the body of a request is framed (RFC 9112, section 6).
#[derive(Clone, Copy, Debug, PartialEq, Eq)]
pub enum Framing {
    /// There is no body.
    None,
    /// The body has so many bytes, at most 2^62.
    Length(u64),
    /// The body comes in chunks.
    Chunked,
}
