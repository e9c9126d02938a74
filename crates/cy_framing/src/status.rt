//! The statuses that refuse a request (RFC 9110, section 15).

/// The framing makes no sense.
pub const BAD_REQUEST: u16 = 400;

/// The request expects what no server here does.
pub const EXPECTATION_FAILED: u16 = 417;

/// The body has a coding that isn't known.
pub const NOT_IMPLEMENTED: u16 = 501;
