//! Which fields a component may give an answer.
ghost use Rattle.std.specs.Prelude.{◌≡◌};
ghost use Rattle.cy_respond.specs.Fields.{is_free_name, is_one_line, is_reserved, may_stand};

use cy_bytes::is_token;

/// Whether a component may give an answer this field: its name is a token and none that the connector writes, and its
/// value stays within its line.
pub(crate) fn may_stand(name: &[u8], value: &[u8]) -> bool
    ensures { result ≡ may_stand (record { name = name.now; value = value.now }) }
{
    is_free_name(name) && is_one_line(value)
}

/// Whether the name is a token that the connector doesn't write itself.
fn is_free_name(name: &[u8]) -> bool
    ensures { result ≡ is_free_name name.now }
{
    is_token(name) && !is_reserved(name)
}

/// Whether the connector writes a field of this name itself. Names are compared without case.
fn is_reserved(name: &[u8]) -> bool
    ensures { result ≡ is_reserved name.now }
{
    name.eq_ignore_ascii_case(b"Content-Length")
        || name.eq_ignore_ascii_case(b"Transfer-Encoding")
        || name.eq_ignore_ascii_case(b"Connection")
        || name.eq_ignore_ascii_case(b"Date")
        || name.eq_ignore_ascii_case(b"Trailer")
}

/// Whether no byte would end the value's line or hide what follows.
fn is_one_line(value: &[u8]) -> bool
    ensures { result ≡ is_one_line value.now }
{
    value
        .iter()
        .all(|b| *b != b'\r' && *b != b'\n' && *b != b'\0')
}
