//! Whether the Host of a head is right (RFC 9112, section 3.2; RFC 9110, section 7.2).

ghost use Rattle.std.specs.Prelude.{◌≡◌, ◌==◌, ◌<◌, length, codes, None, Some, IfSome, MatchOption};
ghost use Rattle.std.specs.List.{All, list_all, position};
ghost use Rattle.std.specs.Char.{is_ascii_digit};
ghost use Rattle.httparse.specs.Spans.{IsHeaderWithin};
ghost use Rattle.cy_event.specs.Heads.{begins_with_hex, close_bracket, cut_at, is_address, is_address_byte, is_escaped, is_host, is_host_byte, is_host_name, is_named, is_one_host, is_port, values_of};
ghost use Rattle.cy_head.specs.HeadSpans.{field_of_name, fields_at};

use cy_event::cut;
use httparse::spans::{HeaderSpan, Span};

/// Whether the fields have one Host that is right; HTTP/1.0 needs none.
pub(crate) fn has_right_host(front: &[u8], minor: u8, fields: &[HeaderSpan]) -> bool
    requires { All (IsHeaderWithin (length front.now)) fields.now }
    ensures { result ≡ is_one_host minor (values_of (codes "Host") (fields_at front.now fields.now)) }
{
    let mut host: Option<Span> = None;
    for field in fields {
        if has_name(field.name.of(front), b"Host") {
            if host.is_some() {
                return false;
            }
            host = Some(field.value);
        }
    }
    match host {
        Some(value) => fits_host(value.of(front)),
        None => minor == 0,
    }
}

/// Whether the names differ at most in case.
fn has_name(name: &[u8], other: &[u8]) -> bool
    ensures { result ≡ is_named other.now (field_of_name name.now) }
{
    name.eq_ignore_ascii_case(other)
}

/// Whether the value is nothing, or a host and optionally a port.
fn fits_host(value: &[u8]) -> bool
    ensures { result ≡ is_host value.now }
{
    match value {
        [] => true,
        [b'[', rest @ ..] => fits_address(rest),
        _ => match cut(value, b':') {
            Some((name, port)) => fits_host_name(name) && has_digits_only(port),
            None => fits_host_name(value),
        },
    }
}

/// Whether this is an address up to its bracket, and optionally a port.
fn fits_address(rest: &[u8]) -> bool
    ensures { result ≡ is_address (cut_at close_bracket rest.now) }
{
    match cut(rest, b']') {
        Some((address, port)) => !address.is_empty()
            && has_address_bytes_only(address)
            && fits_port(port),
        None => false,
    }
}

/// Whether this is nothing, or a colon and digits.
fn fits_port(text: &[u8]) -> bool
    ensures { result ≡ is_port text.now }
{
    match text {
        [] => true,
        [first, digits @ ..] => *first == b':' && has_digits_only(digits),
    }
}

/// Whether this is a host's name.
fn fits_host_name(name: &[u8]) -> bool
    ensures { result ≡ is_host_name name.now }
{
    !name.is_empty() && has_host_bytes_only(name) && is_escaped_right(name)
}

/// Whether two hexadecimal digits follow each `%`.
fn is_escaped_right(name: &[u8]) -> bool
    ensures { result ≡ is_escaped name.now }
{
    for (i, byte) in name.iter().enumerate() {
        if *byte == b'%' && !has_hex_first(&name[i + 1..]) {
            return false;
        }
    }
    true
}

/// Whether two hexadecimal digits stand first.
fn has_hex_first(text: &[u8]) -> bool
    ensures { result ≡ begins_with_hex text.now }
{
    match text {
        [high, low, ..] => high.is_ascii_hexdigit() && low.is_ascii_hexdigit(),
        _ => false,
    }
}

fn has_host_bytes_only(name: &[u8]) -> bool
    ensures { result ≡ list_all is_host_byte name.now }
{
    name.iter().all(|byte| byte.is_ascii_alphanumeric() || b"-._~!$&'()*+,;=%".contains(byte))
}

fn has_address_bytes_only(address: &[u8]) -> bool
    ensures { result ≡ list_all is_address_byte address.now }
{
    address.iter().all(|byte| byte.is_ascii_hexdigit() || *byte == b':' || *byte == b'.')
}

fn has_digits_only(text: &[u8]) -> bool
    ensures { result ≡ list_all is_ascii_digit text.now }
{
    text.iter().all(|byte| byte.is_ascii_digit())
}

#[cfg(test)]
mod tests {
    use super::*;

    #[test]
    fn hosts(rt: HostRuntime) {
        for value in [
            "",
            "a",
            "a:80",
            "a:",
            "1.b-c_d~",
            "%41%4a",
            "[::1]",
            "[::1]:80",
            "[1.2.3.4]:",
        ] {
            assert!(rt; fits_host(value.as_bytes()), "{value}");
        }
        for value in [
            ":80", "a:b", "a:8:0", "%4", "%4g", "%", "a b", "a/b", "a@b", "é", "[]", "[::1",
            "[::1]8", "[g]", "a]",
        ] {
            assert!(rt; !fits_host(value.as_bytes()), "{value}");
        }
    }
}
