//! Numbers written in digits.

ghost use Rattle.std.specs.Prelude.{◌≡◌, ◌+◌, ◌*◌, ◌<◌, ◌≤◌};
ghost use Rattle.cy_bytes.specs.Numbers.{decimal_of, fitting, has_leading_zero, hex_of, number_of};

use crate::quoting::hex_value;

/// The most digits that a hexadecimal number has.
const HEX_DIGITS: usize = 16;

/// The number that decimal digits write, up to 2^64 - 1. There is a digit at least, and no zero stands
/// before another digit. Any other text has none.
#[tactic(auto, unfolding(crate::specs::Numbers::decimal_of))]
pub fn decimal(bytes: &[u8]) -> Option<u64>
    ensures { result ≡ decimal_of bytes.now }
{
    if bytes.is_empty() || has_leading_zero(bytes) {
        None
    } else {
        number(bytes, 10)
    }
}

/// The number that 1 to 16 hexadecimal digits of either case write. Any other text has none.
#[tactic(auto, unfolding(crate::specs::Numbers::hex_of))]
pub fn hex(bytes: &[u8]) -> Option<u64>
    ensures { result ≡ hex_of bytes.now }
{
    if bytes.is_empty() || bytes.len() > HEX_DIGITS {
        None
    } else {
        number(bytes, 16)
    }
}

/// Whether a zero stands before another byte.
fn has_leading_zero(bytes: &[u8]) -> bool
    ensures { result ≡ has_leading_zero bytes.now }
{
    match bytes {
        [first, _, ..] => *first == b'0',
        _ => false,
    }
}

/// The number that the digits write, where all are digits of the radix and it fits.
fn number(bytes: &[u8], radix: u8) -> Option<u64>
    requires some { 1 ≤ radix }
    requires known { radix ≤ 16 }
    ensures { result ≡ number_of radix bytes.now }
{
    let mut value = 0;
    for &byte in bytes {
        let Some(digit) = hex_value(byte) else {
            return None;
        };
        if digit >= radix {
            return None;
        }
        let Some(longer) = with_digit(value, radix, digit) else {
            return None;
        };
        value = longer;
    }
    Some(value)
}

/// The number with one digit more, where it fits.
fn with_digit(value: u64, radix: u8, digit: u8) -> Option<u64>
    ensures { result ≡ fitting (value * radix + digit) }
{
    value
        .checked_mul(u64::from(radix))?
        .checked_add(u64::from(digit))
}

#[cfg(test)]
mod tests {
    use super::*;

    #[test]
    fn decimal_numbers(rt: HostRuntime) {
        let rows: [(&[u8], Option<u64>); 14] = [
            (b"0", Some(0)),
            (b"7", Some(7)),
            (b"8192", Some(8192)),
            (b"18446744073709551615", Some(u64::MAX)),
            (b"18446744073709551616", None),
            (b"99999999999999999999", None),
            (b"100000000000000000000", None),
            (b"", None),
            (b"00", None),
            (b"07", None),
            (b"+7", None),
            (b"-7", None),
            (b"7 ", None),
            (b"7a", None),
        ];
        for (row, (text, want)) in rows.iter().enumerate() {
            assert_eq!(rt; decimal(text), *want, "row {row}");
        }
    }

    #[test]
    fn hexadecimal_numbers(rt: HostRuntime) {
        let rows: [(&[u8], Option<u64>); 11] = [
            (b"0", Some(0)),
            (b"000a", Some(10)),
            (b"fF", Some(255)),
            (b"0123456789abcdef", Some(0x0123_4567_89ab_cdef)),
            (b"FFFFFFFFFFFFFFFF", Some(u64::MAX)),
            (b"00000000000000000", None),
            (b"", None),
            (b"g", None),
            (b"0x1", None),
            (b"-1", None),
            (b"1 ", None),
        ];
        for (row, (text, want)) in rows.iter().enumerate() {
            assert_eq!(rt; hex(text), *want, "row {row}");
        }
    }
}
