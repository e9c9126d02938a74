//! A piece of content as a chunk.
ghost use Rattle.std.specs.Prelude.{◌≡◌, ◌+◌, ◌<◌, ◌≤◌, ◌++◌, length, false};
ghost use Rattle.cy_event.specs.AnswerModes.{chunk_text, hex_text};
ghost use Rattle.std.specs.Fmt.{digit_glyph};
ghost use Rattle.cy_rings.specs.declared.kit.TheConstants.{OUT_CAPACITY};

use cy_rings::ConnKit;

/// The digits of hexadecimal numbers, in lower case.
const HEX_DIGITS: [u8; 16] = *b"0123456789abcdef";

/// The most bytes of a chunk that its size can be written for.
const CHUNK_LIMIT: usize = 65_535;

/// What a chunk has beside its bytes, at most: four digits and two line ends.
const CHUNK_EXTRA: usize = 8;

/// Writes the bytes as one chunk (RFC 9112, section 7.1), and nothing where there are none: a chunk of no bytes would
/// end the content.
pub(crate) fn put_chunk(bytes: &[u8], kit: &mut ConnKit)
    requires few { length bytes.now ≤ CHUNK_LIMIT }
    requires room { length kit.old.output + (length bytes.now + CHUNK_EXTRA) ≤ OUT_CAPACITY }
    ensures output { kit.new ≡ record kit.old { output = kit.old.output ++ chunk_text bytes.now } }
    ensures within { length kit.new.output ≤ length kit.old.output + (length bytes.now + CHUNK_EXTRA) }
{
    if bytes.is_empty() {
        return;
    }
    put_size(bytes.len(), kit);
    put(kit, b"\r\n");
    put(kit, bytes);
    put(kit, b"\r\n");
}

/// Writes a size in hexadecimal.
#[tactic(auto, using(crate::proofs::HexSizes::one_digit_text, crate::proofs::HexSizes::two_digits_text, crate::proofs::HexSizes::three_digits_text, crate::proofs::HexSizes::four_digits_text,))]
fn put_size(size: usize, kit: &mut ConnKit)
    requires few { size ≤ CHUNK_LIMIT }
    requires room { length kit.old.output + 4 ≤ OUT_CAPACITY }
    ensures output { kit.new ≡ record kit.old { output = kit.old.output ++ hex_text size } }
    ensures within { length kit.new.output ≤ length kit.old.output + 4 }
{
    let ones = digit(size % 16);
    if size < 16 {
        put(kit, &[ones]);
        return;
    }
    let tens = digit(size / 16 % 16);
    if size < 256 {
        put(kit, &[tens, ones]);
        return;
    }
    let hundreds = digit(size / 256 % 16);
    if size < 4096 {
        put(kit, &[hundreds, tens, ones]);
    } else {
        put(kit, &[digit(size / 4096), hundreds, tens, ones]);
    }
}

/// The digit of a number below 16.
fn digit(n: usize) -> u8
    requires { n < 16 }
    ensures { result ≡ digit_glyph false n }
{
    HEX_DIGITS[n]
}

/// Puts bytes for which there is room, and tells how many wait then.
pub(crate) fn put(kit: &mut ConnKit, bytes: &[u8])
    requires { length kit.old.output + length bytes.now ≤ OUT_CAPACITY }
    ensures output { kit.new ≡ record kit.old { output = kit.old.output ++ bytes.now } }
    ensures len { length kit.new.output ≡ length kit.old.output + length bytes.now }
{
    kit.put_out(bytes);
}
