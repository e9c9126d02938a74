//! One byte more: what may come next in a body of chunks (RFC 9112, section 7.1).

ghost use Rattle.std.specs.Prelude.{◌≡◌, ◌+◌, ◌<◌, nat_le, SomeIff};
ghost use Rattle.std.specs.Char.{digit_value};
ghost use Rattle.cy_event.specs.Bodies.{at_field, behind_line, behind_name, behind_size, chunk_down, counted_down, due, in_extension, in_name, in_size, in_value, is_over, next_stage, with_digit};
ghost use Rattle.cy_event.specs.Heads.{is_name_byte};

use cy_event::{BodyStage, GREATEST_CHUNK, GREATEST_LINE, MOST_DIGITS};

/// Whether nothing more belongs to the body.
pub fn is_over(stage: BodyStage) -> bool
    ensures { result ≡ is_over stage }
{
    matches!(
        stage,
        BodyStage::Whole | BodyStage::Malformed | BodyStage::TooLong
    )
}

/// What may come next behind one byte more.
// Inlined, so that the stage stays in registers from byte to byte.
#[inline(always)]
pub fn next_stage(max_trailer: u32, stage: BodyStage, byte: u8) -> BodyStage
    ensures { result ≡ next_stage max_trailer stage byte }
{
    match stage {
        BodyStage::Whole => BodyStage::Whole,
        BodyStage::Counted(left) => counted_down(left),
        BodyStage::SizeDue => first_digit(byte),
        BodyStage::InSize { digits, size } => in_size(digits, size, byte),
        BodyStage::InBlanks { line, size } => behind_size(line, size, byte),
        BodyStage::InExtension { line, size } => in_extension(line, size, byte),
        BodyStage::LineEnds { size } => due(b'\n', byte, behind_line(size)),
        BodyStage::InChunk(left) => chunk_down(left),
        BodyStage::ChunkEnds => due(b'\r', byte, BodyStage::ChunkEnded),
        BodyStage::ChunkEnded => due(b'\n', byte, BodyStage::SizeDue),
        BodyStage::FieldDue { trailers } => at_field(max_trailer, trailers, byte),
        BodyStage::InName { trailers } => behind_name(max_trailer, trailers, byte),
        BodyStage::InValue { trailers } => in_value(max_trailer, trailers, byte),
        BodyStage::FieldEnds { trailers } => field_ends(max_trailer, trailers, byte),
        BodyStage::LastEnds => due(b'\n', byte, BodyStage::Whole),
        BodyStage::Malformed => BodyStage::Malformed,
        BodyStage::TooLong => BodyStage::TooLong,
    }
}

fn counted_down(left: u64) -> BodyStage
    ensures { result ≡ counted_down left }
{
    if left <= 1 {
        BodyStage::Whole
    } else {
        BodyStage::Counted(left - 1)
    }
}

fn chunk_down(left: u64) -> BodyStage
    ensures { result ≡ chunk_down left }
{
    if left <= 1 {
        BodyStage::ChunkEnds
    } else {
        BodyStage::InChunk(left - 1)
    }
}

/// The stage, where the byte is the one that is due.
fn due(wanted: u8, byte: u8, next: BodyStage) -> BodyStage
    ensures { result ≡ due wanted byte next }
{
    if byte == wanted {
        next
    } else {
        BodyStage::Malformed
    }
}

// ---- the line before a chunk

/// The value of a hexadecimal digit of either case.
fn digit_of(byte: u8) -> Option<u8>
    ensures { SomeIff result (digit_value byte < 16) (digit_value byte) }
{
    match byte {
        b'0'..=b'9' => Some(byte - b'0'),
        b'a'..=b'f' => Some(byte - b'a' + 10),
        b'A'..=b'F' => Some(byte - b'A' + 10),
        _ => None,
    }
}

fn first_digit(byte: u8) -> BodyStage
    ensures { result ≡ next_stage 0 BodyStage.SizeDue byte }
{
    match digit_of(byte) {
        Some(digit) => with_digit(0, 0, digit),
        None => BodyStage::Malformed,
    }
}

/// One more digit behind so many: at most 16, of a size of at most 2^62.
fn with_digit(digits: u8, size: u64, digit: u8) -> BodyStage
    requires { digit < 16 }
    ensures { result ≡ with_digit digits size digit }
{
    let digit = u64::from(digit);
    if digits < MOST_DIGITS && size <= (GREATEST_CHUNK - digit) / 16 {
        BodyStage::InSize {
            digits: digits + 1,
            size: 16 * size + digit,
        }
    } else {
        BodyStage::Malformed
    }
}

fn in_size(digits: u8, size: u64, byte: u8) -> BodyStage
    ensures { result ≡ in_size digits size byte }
{
    match digit_of(byte) {
        Some(digit) => with_digit(digits, size, digit),
        None if byte == b'\r' => BodyStage::LineEnds { size },
        None => behind_size(digits as u16, size, byte),
    }
}

/// Whether so many bytes more are within the limit of a chunk's line.
fn fits_line(line: u16, needed: u16) -> bool
    requires { needed < 8 }
    ensures { result ≡ nat_le (line + needed) GREATEST_LINE }
{
    line <= GREATEST_LINE - needed
}

fn behind_size(line: u16, size: u64, byte: u8) -> BodyStage
    ensures { result ≡ behind_size line size byte }
{
    match byte {
        b' ' | b'\t' if fits_line(line, 4) => BodyStage::InBlanks {
            line: line + 1,
            size,
        },
        b';' if fits_line(line, 3) => BodyStage::InExtension {
            line: line + 1,
            size,
        },
        _ => BodyStage::Malformed,
    }
}

fn in_extension(line: u16, size: u64, byte: u8) -> BodyStage
    ensures { result ≡ in_extension line size byte }
{
    match byte {
        b'\r' => BodyStage::LineEnds { size },
        b'\n' => BodyStage::Malformed,
        _ if fits_line(line, 3) => BodyStage::InExtension {
            line: line + 1,
            size,
        },
        _ => BodyStage::Malformed,
    }
}

/// A chunk of this size begins, or the trailers where it is 0.
fn behind_line(size: u64) -> BodyStage
    ensures { result ≡ behind_line size }
{
    if size == 0 {
        BodyStage::FieldDue { trailers: 0 }
    } else {
        BodyStage::InChunk(size)
    }
}

// ---- trailers

/// Whether so many bytes more are within the limit of the trailers.
fn fits_trailers(max_trailer: u32, trailers: u32, needed: u32) -> bool
    ensures { result ≡ nat_le (trailers + needed) max_trailer }
{
    needed <= max_trailer && trailers <= max_trailer - needed
}

/// Whether the byte may stand in a trailer's name.
#[tactic(auto, unfolding(cy_event::specs::Heads::is_name_byte))]
fn is_name_byte(byte: u8) -> bool
    ensures { result ≡ is_name_byte byte }
{
    byte.is_ascii_alphanumeric() || b"!#$%&'*+-.^_`|~".contains(&byte)
}

fn at_field(max_trailer: u32, trailers: u32, byte: u8) -> BodyStage
    ensures { result ≡ at_field max_trailer trailers byte }
{
    if byte != b'\r' {
        in_name(max_trailer, trailers, byte)
    } else if fits_trailers(max_trailer, trailers, 2) {
        BodyStage::LastEnds
    } else {
        BodyStage::TooLong
    }
}

fn in_name(max_trailer: u32, trailers: u32, byte: u8) -> BodyStage
    ensures { result ≡ in_name max_trailer trailers byte }
{
    if !is_name_byte(byte) {
        BodyStage::Malformed
    } else if fits_trailers(max_trailer, trailers, 6) {
        BodyStage::InName {
            trailers: trailers + 1,
        }
    } else {
        BodyStage::TooLong
    }
}

fn behind_name(max_trailer: u32, trailers: u32, byte: u8) -> BodyStage
    ensures { result ≡ behind_name max_trailer trailers byte }
{
    if byte != b':' {
        in_name(max_trailer, trailers, byte)
    } else if fits_trailers(max_trailer, trailers, 5) {
        BodyStage::InValue {
            trailers: trailers + 1,
        }
    } else {
        BodyStage::TooLong
    }
}

fn in_value(max_trailer: u32, trailers: u32, byte: u8) -> BodyStage
    ensures { result ≡ in_value max_trailer trailers byte }
{
    match byte {
        b'\r' if fits_trailers(max_trailer, trailers, 4) => BodyStage::FieldEnds {
            trailers: trailers + 1,
        },
        b'\n' | 0 => BodyStage::Malformed,
        b'\r' => BodyStage::TooLong,
        _ if fits_trailers(max_trailer, trailers, 5) => BodyStage::InValue {
            trailers: trailers + 1,
        },
        _ => BodyStage::TooLong,
    }
}

fn field_ends(max_trailer: u32, trailers: u32, byte: u8) -> BodyStage
    ensures { result ≡ next_stage max_trailer (BodyStage.FieldEnds trailers) byte }
{
    if byte != b'\n' {
        BodyStage::Malformed
    } else if fits_trailers(max_trailer, trailers, 3) {
        BodyStage::FieldDue {
            trailers: trailers + 1,
        }
    } else {
        BodyStage::TooLong
    }
}
