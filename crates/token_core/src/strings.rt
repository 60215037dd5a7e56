//! Writes JSON strings into a buffer from a position on.

ghost use Rattle.std.specs.Prelude.{◌≡◌, ◌+◌, ◌*◌, ◌<◌, ◌≤◌, ◌++◌, length, codes};
ghost use Rattle.std.specs.Char.{digit_char};
ghost use Rattle.hex.specs.Hex.{encode_lower};
ghost use Rattle.json.specs.Filled.{Placed};
ghost use Rattle.json.specs.Print.{escape, escape_byte, escape_letter, quoted};
ghost use Rattle.token_core.specs.Digits.{bit_digits};
ghost use Rattle.token_core.specs.Places.{OnlyPlaced};

use crate::digits::{BLOCK, place_bits, place_hex};
use crate::places::{place_between, place_byte, place_bytes};
use plain_core::is_plain_16;
use types_core::BitForm;

/// Writes a text that needs no escape between quotes, and returns the position after it. The rest
/// of the buffer is unchanged.
#[inline(always)]
pub fn place_quoted(buffer: &mut [u8], at: usize, text: &str) -> usize
    requires room { at + length text.now + 2 ≤ length buffer.old }
    requires plain { escape text.now ≡ text.now }
    ensures { OnlyPlaced buffer.old buffer.new at (quoted text.now) result }
{
    place_between(buffer, at, b"\"", text.as_bytes(), b"\"")
}

/// Writes `0x` and two hexadecimal digits for each byte between quotes, and returns the position
/// after them. The rest of the buffer is unchanged.
#[inline(always)]
pub fn place_hex_text(buffer: &mut [u8], at: usize, bytes: &[u8]) -> usize
    requires { at + 2 * length bytes.now + 4 ≤ length buffer.old }
    ensures { OnlyPlaced buffer.old buffer.new at
        (quoted (codes "0x" ++ encode_lower bytes.now)) result }
{
    let at = place_bytes(buffer, at, b"\"0x");
    let at = place_hex(buffer, at, bytes);
    place_bytes(buffer, at, b"\"")
}

/// Writes `0b` and the digit of each of this many bits between quotes, and returns the position
/// after them. The rest of the buffer is unchanged.
#[inline(always)]
pub(crate) fn place_bits_text(
    buffer: &mut [u8],
    at: usize,
    form: BitForm,
    bytes: &[u8],
    count: u32,
) -> usize
    requires { at + count + 4 ≤ length buffer.old }
    ensures { OnlyPlaced buffer.old buffer.new at
        (quoted (codes "0b" ++ bit_digits form bytes.now count)) result }
{
    let at = place_bytes(buffer, at, b"\"0b");
    let at = place_bits(buffer, at, form, bytes, count);
    place_bytes(buffer, at, b"\"")
}

/// Returns the hexadecimal digit of a number.
#[inline(always)]
fn hex_digit(n: u8) -> u8
    requires { n < 16 }
    ensures { result ≡ digit_char n }
{
    if n < 10 { b'0' + n } else { b'a' - 10 + n }
}

/// Returns the letter of a byte's short escape, or 0 if it has none.
#[inline(always)]
fn escape_letter(byte: u8) -> u8
    ensures { result ≡ escape_letter byte }
{
    match byte {
        b'"' | b'\\' => byte,
        8 => b'b',
        12 => b'f',
        b'\n' => b'n',
        b'\r' => b'r',
        b'\t' => b't',
        _ => 0,
    }
}

/// Writes what stands for a byte between quotes: the byte itself, or its shortest escape (RFC 8259,
/// "Strings").
#[inline(always)]
fn place_escape(buffer: &mut [u8], at: usize, byte: u8) -> usize
    requires { at + 6 ≤ length buffer.old }
    ensures placed { Placed buffer.old buffer.new at (escape_byte byte) result }
    ensures few { result ≤ at + 6 }
{
    let letter = escape_letter(byte);
    if letter > 0 {
        return place_bytes(buffer, at, &[b'\\', letter]);
    }
    if byte < 0x20 {
        let (first, second) = (hex_digit(byte / 16), hex_digit(byte % 16));
        return place_bytes(buffer, at, &[b'\\', b'u', b'0', b'0', first, second]);
    }
    place_byte(buffer, at, byte)
}

/// Writes what stands between quotes for some bytes of a text. A block without an escape is copied.
pub(crate) fn place_escaped(buffer: &mut [u8], at: usize, bytes: &[u8]) -> usize
    requires { at + 6 * length bytes.now ≤ length buffer.old }
    ensures { Placed buffer.old buffer.new at (escape bytes.now) result }
{
    if bytes.len() == BLOCK && is_plain_16(bytes, 0) {
        return place_bytes(buffer, at, bytes);
    }
    let mut end = at;
    'bytes: for &byte in bytes {
        end = place_escape(buffer, end, byte);
    }
    end
}
