//! Reads bytes from a text of hexadecimal digits.

ghost use Rattle.std.specs.Prelude.{◌≡◌, ◌≤◌, length, IfOk, IfErr, Ok};
ghost use Rattle.hex_text.specs.HexText.{IsOfHex, back_over, digits_end, hex_bytes, prefix_len};

use crate::fault::{HexFault, HexRefusal};
use growth_core::Refused;
use hex::FromHexError;
use std::alloc::Global;

/// Returns the length of the prefix `0x`: 2 if the text has it, and otherwise 0.
fn prefix_len(text: &[u8]) -> usize
    ensures value { result ≡ prefix_len text.now }
    ensures bound { result ≤ length text.now }
{
    if text.starts_with(b"0x") { 2 } else { 0 }
}

/// Returns the position before `end` if this byte stands there, and otherwise `end`.
fn back_over(text: &[u8], end: usize, byte: u8) -> usize
    requires { end ≤ length text.now }
    ensures value { result ≡ back_over text.now end byte }
    ensures bound { result ≤ end }
{
    if end > 0 && text[end - 1] == byte {
        end - 1
    } else {
        end
    }
}

/// Returns where the line end of the text begins, or the text's length if it has none.
fn digits_end(text: &[u8]) -> usize
    ensures value { result ≡ digits_end text.now }
    ensures bound { result ≤ length text.now }
{
    let line = back_over(text, text.len(), b'\n');
    if line == text.len() {
        return line;
    }
    back_over(text, line, b'\r')
}

/// Returns the bytes whose digits the text holds: after an optional `0x`, two hexadecimal digits of
/// either case for each byte, and an optional line end (LF or CR LF).
///
/// # Errors
///
/// The first that applies:
///
/// - `Odd`, at the end of the digits, if their number is odd.
/// - `Bad` at the first byte that is no digit.
/// - `Memory` if an allocation fails.
///
/// Places are in the text.
pub fn hex_bytes(alloc: Global, text: &[u8]) -> Result<Vec<u8>, HexRefusal>
    ensures ok { IfOk result (λ bytes. hex_bytes text.now ≡ Ok bytes.items) }
    ensures err { IfErr result (IsOfHex (hex_bytes text.now)) }
{
    let start = prefix_len(text);
    let rest = &text[start..];
    let end = digits_end(rest);
    let odd = HexRefusal::Fault(HexFault::Odd((start + end) as u64));
    match hex::decode(alloc, &rest[..end]) {
        Ok(bytes) => Ok(bytes),
        Err(FromHexError::InvalidHexCharacter { index, .. }) => {
            Err(HexRefusal::Fault(HexFault::Bad((start + index) as u64)))
        }
        Err(FromHexError::OddLength) => Err(odd),
        Err(FromHexError::InvalidStringLength) => Err(odd),
        Err(FromHexError::OutOfMemory) => Err(HexRefusal::Memory(Refused::of_library())),
    }
}
