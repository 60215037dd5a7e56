//! Characters: the four bytes of a Unicode scalar value, in little-endian order.

ghost use Rattle.std.specs.Prelude.{◌≡◌, ◌++◌, OnOk, OnErr};
ghost use Rattle.scale_core.specs.Answers.{Answers};
ghost use Rattle.scale_core.specs.Number.{le_bytes};
ghost use Rattle.scale_core.specs.Read.{char_at};

use crate::fault::{Fault, Reason};
use crate::integer::{read_u32, write_u32};
use growth_core::Refused;

/// Reads a character from the start of `bytes`, and returns it with its length, 4 (Unicode
/// Standard, D76).
///
/// # Errors
///
/// - `Truncated` at the length of `bytes` if it has fewer than four.
/// - `BadChar` at 0 if the number is a surrogate or above `10ffff`.
pub fn read_char(bytes: &[u8]) -> Result<(char, usize), Fault>
    ensures { Answers (λ x. x) bytes.now result (char_at bytes.now) }
{
    let (code, len) = read_u32(bytes)?;
    match char::from_u32(code) {
        Some(character) => Ok((character, len)),
        None => Err(Fault {
            reason: Reason::BadChar,
            at: 0,
        }),
    }
}

/// Appends the four bytes of a character.
///
/// # Errors
///
/// `Refused` if the allocation fails; the elements of `out` are unchanged.
pub fn write_char(out: &mut Vec<u8>, value: char) -> Result<(), Refused>
    ensures ok { OnOk result (out.new.items ≡ out.old.items ++ le_bytes 4 value) }
    ensures err { OnErr result (out.new.items ≡ out.old.items) }
{
    write_u32(out, u32::from(value))
}
