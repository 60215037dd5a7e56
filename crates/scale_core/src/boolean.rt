//! Booleans: one byte, `00` or `01`.

ghost use Rattle.std.specs.Prelude.{◌≡◌, ◌++◌, ◌∷◌, [], OnOk, OnErr};
ghost use Rattle.scale_core.specs.Number.{bool_byte};
ghost use Rattle.scale_core.specs.Answers.{Answers};
ghost use Rattle.scale_core.specs.Read.{bool_at};

use crate::fault::{Fault, Reason};
use crate::integer::read_u8;
use growth_core::{Refused, push};

/// Reads a boolean from the start of `bytes`, and returns it with its length, 1 (SCALE codec
/// specification, "Boolean").
///
/// # Errors
///
/// - `Truncated` at 0 if `bytes` is empty.
/// - `BadBool` at 0 if the first byte is neither `00` nor `01`.
pub fn read_bool(bytes: &[u8]) -> Result<(bool, usize), Fault>
    ensures { Answers (λ x. x) bytes.now result (bool_at bytes.now) }
{
    let (byte, len) = read_u8(bytes)?;
    match byte {
        0 => Ok((false, len)),
        1 => Ok((true, len)),
        _ => Err(Fault {
            reason: Reason::BadBool,
            at: 0,
        }),
    }
}

/// Appends the byte of a boolean.
///
/// # Errors
///
/// `Refused` if the allocation fails; the elements of `out` are unchanged.
pub fn write_bool(out: &mut Vec<u8>, value: bool) -> Result<(), Refused>
    ensures ok { OnOk result (out.new.items ≡ out.old.items ++ bool_byte value ∷ []) }
    ensures err { OnErr result (out.new.items ≡ out.old.items) }
{
    push(out, u8::from(value))?;
    Ok(())
}
