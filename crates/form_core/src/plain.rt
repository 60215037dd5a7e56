//! Reads a node without parts, or a length, from its own bytes.

ghost use Rattle.std.specs.Prelude.{IfOk};
ghost use Rattle.scale_core.specs.Read.{compact_at, number_at, signed_at};
ghost use Rattle.types_core.specs.Kinds.{width_bytes};
ghost use Rattle.node_core.specs.Leaves.{FitsLeaf};
ghost use Rattle.form_core.specs.Needs.{AreOwn};
ghost use Rattle.form_core.specs.NodeForms.{form_of_plain};
ghost use Rattle.form_core.specs.PlainReads.{ReadsFront, ReadsPlain};

use crate::forms::PlainForm;
use node_core::Leaf;
use scale_core::{
    Fault, Target, read_bool, read_char, read_compact, read_i8, read_i16, read_i32, read_i64,
    read_i128, read_u8, read_u16, read_u32, read_u64, read_u128,
};
use types_core::IntegerWidth;

/// Reads an unsigned integer of this width from the front of the bytes.
#[tactic(auto, using(crate::proofs::ReadFronts::read_is))]
#[inline(always)]
fn read_unsigned(width: IntegerWidth, own: &[u8]) -> Result<u128, Fault>
    ensures { ReadsFront own.now result (number_at (width_bytes width) own.now) }
{
    Ok(match width {
        IntegerWidth::Bits8 => u128::from(read_u8(own)?.0),
        IntegerWidth::Bits16 => u128::from(read_u16(own)?.0),
        IntegerWidth::Bits32 => u128::from(read_u32(own)?.0),
        IntegerWidth::Bits64 => u128::from(read_u64(own)?.0),
        IntegerWidth::Bits128 => read_u128(own)?.0,
    })
}

/// Reads a signed integer of this width from the front of the bytes.
#[tactic(auto, using(crate::proofs::ReadFronts::read_is))]
fn read_signed(width: IntegerWidth, own: &[u8]) -> Result<i128, Fault>
    ensures { ReadsFront own.now result (signed_at (width_bytes width) own.now) }
{
    Ok(match width {
        IntegerWidth::Bits8 => i128::from(read_i8(own)?.0),
        IntegerWidth::Bits16 => i128::from(read_i16(own)?.0),
        IntegerWidth::Bits32 => i128::from(read_i32(own)?.0),
        IntegerWidth::Bits64 => i128::from(read_i64(own)?.0),
        IntegerWidth::Bits128 => read_i128(own)?.0,
    })
}

/// Reads the length before a text, a sequence or a run of bytes from the front of the bytes (SCALE
/// codec, "Compact/General Integers"): a compact integer of at most 32 bits. It allocates nothing.
///
/// # Errors
///
/// - `Truncated` at the length of `own` if it has too few bytes.
/// - `CompactNotShortest` at 0 if the form is longer than the number needs.
/// - `CompactTooLarge` at 0 if the number has more than 32 bits.
pub fn read_length(own: &[u8]) -> Result<u32, Fault>
    ensures { ReadsFront own.now result (compact_at Target.U32 own.now) }
{
    let (length, _) = read_compact(own, Target::U32)?;
    Ok(length as u32)
}

/// Reads a node without parts from its own bytes, as many as its form needs (SCALE codec, "Types").
/// It allocates nothing: a 256-bit integer borrows its 32 bytes.
///
/// # Errors
///
/// - `BadBool` at 0 if the byte of a boolean is neither `00` nor `01`.
/// - `BadChar` at 0 if four bytes are no character.
/// - Those of `read_compact` for compact integers and counts.
#[inline(always)]
pub fn read_plain<'b>(form: PlainForm, own: &'b [u8]) -> Result<Leaf<'b>, Fault>
    requires { AreOwn (form_of_plain form) own.now }
    ensures reads { ReadsPlain form own.now result }
    ensures fits { IfOk result FitsLeaf }
{
    match form {
        PlainForm::Bool => Ok(Leaf::Bool(read_bool(own)?.0)),
        PlainForm::Char => Ok(Leaf::Char(read_char(own)?.0)),
        PlainForm::Unsigned(width) => Ok(Leaf::Unsigned(read_unsigned(width, own)?)),
        PlainForm::Signed(width) => Ok(Leaf::Signed(read_signed(width, own)?)),
        PlainForm::Wide(_) => Ok(Leaf::Wide(own)),
        PlainForm::Compact(target) => Ok(Leaf::Compact(read_compact(own, target)?.0)),
        PlainForm::Count => Ok(Leaf::Count(read_length(own)?)),
    }
}
