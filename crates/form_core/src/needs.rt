//! How many bytes a node has of its own, by its form and its first byte.

ghost use Rattle.std.specs.Prelude.{◌≡◌, ◌≤◌};
ghost use Rattle.form_core.specs.NodeForms.{form_of_bytes, form_of_plain};
ghost use Rattle.form_core.specs.Needs.{compact_need, need};

use crate::forms::{BytesForm, PlainForm};
use scale_core::Target;

/// Returns how many bytes a compact integer has, or how many decide that it is rejected.
#[inline(always)]
fn compact_need(target: Target, first: u8) -> usize
    ensures exact { result ≡ compact_need target first }
    ensures some { 1 ≤ result }
    ensures bound { result ≤ 32 }
{
    match first % 4 {
        0 => 1,
        1 => 2,
        2 => 4,
        _ => {
            let behind = usize::from(first / 4) + 4;
            if target.bytes() < behind {
                1
            } else {
                behind + 1
            }
        }
    }
}

/// Returns how many bytes a node without parts has, or how many decide that it is rejected.
#[inline(always)]
fn plain_need(form: PlainForm, first: u8) -> usize
    ensures exact { result ≡ need (form_of_plain form) first }
    ensures some { 1 ≤ result }
    ensures bound { result ≤ 32 }
{
    match form {
        PlainForm::Bool => 1,
        PlainForm::Char => 4,
        PlainForm::Unsigned(width) | PlainForm::Signed(width) => width.bytes(),
        PlainForm::Wide(_) => 32,
        PlainForm::Compact(target) => compact_need(target, first),
        PlainForm::Count => compact_need(Target::U32, first),
    }
}

/// Returns how many bytes a node of this form has of its own, given the first, or how many decide
/// that it is rejected (SCALE codec, "Compact/General Integers"): 1 to 32. For a text, a run of
/// bytes or a bit sequence they are those of its length.
#[inline(always)]
pub fn need(form: BytesForm, first: u8) -> usize
    ensures exact { result ≡ need (form_of_bytes form) first }
    ensures some { 1 ≤ result }
    ensures bound { result ≤ 32 }
{
    match form {
        BytesForm::Plain(plain) => plain_need(plain, first),
        BytesForm::Arm => 1,
        BytesForm::Text | BytesForm::Bytes | BytesForm::Bits(_) | BytesForm::Sequence => {
            compact_need(Target::U32, first)
        }
    }
}
