//! Bit sequences as texts of binary digits in the JSON tree.

ghost use Rattle.std.specs.Prelude.{◌≡◌, ◌++◌, codes, IfOk};
ghost use Rattle.std.specs.String.{string_bytes};
ghost use Rattle.serde_json.specs.View.{view};
ghost use Rattle.token_core.specs.Digits.{bit_digits};
ghost use Rattle.json_core.specs.Json.{bits_json};

use growth_core::{Refused, push_str, string_from};
use serde_json::Value;
use std::alloc::Global;
use types_core::BitForm;

/// Returns `0b` and the digit of each bit, in order.
fn bits_text(alloc: Global, form: BitForm, bytes: &[u8], count: u32) -> Result<String, Refused>
    ensures { IfOk result
        (λ text. string_bytes text ≡ codes "0b" ++ bit_digits form bytes.now count) }
{
    let mut text = string_from(alloc, "0b")?;
    'bits: for bit in 0..count {
        push_str(&mut text, if form.bit(bytes, bit) { "1" } else { "0" })?;
    }
    Ok(text)
}

/// Returns the bits as a text of digits, or null if their words are not known.
pub(crate) fn bits_json(
    alloc: Global,
    form: Option<BitForm>,
    bytes: &[u8],
    count: u32,
) -> Result<Value, Refused>
    ensures { IfOk result (λ v. view v ≡ bits_json form count bytes.now) }
{
    match form {
        Some(form) => Ok(Value::String(bits_text(alloc, form, bytes, count)?)),
        None => Ok(Value::Null),
    }
}
