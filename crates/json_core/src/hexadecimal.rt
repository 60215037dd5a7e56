//! Bytes as hexadecimal text in the JSON tree.

ghost use Rattle.std.specs.Prelude.{◌≡◌, ◌++◌, codes, IfOk};
ghost use Rattle.std.specs.String.{string_bytes};
ghost use Rattle.hex.specs.Hex.{encode_lower};
ghost use Rattle.serde_json.specs.View.{view};
ghost use Rattle.json_core.specs.Json.{bytes_json};

use growth_core::{Refused, reported};
use serde_json::Value;
use std::alloc::Global;

/// Returns `0x` and two digits for each byte, in order.
pub(crate) fn hex_text(alloc: Global, bytes: &[u8]) -> Result<String, Refused>
    ensures { IfOk result (λ text. string_bytes text ≡ codes "0x" ++ encode_lower bytes.now) }
{
    let digits = reported(hex::encode(alloc, bytes))?;
    reported(format!(in alloc; "0x{digits}"))
}

/// Returns the bytes as a text of hexadecimal digits.
pub(crate) fn bytes_json(alloc: Global, bytes: &[u8]) -> Result<Value, Refused>
    ensures { IfOk result (λ v. view v ≡ bytes_json bytes.now) }
{
    Ok(Value::String(hex_text(alloc, bytes)?))
}
