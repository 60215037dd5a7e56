//! Reads a value from complete bytes, and turns it into JSON.

ghost use Rattle.std.specs.Prelude.{string_bytes};
ghost use Rattle.decode_core.specs.Decoding.{opening_fault};
ghost use Rattle.decode_core.specs.Streaming.{query_of};
ghost use Rattle.scale_calls.specs.Values.{ReadsValue, ShowsValue};

use crate::refusal::ValueRefusal;
use decode_core::Decoder;
use json_core::json_text;
use registry_core::TypeId;
use std::alloc::{Allocator, Global};
use value_core::{Limits, Value};
use widths_core::Checked;

/// Reads the value of the type at a position that all the bytes spell, within the limits. All that
/// it allocates comes from the allocator and its clones.
///
/// # Errors
///
/// The first that applies:
///
/// - `UnknownType` if the registry has no type at the position.
/// - `LimitOutOfRange` if the depth limit is above 1024 or the limit of bytes above 2^40.
/// - `Fault`: what the decoder rejects the bytes for.
/// - `TrailingBytes` at the value's length, if bytes follow it.
/// - `Memory` if an allocation fails.
pub fn read_value<'r, A: Allocator + Clone>(
    alloc: A,
    checked: &'r Checked,
    id: u32,
    limits: Limits,
    bytes: &[u8],
) -> Result<Value<'r, A>, ValueRefusal>
    ensures { ReadsValue (opening_fault checked.now.types id limits)
        (query_of checked.now.types id limits) bytes.now result }
{
    let mut decoder = Decoder::new(alloc, checked, TypeId(id), limits)?;
    decoder.feed(bytes)?;
    let taken = decoder.taken();
    let value = decoder.finish()?;
    if taken == bytes.len() as u64 {
        Ok(value)
    } else {
        Err(ValueRefusal::TrailingBytes(taken))
    }
}

/// Returns the JSON text of the value that all the bytes spell, without a line end.
///
/// # Errors
///
/// Those of [`read_value`].
pub fn value_text(
    alloc: Global,
    checked: &Checked,
    id: u32,
    limits: Limits,
    bytes: &[u8],
) -> Result<String, ValueRefusal>
    ensures { ShowsValue string_bytes (opening_fault checked.now.types id limits)
        (query_of checked.now.types id limits) bytes.now result }
{
    let value = read_value(alloc, checked, id, limits, bytes)?;
    Ok(json_text(alloc, alloc, &value)?)
}
