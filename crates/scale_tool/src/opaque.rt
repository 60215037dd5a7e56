//! Opaque values: a length in bytes, and as many bytes, which spell the value.

ghost use Rattle.std.specs.Prelude.{◌≡◌, ◌+◌, ◌<◌, ◌^◌, length, true, IfErr};
ghost use Rattle.scale_calls.specs.Refused.{IsOfBytes};
ghost use Rattle.scale_tool.specs.Opaque.{place_of, placed_after};
ghost use Rattle.scale_tool.specs.Values.{AreInRange, ReadsBytes};
ghost use Rattle.decode_core.specs.Streaming.{query_of};

use crate::form::ValueJob;
use decode_core::DecodeFault;
use scale_calls::{ValueRefusal, opaque_start, read_value};
use std::alloc::Allocator;
use value_core::Value;
use widths_core::Checked;

/// Returns the refusal with its place from the first byte of the input, if the bytes begin at
/// `start`.
fn placed_after(start: u64, refusal: ValueRefusal) -> ValueRefusal
    requires { start + place_of refusal < 2 ^ 64 }
    ensures { result ≡ placed_after start refusal }
{
    match refusal {
        ValueRefusal::Fault(DecodeFault { reason, at }) => ValueRefusal::Fault(DecodeFault {
            reason,
            at: start + at,
        }),
        ValueRefusal::TrailingBytes(at) => ValueRefusal::TrailingBytes(start + at),
        ValueRefusal::UnknownType | ValueRefusal::LimitOutOfRange | ValueRefusal::Memory(_) =>
            refusal,
    }
}

/// Reads the opaque value that all the bytes spell. All that it allocates comes from the allocator
/// and its clones.
///
/// # Errors
///
/// The length is judged before the value, and all places are from the first byte.
pub(crate) fn opaque_value<'r, A: Allocator + Clone>(
    alloc: A,
    checked: &'r Checked,
    job: ValueJob,
    bytes: &[u8],
) -> Result<Value<'r, A>, ValueRefusal>
    requires known { job.id < length checked.now.types }
    requires limits { AreInRange job.limits }
    ensures reads { ReadsBytes true (query_of checked.now.types job.id job.limits) bytes.now
        result }
    ensures of_bytes { IfErr result IsOfBytes }
{
    let start = opaque_start(bytes)?;
    match read_value(alloc, checked, job.id, job.limits, &bytes[start..]) {
        Ok(value) => Ok(value),
        Err(refusal) => Err(placed_after(start as u64, refusal)),
    }
}
