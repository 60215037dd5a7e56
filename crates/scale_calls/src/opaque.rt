//! The length in front of an opaque value: how many bytes follow, which spell the value.

ghost use Rattle.std.specs.Prelude.{◌≡◌, ◌≤◌, length, IfOk, IfErr};
ghost use Rattle.scale_calls.specs.Opaque.{opaque_start};
ghost use Rattle.scale_calls.specs.Refused.{IsOfBytes};

use crate::refusal::ValueRefusal;
use decode_core::{DecodeFault, DecodeReason};
use scale_core::{Target, read_compact};

/// Returns the refusal of bytes with this fault.
fn fault(reason: DecodeReason, at: u64) -> ValueRefusal
    ensures { result ≡ ValueRefusal.Fault (record { reason = reason; at = at }) }
{
    ValueRefusal::Fault(DecodeFault { reason, at })
}

/// Returns where the value begins, after its length.
///
/// # Errors
///
/// The first that applies:
///
/// - `Fault` of the compact integer that is the length.
/// - `Fault` with `Truncated` at the end of the bytes if fewer follow the length than it counts.
/// - `TrailingBytes` at the end of those that it counts if more follow.
pub fn opaque_start(bytes: &[u8]) -> Result<usize, ValueRefusal>
    ensures exact { result ≡ opaque_start bytes.now }
    ensures within { IfOk result (λ start. start ≤ length bytes.now) }
    ensures of_bytes { IfErr result IsOfBytes }
{
    let (len, start) = match read_compact(bytes, Target::U32) {
        Ok(read) => read,
        Err(error) => return Err(fault(DecodeReason::from(error.reason), error.at)),
    };
    let len = len as usize;
    let left = bytes.len() - start;
    if left < len {
        return Err(fault(DecodeReason::Truncated, bytes.len() as u64));
    }
    if len < left {
        return Err(ValueRefusal::TrailingBytes((start + len) as u64));
    }
    Ok(start)
}
