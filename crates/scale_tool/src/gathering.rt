//! Collects all bytes of a source in a vector.

ghost use Rattle.std.specs.Prelude.{◌≡◌, ◌+◌, ◌++◌, ◌<◌, ◌≤◌, ◌⊎◌, true, length, vec_len, IfOk};
ghost use Rattle.std.specs.Prelude.{IfSome, OnOk, IsErrOf, Some};
ghost use Rattle.std.specs.Io.KnownBytes.{IsAtEnd};
ghost use Rattle.decode_core.specs.Streaming.{FailsAt};
ghost use Rattle.scale_tool.specs.Devices.{FailsReading};
ghost use Rattle.scale_tool.specs.Moved.{LeavesReader};

use growth_core::{Refused, extend_from_slice};
use scale_core::{ReadOnce, Source};
use std::alloc::Global;

/// The most bytes that one read asks for.
const PIECE: usize = 4096;

/// Why bytes were not collected.
#[derive(Clone, Copy)]
pub(crate) enum GatherFault {
    /// A read failed.
    Device,
    /// An allocation failed.
    Memory(Refused),
}

/// Reads once, appends the bytes, and returns how many there were; 0 is the end.
fn pull_onto<R: ReadOnce>(
    source: &mut Source<R>,
    part: &mut [u8],
    out: &mut Vec<u8>,
) -> Result<usize, GatherFault>
    requires { 0 < length part.old }
    ensures count { IfOk result (λ n. n ≤ length part.old) }
    ensures bytes { IfOk result (λ n. LeavesReader (R.remaining source.old.device)
        (R.remaining source.new.device) out.old.items out.new.items n) }
    ensures grown { IfOk result (λ n. vec_len out.new ≡ vec_len out.old + n) }
    ensures end { IfOk result (λ n. n ≡ 0 → IsAtEnd (R.remaining source.new.device)) }
    ensures once { IfOk result
        (λ n. R.reads source.old.device part.old (Some n) part.new source.new.device) }
    ensures stopped { IsErrOf result GatherFault.Device →
        FailsAt R.reads source.old.device source.new.device }
    ensures reported { IsErrOf result GatherFault.Device → source.new.failed ≡ true }
    ensures quiet { IsErrOf result GatherFault.Device ⊎ (source.new.failed ≡ source.old.failed) }
{
    match source.pull(part) {
        Ok(count) => match extend_from_slice(out, &part[..count]) {
            Ok(()) => Ok(count),
            Err(refused) => Err(GatherFault::Memory(refused)),
        },
        Err(_) => Err(GatherFault::Device),
    }
}

/// Appends all remaining bytes of the source.
///
/// # Errors
///
/// `Device` if a read fails, and `Memory` if an allocation fails.
pub(crate) fn gather_all<R: ReadOnce>(
    source: &mut Source<R>,
    out: &mut Vec<u8>,
) -> Result<(), GatherFault>
    ensures ok { OnOk result (IfSome (R.remaining source.old.device)
        (λ bytes. out.new.items ≡ out.old.items ++ bytes)) }
    ensures reported { IsErrOf result GatherFault.Device →
        FailsReading R.reads source.old source.new }
    ensures quiet { IsErrOf result GatherFault.Device ⊎ (source.new.failed ≡ source.old.failed) }
{
    let mut part = [0u8; PIECE];
    'pieces: loop {
        if pull_onto(source, &mut part, out)? == 0 {
            return Ok(());
        }
    }
}
