//! The value of a job, decoded from its file.

ghost use Rattle.std.specs.Prelude.{◌≡◌, ◌⊎◌, ◌<◌, length, true, false, Some, None, IfOk};
ghost use Rattle.std.specs.Prelude.{IfErr, IfSome, IsErrOf};
ghost use Rattle.decode_core.specs.Streaming.{FailsAfter, StopsOpen, query_of};
ghost use Rattle.decode_core.specs.declared.fault.OpenFault.{OpenFault as AnOpenFault};
ghost use Rattle.scale_tool.specs.Devices.{FailsReading};
ghost use Rattle.scale_calls.specs.Refused.{IsOfBytes};
ghost use Rattle.scale_tool.specs.Refused.{IsRejected, refusal_of_stream};
ghost use Rattle.scale_tool.specs.Refused.{refusal_of_value};
ghost use Rattle.scale_tool.specs.Values.{AreInRange, ReadsBytes, ReadsFile, ReportsFile};
ghost use Rattle.scale_tool.specs.Values.{ReportsUnread, StopsFile, file_bytes, file_value};
ghost use Rattle.scale_tool.specs.Values.{is_gathered};
ghost use Rattle.growth_core.specs.Evidence.{evidence};

use crate::form::ValueJob;
use crate::gathering::{GatherFault, gather_all};
use crate::opaque::opaque_value;
use crate::refusal::Refusal;
use decode_core::{OpenFault, StreamFault, decode_all};
use hex_text::hex_bytes;
use registry_core::TypeId;
use scale_calls::{ValueRefusal, read_value};
use scale_core::{ReadOnce, Source};
use std::alloc::{Allocator, Global};
use value_core::Value;
use widths_core::Checked;

/// Returns the refusal of a value whose type is in the registry and whose limits are in range.
pub(crate) fn of_value(refusal: ValueRefusal) -> Refusal
    requires { IsOfBytes refusal }
    ensures { result ≡ refusal_of_value refusal }
{
    match refusal {
        ValueRefusal::Fault(fault) => Refusal::Value(fault),
        ValueRefusal::TrailingBytes(at) => Refusal::TrailingValue(at),
        ValueRefusal::Memory(refused) => Refusal::Memory(refused),
        ValueRefusal::UnknownType | ValueRefusal::LimitOutOfRange => unreachable!(),
    }
}

/// Returns the refusal of such a value that is read in pieces.
fn of_stream(fault: StreamFault) -> Refusal
    requires { (why : AnOpenFault) → fault ≡ StreamFault.Open why →
        why ≡ OpenFault.OutOfMemory evidence }
    ensures { result ≡ refusal_of_stream fault }
{
    match fault {
        StreamFault::Open(fault) => of_value(ValueRefusal::from(fault)),
        StreamFault::Decode(fault) => of_value(ValueRefusal::from(fault)),
        StreamFault::TrailingBytes { at } => of_value(ValueRefusal::TrailingBytes(at)),
        StreamFault::Device => Refusal::ValueDevice,
    }
}

/// Reads the value that the bytes of the source spell, in pieces.
fn streamed_value<'r, A: Allocator + Clone, V: ReadOnce>(
    alloc: A,
    checked: &'r Checked,
    job: ValueJob,
    source: &mut Source<V>,
) -> Result<Value<'r, A>, Refusal>
    requires known { job.id < length checked.now.types }
    requires limits { AreInRange job.limits }
    requires streamed { is_gathered job.form ≡ false }
    ensures value { IfSome (V.remaining source.old.device) (λ file. ReadsFile
        (file_value job.form (query_of checked.now.types job.id job.limits) file) result) }
    ensures reports { IfErr result (ReportsFile job.form
        (query_of checked.now.types job.id job.limits) (V.remaining source.old.device)) }
    ensures stopped { IsErrOf result Refusal.ValueDevice →
        StopsOpen (query_of checked.now.types job.id job.limits)
        (FailsAfter V.reads source.old.device source.new.device)
        (V.remaining source.old.device) (V.remaining source.new.device) }
    ensures reported { IsErrOf result Refusal.ValueDevice → source.new.failed ≡ true }
    ensures quiet { IsErrOf result Refusal.ValueDevice
        ⊎ (source.new.failed ≡ source.old.failed) }
{
    match decode_all(alloc, checked, TypeId(job.id), job.limits, source) {
        Ok(value) => Ok(value),
        Err(fault) => Err(of_stream(fault)),
    }
}

/// Reads the file to its end, and returns its bytes, or with `hex` those that its digits stand for.
fn file_bytes<V: ReadOnce>(
    alloc: Global,
    hex: bool,
    source: &mut Source<V>,
) -> Result<Vec<u8>, Refusal>
    ensures ok { IfOk result (λ bytes. IfSome (V.remaining source.old.device)
        (λ file. file_bytes hex file ≡ Some bytes.items)) }
    ensures refused { IfErr result (λ e. IsRejected e →
        IfSome (V.remaining source.old.device) (λ file. file_bytes hex file ≡ None)) }
    ensures reports { IfErr result (ReportsUnread hex (V.remaining source.old.device)) }
    ensures stopped { IsErrOf result Refusal.ValueDevice →
        FailsReading V.reads source.old source.new }
    ensures quiet { IsErrOf result Refusal.ValueDevice
        ⊎ (source.new.failed ≡ source.old.failed) }
{
    let mut bytes = Vec::new(alloc);
    match gather_all(source, &mut bytes) {
        Ok(()) if hex => Ok(hex_bytes(alloc, bytes.as_slice())?),
        Ok(()) => Ok(bytes),
        Err(GatherFault::Device) => Err(Refusal::ValueDevice),
        Err(GatherFault::Memory(refused)) => Err(Refusal::Memory(refused)),
    }
}

/// Reads the value that all the bytes spell, which is opaque or stands alone.
pub(crate) fn spelled_value<'r, A: Allocator + Clone>(
    alloc: A,
    checked: &'r Checked,
    job: ValueJob,
    bytes: &[u8],
) -> Result<Value<'r, A>, ValueRefusal>
    requires known { job.id < length checked.now.types }
    requires limits { AreInRange job.limits }
    ensures reads { ReadsBytes job.form.opaque (query_of checked.now.types job.id job.limits)
        bytes.now result }
    ensures of_bytes { IfErr result IsOfBytes }
{
    if job.form.opaque {
        return opaque_value(alloc, checked, job, bytes);
    }
    read_value(alloc, checked, job.id, job.limits, bytes)
}

/// Reads the value of the job from its file. The bytes of the file are allocated by `alloc`, and
/// the value by `memory` and its clones. Digits and opaque values are read to the end of the file
/// before the value is decoded.
///
/// # Errors
///
/// - `Hex`: the file's digits spell no bytes. The place is in the file.
/// - `Value`: the bytes are rejected. The place is from their first one.
/// - `TrailingValue`: bytes follow the value, at its end.
/// - `ValueDevice`: a read failed.
/// - `Memory`: an allocation failed.
pub(crate) fn read_value_file<'r, A: Allocator + Clone, V: ReadOnce>(
    alloc: Global,
    memory: A,
    checked: &'r Checked,
    job: ValueJob,
    source: &mut Source<V>,
) -> Result<Value<'r, A>, Refusal>
    requires known { job.id < length checked.now.types }
    requires limits { AreInRange job.limits }
    ensures value { IfSome (V.remaining source.old.device) (λ file. ReadsFile
        (file_value job.form (query_of checked.now.types job.id job.limits) file) result) }
    ensures reports { IfErr result (ReportsFile job.form
        (query_of checked.now.types job.id job.limits) (V.remaining source.old.device)) }
    ensures stopped { IsErrOf result Refusal.ValueDevice → StopsFile (is_gathered job.form)
        (query_of checked.now.types job.id job.limits)
        (FailsAfter V.reads source.old.device source.new.device)
        (V.remaining source.old.device) (V.remaining source.new.device) }
    ensures reported { IsErrOf result Refusal.ValueDevice → source.new.failed ≡ true }
    ensures quiet { IsErrOf result Refusal.ValueDevice
        ⊎ (source.new.failed ≡ source.old.failed) }
{
    if !job.form.is_gathered() {
        return streamed_value(memory, checked, job, source);
    }
    let bytes = file_bytes(alloc, job.form.hex, source)?;
    match spelled_value(memory, checked, job, bytes.as_slice()) {
        Ok(value) => Ok(value),
        Err(refusal) => Err(of_value(refusal)),
    }
}
