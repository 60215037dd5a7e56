//! Jobs that metadata's names serve.

ghost use Rattle.std.specs.Prelude.{◌≡◌, ◌⊎◌, ◌<◌, List, ℕ, length, false, true, None, Some, IfOk};
ghost use Rattle.std.specs.Prelude.{IfErr, IfSome, IsErrOf, option_and_then, string_bytes};
ghost use Rattle.chain_core.specs.Names.{Entry, entries_of, entry_of, find};
ghost use Rattle.command_line.specs.declared.task.ValueSource.TheVariants.{Metadata as InMetadata};
ghost use Rattle.decode_core.specs.Streaming.{FailsAfter};
ghost use Rattle.scale_calls.specs.NameLines.{AreLines};
ghost use Rattle.scale_calls.specs.Named.{IsMetadata, Metadata, RefusesMetadata, Shows};
ghost use Rattle.scale_tool.specs.Answer.{HasEntry, HasName, OnBytes, OnNamed, StopsFound};
ghost use Rattle.scale_tool.specs.Answer.{StopsNamed, StopsTyped, found_line, line_in, named_value};
ghost use Rattle.scale_tool.specs.Answer.{is_hex, text_bytes};
ghost use Rattle.scale_tool.specs.Devices.{FailsReading};
ghost use Rattle.scale_tool.specs.Metadatas.{IsNamesText, IsOpened, metadata_of};
ghost use Rattle.scale_tool.specs.Refused.{IsDevice, IsRejected, refusal_of_metadata};
ghost use Rattle.scale_tool.specs.Reported.{FaultsBytes, FaultsFound, FaultsMetadata, FaultsNamed};
ghost use Rattle.scale_tool.specs.Values.{AreInRange};

use crate::form::ValueJob;
use crate::gathering::{GatherFault, gather_all};
use crate::parts::value_job;
use crate::refusal::Refusal;
use crate::text::{Text, held_text, value_text};
use chain_core::{NamedType, Names};
use command_line::{DecodeJob, ValueSource};
use growth_core::Refused;
use registry_core::TypeId;
use scale_calls::{MetadataRefusal, NamedMetadata, open_metadata, push_name_lines};
use scale_core::{ReadOnce, Source};
use std::alloc::Global;
use widths_core::Checked;

/// Opens metadata with its names.
fn opened(alloc: Global, bits: bool, bytes: &[u8]) -> Result<NamedMetadata, MetadataRefusal>
    ensures ok { IfOk result (λ m. (x : Metadata) × IsMetadata bits bytes.now x × Shows m x) }
    ensures refused { IfErr result (λ e. IsRejected (refusal_of_metadata e) →
        metadata_of bits bytes.now ≡ None) }
    ensures err { IfErr result (RefusesMetadata bits bytes.now) }
{
    open_metadata(alloc, bits, bytes)
}

/// Reads metadata to its end, and opens it with its names.
fn read_names<R: ReadOnce>(
    alloc: Global,
    bits: bool,
    registry: &mut Source<R>,
) -> Result<NamedMetadata, Refusal>
    ensures ok { IfOk result (λ m. (x : Metadata)
        × IsOpened bits (R.remaining registry.old.device) x × Shows m x) }
    ensures refused { IfErr result (λ e. IsRejected e →
        IfSome (R.remaining registry.old.device) (λ r. metadata_of bits r ≡ None)) }
    ensures faults { IfErr result (FaultsMetadata bits (R.remaining registry.old.device)) }
    ensures device { IfErr result (λ e. IsDevice e → e ≡ Refusal.RegistryDevice) }
    ensures reported { IsErrOf result Refusal.RegistryDevice →
        FailsReading R.reads registry.old registry.new }
    ensures quiet { IsErrOf result Refusal.RegistryDevice
        ⊎ (registry.new.failed ≡ registry.old.failed) }
{
    let mut bytes = Vec::new(alloc);
    match gather_all(registry, &mut bytes) {
        Ok(()) => Ok(opened(alloc, bits, bytes.as_slice())?),
        Err(GatherFault::Device) => Err(Refusal::RegistryDevice),
        Err(GatherFault::Memory(refused)) => Err(Refusal::Memory(refused)),
    }
}

/// Returns the lines of names.
fn lines_of(alloc: Global, names: &Names) -> Result<String, Refused>
    ensures { IfOk result (λ text. AreLines (entries_of names.now) (string_bytes text)) }
{
    let mut lines = String::new(alloc);
    push_name_lines(alloc, &mut lines, names)?;
    Ok(lines)
}

/// Returns the lines of the names of metadata.
pub(crate) fn names_text<R: ReadOnce>(
    alloc: Global,
    registry: &mut Source<R>,
) -> Result<String, Refusal>
    ensures ok { IfOk result (λ text. IfSome (R.remaining registry.old.device)
        (λ r. IsNamesText r (Some (string_bytes text)))) }
    ensures refused { IfErr result (λ e. IsRejected e →
        IfSome (R.remaining registry.old.device) (λ r. IsNamesText r None)) }
    ensures faults { IfErr result (FaultsMetadata false (R.remaining registry.old.device)) }
    ensures device { IfErr result (λ e. IsDevice e → e ≡ Refusal.RegistryDevice) }
    ensures reported { IsErrOf result Refusal.RegistryDevice →
        FailsReading R.reads registry.old registry.new }
    ensures quiet { IsErrOf result Refusal.RegistryDevice
        ⊎ (registry.new.failed ≡ registry.old.failed) }
{
    let metadata = read_names(alloc, false, registry)?;
    Ok(lines_of(alloc, &metadata.names)?)
}

/// Returns the value of a job, of the type that was found. A value of extrinsics is opaque.
fn named_value(job: &DecodeJob, name: &str, found: &NamedType) -> ValueJob
    ensures { result ≡ named_value job.now name.now (entry_of found.now) }
{
    let mut value = value_job(job, found.id);
    value.form.opaque = job.opaque || name == "extrinsic";
    value
}

/// Returns the text of the value `wanted`, whose name was found.
fn found_text<V: ReadOnce>(
    alloc: Global,
    job: &DecodeJob,
    wanted: ValueJob,
    found: &NamedType,
    checked: &Checked,
    value: &mut Source<V>,
) -> Result<Text, Refusal>
    requires known { wanted.id < length checked.now.types }
    requires limits { AreInRange wanted.limits }
    requires hex { wanted.form.hex ≡ is_hex job.now.source }
    ensures ok { IfOk result (λ text. OnBytes job.now.source (V.remaining value.old.device)
        (λ bytes. option_and_then (line_in wanted checked.now.types) (bytes (entry_of found.now))
        ≡ Some (text_bytes text))) }
    ensures refused { IfErr result (λ e. IsRejected e →
        OnBytes job.now.source (V.remaining value.old.device)
        (λ bytes. option_and_then (line_in wanted checked.now.types) (bytes (entry_of found.now))
        ≡ None)) }
    ensures faults { IfErr result (FaultsBytes job.now.source wanted checked.now.types
        (entry_of found.now).bytes (V.remaining value.old.device)) }
    ensures failed { IsErrOf result Refusal.ValueDevice → (value.new.failed ≡ true)
        × StopsTyped wanted checked.now.types
        (FailsAfter V.reads value.old.device value.new.device)
        (V.remaining value.old.device) (V.remaining value.new.device) }
    ensures quiet { IsErrOf result Refusal.ValueDevice ⊎ (value.new.failed ≡ value.old.failed) }
    ensures unread { job.now.source ≡ InMetadata → value.new ≡ value.old }
{
    match job.source {
        ValueSource::Raw | ValueSource::Hex => {
            value_text(alloc, job.memory, checked, wanted, value)
        }
        ValueSource::Metadata => match &found.bytes {
            Some(bytes) => held_text(alloc, job.memory, checked, wanted, bytes.as_slice()),
            None => Err(Refusal::NoBytes),
        },
    }
}

/// Returns the text of a value of the type that metadata names so.
fn text_by_name<V: ReadOnce>(
    alloc: Global,
    job: &DecodeJob,
    name: &str,
    metadata: &NamedMetadata,
    value: &mut Source<V>,
) -> Result<Text, Refusal>
    requires { AreInRange job.now.limits }
    ensures ok { IfOk result (λ text. OnBytes job.now.source (V.remaining value.old.device)
        (λ bytes. found_line job.now name.now bytes metadata.now.checked.types
        (entries_of metadata.now.names) ≡ Some (text_bytes text))) }
    ensures refused { IfErr result (λ e. IsRejected e →
        OnBytes job.now.source (V.remaining value.old.device)
        (λ bytes. found_line job.now name.now bytes metadata.now.checked.types
        (entries_of metadata.now.names) ≡ None)) }
    ensures faults { IfErr result (FaultsFound job.now name.now metadata.now.checked.types
        (V.remaining value.old.device) (find (entries_of metadata.now.names) name.now)) }
    ensures device { IfErr result (λ e. IsDevice e → e ≡ Refusal.ValueDevice) }
    ensures failed { IsErrOf result Refusal.ValueDevice → (value.new.failed ≡ true)
        × StopsFound job.now name.now metadata.now.checked.types (entries_of metadata.now.names)
        (FailsAfter V.reads value.old.device value.new.device)
        (V.remaining value.old.device) (V.remaining value.new.device) }
    ensures quiet { IsErrOf result Refusal.ValueDevice ⊎ (value.new.failed ≡ value.old.failed) }
    ensures unread { job.now.source ≡ InMetadata → value.new ≡ value.old }
    ensures read_last { (value.new ≡ value.old) ⊎ ((e : Entry) × HasEntry
        metadata.now.checked.types (entries_of metadata.now.names) name.now e) }
{
    let Some(found) = metadata.names.find(name.as_bytes()) else {
        return Err(Refusal::UnknownName);
    };
    let wanted = named_value(job, name, found);
    if metadata.checked.class(TypeId(wanted.id)).is_none() {
        return Err(Refusal::UnknownType(wanted.id));
    }
    found_text(alloc, job, wanted, found, &metadata.checked, value)
}

/// Returns the text of a value whose type has a name.
pub(crate) fn named_text<R: ReadOnce, V: ReadOnce>(
    alloc: Global,
    job: &DecodeJob,
    name: &str,
    registry: &mut Source<R>,
    value: &mut Source<V>,
) -> Result<Text, Refusal>
    requires { AreInRange job.now.limits }
    ensures ok { IfOk result (λ text. OnNamed job.now name.now
        (R.remaining registry.old.device) (V.remaining value.old.device)
        (λ t. t ≡ Some (text_bytes text))) }
    ensures refused { IfErr result (λ e. IsRejected e → OnNamed job.now name.now
        (R.remaining registry.old.device) (V.remaining value.old.device) (λ t. t ≡ None)) }
    ensures faults { IfErr result (FaultsNamed job.now name.now
        (R.remaining registry.old.device) (V.remaining value.old.device)) }
    ensures device { IfErr result (λ e. IsDevice e →
        (e ≡ Refusal.RegistryDevice) ⊎ (e ≡ Refusal.ValueDevice)) }
    ensures registry_failed { IsErrOf result Refusal.RegistryDevice →
        FailsReading R.reads registry.old registry.new }
    ensures value_failed { IsErrOf result Refusal.ValueDevice → (value.new.failed ≡ true)
        × StopsNamed job.now name.now (R.remaining registry.old.device)
        (FailsAfter V.reads value.old.device value.new.device)
        (V.remaining value.old.device) (V.remaining value.new.device) }
    ensures registry { IsErrOf result Refusal.RegistryDevice
        ⊎ (registry.new.failed ≡ registry.old.failed) }
    ensures value { IsErrOf result Refusal.ValueDevice ⊎ (value.new.failed ≡ value.old.failed) }
    ensures unread { job.now.source ≡ InMetadata → value.new ≡ value.old }
    ensures read_last { (value.new ≡ value.old) ⊎ ((registry.new.failed ≡ registry.old.failed)
        × HasName job.now.bits name.now (R.remaining registry.old.device)) }
{
    let metadata = read_names(alloc, job.bits, registry)?;
    text_by_name(alloc, job, name, &metadata, value)
}
