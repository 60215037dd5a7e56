//! Reads the registry of a job, checks it, and finds its metadata's version.

ghost use Rattle.std.specs.Prelude.{◌≡◌, ◌⊎◌, ◌<◌, ◌≤◌, length, true, None, Some, IfOk, IfErr};
ghost use Rattle.std.specs.Prelude.{IfSome, IsErrOf};
ghost use Rattle.scale_calls.specs.Opened.{RefusesRegistry, checked_of, file_version};
ghost use Rattle.scale_tool.specs.Answer.{types_with, with_position};
ghost use Rattle.scale_tool.specs.Devices.{FailsReading};
ghost use Rattle.scale_tool.specs.Refused.{IsDevice, IsRejected, status_of, status_of_registry};
ghost use Rattle.scale_tool.specs.Reported.{FaultsRegistry, FaultsType};

use crate::gathering::{GatherFault, gather_all};
use crate::refusal::Refusal;
use registry_core::TypeId;
use scale_calls::{OpenOptions, OpenedRegistry, RegistryRefusal, open_registry};
use scale_core::{ReadOnce, Source};
use std::alloc::Global;
use widths_core::Checked;

/// Reads and checks the registry that all the bytes hold.
fn checked_registry(
    alloc: Global,
    options: OpenOptions,
    bytes: &[u8],
) -> Result<OpenedRegistry, RegistryRefusal>
    ensures ok { IfOk result (λ x. checked_of options bytes.now ≡ Some x.checked.types) }
    ensures version { IfOk result (λ x. file_version options.metadata bytes.now ≡ x.version) }
    ensures err { IfErr result (λ e. status_of_registry e ≡ 1 →
        checked_of options bytes.now ≡ None) }
    ensures refuses { IfErr result (RefusesRegistry options bytes.now) }
{
    open_registry(alloc, options, bytes)
}

/// Reads and checks the registry of the source.
pub(crate) fn read_types<R: ReadOnce>(
    alloc: Global,
    options: OpenOptions,
    source: &mut Source<R>,
) -> Result<OpenedRegistry, Refusal>
    ensures ok { IfOk result (λ x. IfSome (R.remaining source.old.device)
        (λ bytes. checked_of options bytes ≡ Some x.checked.types)) }
    ensures version { IfOk result (λ x. IfSome (R.remaining source.old.device)
        (λ bytes. file_version options.metadata bytes ≡ x.version)) }
    ensures refused { IfErr result (λ e. IsRejected e →
        IfSome (R.remaining source.old.device) (λ bytes. checked_of options bytes ≡ None)) }
    ensures faults { IfErr result (FaultsRegistry options (R.remaining source.old.device)) }
    ensures device { IfErr result (λ e. IsDevice e → e ≡ Refusal.RegistryDevice) }
    ensures reported { IsErrOf result Refusal.RegistryDevice →
        FailsReading R.reads source.old source.new }
    ensures quiet { IsErrOf result Refusal.RegistryDevice
        ⊎ (source.new.failed ≡ source.old.failed) }
{
    let mut bytes = Vec::new(alloc);
    match gather_all(source, &mut bytes) {
        Ok(()) => Ok(checked_registry(alloc, options, bytes.as_slice())?),
        Err(GatherFault::Device) => Err(Refusal::RegistryDevice),
        Err(GatherFault::Memory(refused)) => Err(Refusal::Memory(refused)),
    }
}

/// Returns the registry if the position is one of its types.
fn with_position(checked: Checked, id: u32) -> Result<Checked, Refusal>
    ensures ok { IfOk result (λ types. with_position id checked.types ≡ Some types.types) }
    ensures err { IfErr result (λ e. (e ≡ Refusal.UnknownType id)
        × (with_position id checked.types ≡ None) × (length checked.types ≤ id)) }
{
    match checked.class(TypeId(id)) {
        Some(_) => Ok(checked),
        None => Err(Refusal::UnknownType(id)),
    }
}

/// Reads and checks the registry of the source, which must have a type at the position.
pub(crate) fn read_types_with<R: ReadOnce>(
    alloc: Global,
    options: OpenOptions,
    id: u32,
    source: &mut Source<R>,
) -> Result<Checked, Refusal>
    ensures known { IfOk result (λ types. id < length types.types) }
    ensures ok { IfOk result (λ types. IfSome (R.remaining source.old.device)
        (λ bytes. types_with options id bytes ≡ Some types.types)) }
    ensures refused { IfErr result (λ e. IsRejected e →
        IfSome (R.remaining source.old.device) (λ bytes. types_with options id bytes ≡ None)) }
    ensures faults { IfErr result (FaultsType options id (R.remaining source.old.device)) }
    ensures device { IfErr result (λ e. IsDevice e → e ≡ Refusal.RegistryDevice) }
    ensures reported { IsErrOf result Refusal.RegistryDevice →
        FailsReading R.reads source.old source.new }
    ensures quiet { IsErrOf result Refusal.RegistryDevice
        ⊎ (source.new.failed ≡ source.old.failed) }
{
    let opened = read_types(alloc, options, source)?;
    with_position(opened.checked, id)
}
