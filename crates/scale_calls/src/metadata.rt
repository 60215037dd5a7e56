//! Opens metadata with the names that it gives to types.

ghost use Rattle.std.specs.Prelude.{◌≡◌, ◌+◌, ◌++◌, ◌<◌, ◌≤◌, ◌^◌, drop, length, true, Some, IfOk};
ghost use Rattle.std.specs.Prelude.{IfErr};
ghost use Rattle.std.specs.List.{AllByRecursion};
ghost use Rattle.types_core.specs.Fits.{FitsType};
ghost use Rattle.chain_core.specs.Listed.{things};
ghost use Rattle.chain_core.specs.Names.{entries_of};
ghost use Rattle.chain_core.specs.RestTypes.{rest_types};
ghost use Rattle.chain_core.specs.Synthetic.{synthetic};
ghost use Rattle.scale_calls.specs.Named.{IsKnown, IsMetadata, Metadata, RefusesMetadata, Shows};
ghost use Rattle.scale_calls.specs.Named.{RefusesReferences, RefusesRest, all_names, all_types};
ghost use Rattle.scale_calls.specs.Named.{metadata_refusal, rest_in, shifted};
ghost use Rattle.scale_calls.specs.Opened.{file_end};

use crate::refusal::{UnknownReference, ValueRefusal};
use crate::registry::allowed;
use crate::value::read_value;
use chain_core::{
    Names, NamesFault, list_things, rest_root, rest_types, synthetic_types, unknown_in_rest,
    unknown_in_types,
};
use decode_core::DecodeFault;
use graph_core::{TooMany, number};
use growth_core::{Refused, append};
use registry_core::{Registry, RegistryFault, RegistryReason, TypeInfo, Version, read_metadata};
use std::alloc::Global;
use value_core::{Limits, Value};
use widths_core::{CheckFault, Checked};

/// Why bytes are no metadata with names. Places are counted from the first byte of the metadata.
#[derive(Clone, Copy, Debug, PartialEq, Eq)]
pub enum MetadataRefusal {
    /// The first fault of the prefix or of the registry.
    Registry(RegistryFault),
    /// The first fault of what follows the registry.
    Rest(DecodeFault),
    /// Bytes follow the metadata, which ends at this place.
    TrailingBytes(u64),
    /// What follows the registry refers, at the place `at`, to a type that the registry lacks.
    UnknownReference { ty: u32, at: u64 },
    /// A type refers to one that the registry lacks.
    Check(UnknownReference),
    /// There are more types, references, names, fields or bytes of a name than numbers of 32 bits.
    TooLarge(TooMany),
    /// An allocation failed.
    Memory(Refused),
}

impl From<Refused> for MetadataRefusal {
    ghost use Rattle.scale_calls.specs.declared.metadata.MetadataRefusal.TheVariants.{Memory};

    ghost from_gives = { λ refused r. r ≡ Memory refused };

    fn from(refused: Refused) -> MetadataRefusal {
        MetadataRefusal::Memory(refused)
    }
}

impl From<NamesFault> for MetadataRefusal {
    ghost use Rattle.scale_calls.specs.Named.{names_refusal};

    ghost from_gives = { λ fault r. r ≡ names_refusal fault };

    fn from(fault: NamesFault) -> MetadataRefusal {
        match fault {
            NamesFault::TooLarge(many) => MetadataRefusal::TooLarge(many),
            NamesFault::OutOfMemory(refused) => MetadataRefusal::Memory(refused),
        }
    }
}

/// Metadata with the names that it gives to types.
#[derive(Drop)]
pub struct NamedMetadata {
    /// The types of its registry, and the synthetic ones after them.
    pub checked: Checked,
    pub version: Version,
    /// Where the registry ends, in bytes from the start of the metadata.
    pub end: usize,
    /// How many types the registry has.
    pub own: u32,
    pub names: Names,
}

/// The types of metadata: those of its registry, and the synthetic ones after them.
#[derive(Drop)]
struct NamedTypes {
    checked: Checked,
    names: Names,
}

/// Returns the refusal of a fault of the registry; a failed allocation is no fault of the bytes.
fn registry_refusal(fault: RegistryFault) -> MetadataRefusal
    ensures { result ≡ metadata_refusal fault }
{
    match fault.reason {
        RegistryReason::OutOfMemory(refused) => MetadataRefusal::Memory(refused),
        _ => MetadataRefusal::Registry(fault),
    }
}

/// Returns a place behind the first `end` bytes.
fn shifted(end: usize, at: u64) -> u64
    ensures { result ≡ shifted end at }
{
    at.saturating_add(end as u64)
}

/// Returns the bytes from a place on.
fn from_place(bytes: &[u8], end: usize) -> &[u8]
    requires { end ≤ length bytes.now }
    ensures { result.now ≡ drop end bytes.now }
{
    let (_, left) = bytes.split_at(end);
    left
}

/// Reads what follows the registry, which is all of `bytes`. They begin at the place `end`.
fn read_rest<'r>(
    alloc: Global,
    types: &'r Checked,
    version: Version,
    bytes: &[u8],
    end: usize,
) -> Result<Value<'r, Global>, MetadataRefusal>
    requires same { types.now.types ≡ rest_types }
    requires count { length rest_types ≡ 37 }
    ensures ok { IfOk result (λ rest. rest_in version bytes.now ≡ Some rest) }
    ensures err { IfErr result (RefusesRest version bytes.now end) }
{
    let limits = Limits {
        depth: 64,
        bytes: 1 << 28,
    };
    match read_value(alloc, types, rest_root(version).0, limits, bytes) {
        Ok(rest) => Ok(rest),
        Err(ValueRefusal::Fault(fault)) => Err(MetadataRefusal::Rest(DecodeFault {
            reason: fault.reason,
            at: shifted(end, fault.at),
        })),
        Err(ValueRefusal::TrailingBytes(at)) => {
            Err(MetadataRefusal::TrailingBytes(shifted(end, at)))
        }
        Err(ValueRefusal::Memory(refused)) => Err(MetadataRefusal::Memory(refused)),
        Err(ValueRefusal::UnknownType | ValueRefusal::LimitOutOfRange) => unreachable!(),
    }
}

/// Appends types to those of a registry.
fn extended(registry: Registry, more: Vec<TypeInfo>) -> Result<Registry, Refused>
    requires fits { AllByRecursion FitsType more.items }
    requires few { length registry + length more.items < 2 ^ 32 }
    ensures { IfOk result (λ r. r ≡ registry ++ more.items) }
{
    let mut types = registry.into_types();
    let mut more = more;
    append(&mut types, &mut more)?;
    Ok(Registry::from_types(types))
}

/// Returns the synthetic types of metadata, and its names.
fn made_types(
    alloc: Global,
    version: Version,
    own: &[TypeInfo],
    rest: &Value<'_, Global>,
) -> Result<(Vec<TypeInfo>, Names), NamesFault>
    ensures types { IfOk result
        (λ made. made.0.items ≡ synthetic own.now (things version own.now rest.now)) }
    ensures names { IfOk result (λ made. entries_of made.1
        ≡ all_names (record { version = version; own = own.now; rest = rest.now })) }
    ensures fits { IfOk result (λ made. AllByRecursion FitsType made.0.items) }
    ensures few { IfOk result (λ made. length own.now + length made.0.items < 2 ^ 32) }
{
    let root = rest.root();
    let things = list_things(alloc, version, own, &root)?;
    // A registry has at most 2^32 - 1 types.
    let _most = number(own.len() + things.len() + 4)?;
    let made = synthetic_types(alloc, own, things.as_slice())?;
    let names = Names::new(alloc, things, own.len() as u32)?;
    Ok((made, names))
}

/// Checks the references of metadata, whose registry ends at the place `end`, and appends the
/// synthetic types to those of the registry.
fn check_references(
    alloc: Global,
    version: Version,
    registry: Registry,
    rest: &Value<'_, Global>,
    end: usize,
) -> Result<NamedTypes, MetadataRefusal>
    ensures ok { IfOk result (λ t.
        (t.checked.types
        ≡ all_types (record { version = version; own = registry; rest = rest.now }))
        × (entries_of t.names
        ≡ all_names (record { version = version; own = registry; rest = rest.now }))
        × IsKnown (record { version = version; own = registry; rest = rest.now })) }
    ensures err { IfErr result (RefusesReferences
        (record { version = version; own = registry; rest = rest.now }) end) }
{
    if let Some(unknown) = unknown_in_rest(rest, registry.types().len()) {
        return Err(MetadataRefusal::UnknownReference {
            ty: unknown.ty,
            at: shifted(end, unknown.place),
        });
    }
    if let Some((from, to)) = unknown_in_types(registry.types()) {
        return Err(MetadataRefusal::Check(UnknownReference { from, to }));
    }
    let (made, names) = made_types(alloc, version, registry.types(), rest)?;
    let registry = extended(registry, made)?;
    match Checked::new(alloc, registry) {
        Ok(checked) => Ok(NamedTypes { checked, names }),
        Err((CheckFault::UnknownType { from, to }, _)) => {
            Err(MetadataRefusal::Check(UnknownReference {
                from: from.0,
                to: to.0,
            }))
        }
        Err((CheckFault::TooLarge(many), _)) => Err(MetadataRefusal::TooLarge(many)),
        Err((CheckFault::OutOfMemory(refused), _)) => Err(MetadataRefusal::Memory(refused)),
    }
}

/// Opens metadata, what follows whose registry has these types.
fn open_with(
    alloc: Global,
    types: &Checked,
    bits: bool,
    bytes: &[u8],
) -> Result<NamedMetadata, MetadataRefusal>
    requires same { types.now.types ≡ rest_types }
    requires count { length rest_types ≡ 37 }
    ensures ok { IfOk result (λ m. (x : Metadata) × IsMetadata bits bytes.now x × Shows m x) }
    ensures end { IfOk result (λ m. file_end true bytes.now ≡ Some m.end) }
    ensures err { IfErr result (RefusesMetadata bits bytes.now) }
{
    let (registry, end, version) = match read_metadata(alloc, bytes) {
        Ok(read) => read,
        Err(fault) => return Err(registry_refusal(fault)),
    };
    let left = from_place(bytes, end);
    let rest = read_rest(alloc, types, version, left, end)?;
    let registry = allowed(registry, bits);
    let own = registry.types().len() as u32;
    let NamedTypes { checked, names } = check_references(alloc, version, registry, &rest, end)?;
    Ok(NamedMetadata {
        checked,
        version,
        end,
        own,
        names,
    })
}

/// Opens metadata with the names that it gives to types: reads its registry and what follows that.
/// With `bits`, bit sequences of a known store and order are read.
///
/// # Errors
///
/// The first that applies:
///
/// - `Registry`: the first fault of the prefix or of the registry.
/// - `Rest`: the first fault of what follows the registry.
/// - `TrailingBytes` at the end of that, if bytes follow it.
/// - `UnknownReference`: the first reference there to a type that the registry lacks.
/// - `Check`: the first reference of a type to one that the registry lacks.
/// - `TooLarge` if there are more types, references, names, fields or bytes of a name than numbers
///   of 32 bits.
/// - `Memory` if an allocation fails.
pub fn open_metadata(
    alloc: Global,
    bits: bool,
    bytes: &[u8],
) -> Result<NamedMetadata, MetadataRefusal>
    ensures ok { IfOk result (λ m. (x : Metadata) × IsMetadata bits bytes.now x × Shows m x) }
    ensures end { IfOk result (λ m. file_end true bytes.now ≡ Some m.end) }
    ensures err { IfErr result (RefusesMetadata bits bytes.now) }
{
    let types = rest_types(alloc)?;
    open_with(alloc, &types, bits, bytes)
}
