//! Opens a registry from complete bytes, and finds its metadata's version.

ghost use Rattle.std.specs.Prelude.{◌≡◌, Some, IfOk, IfErr};
ghost use Rattle.graph_core.specs.References.{first_fault};
ghost use Rattle.scale_calls.specs.Opened.{RefusesCheck, RefusesRegistry, RefusesTypes, checked_of};
ghost use Rattle.scale_calls.specs.Opened.{file_end, file_types, file_version, types_by};
ghost use Rattle.scale_calls.specs.Opened.{types_of, unless_fault};

use crate::refusal::RegistryRefusal;
use registry_core::{Registry, Version, read_metadata, read_registry};
use std::alloc::Global;
use widths_core::Checked;

/// How the bytes of a registry are opened.
#[derive(Clone, Copy, Debug, PartialEq, Eq)]
pub struct OpenOptions {
    /// Whether the registry follows the prefix of metadata. What follows it is then not read.
    pub metadata: bool,
    /// Whether bit sequences of a known store and order are read
    /// ([`with_bits`](registry_core::Registry::with_bits)). Values of all others stay rejected.
    pub bits: bool,
}

/// A checked registry, and what its bytes were.
#[derive(Drop)]
pub struct OpenedRegistry {
    /// The registry.
    pub checked: Checked,
    /// The metadata's version, or `None` if the registry stands alone.
    pub version: Option<Version>,
    /// Where the registry ends, in bytes from the start of the input.
    pub end: usize,
}

/// Allows bits in a registry, if they are wanted.
pub(crate) fn allowed(registry: Registry, bits: bool) -> Registry
    ensures { result ≡ types_by bits registry }
{
    if bits {
        return registry.with_bits();
    }
    registry
}

/// Reads the registry that all the bytes spell or, in metadata, the one after the prefix. Returns
/// it with the metadata's version and where it ends.
fn registry_of(
    alloc: Global,
    options: OpenOptions,
    bytes: &[u8],
) -> Result<(Registry, Option<Version>, usize), RegistryRefusal>
    ensures ok { IfOk result (λ x. file_types options.metadata bytes.now ≡ Some x.0) }
    ensures version { IfOk result (λ x. file_version options.metadata bytes.now ≡ x.1) }
    ensures end { IfOk result (λ x. file_end options.metadata bytes.now ≡ Some x.2) }
    ensures err { IfErr result (RefusesTypes options bytes.now) }
{
    if options.metadata {
        let (registry, end, version) = read_metadata(alloc, bytes)?;
        return Ok((registry, Some(version), end));
    }
    let (registry, end) = read_registry(alloc, bytes)?;
    if end < bytes.len() {
        return Err(RegistryRefusal::TrailingBytes(end as u64));
    }
    Ok((registry, None, end))
}

/// Checks the references of a registry.
fn checked(alloc: Global, registry: Registry) -> Result<Checked, RegistryRefusal>
    ensures ok { IfOk result (λ types. unless_fault (first_fault registry) registry
        ≡ Some types.types) }
    ensures err { IfErr result (RefusesCheck registry) }
{
    match Checked::new(alloc, registry) {
        Ok(checked) => Ok(checked),
        Err((fault, _)) => Err(RegistryRefusal::from(fault)),
    }
}

/// Reads and checks the registry that all the bytes hold. In metadata it is the one after the
/// prefix; what follows it is not read.
///
/// # Errors
///
/// The first that applies:
///
/// - `Fault`: the first fault of the bytes.
/// - `TrailingBytes` at the registry's length, if bytes follow one that stands alone.
/// - `Check`: the first reference to a type that the registry lacks.
/// - `Memory` if an allocation fails.
#[tactic(auto, unfolding(crate::specs::Opened::checked_of))]
pub fn open_registry(
    alloc: Global,
    options: OpenOptions,
    bytes: &[u8],
) -> Result<OpenedRegistry, RegistryRefusal>
    ensures ok { IfOk result (λ x. checked_of options bytes.now ≡ Some x.checked.types) }
    ensures version { IfOk result (λ x. file_version options.metadata bytes.now ≡ x.version) }
    ensures end { IfOk result (λ x. file_end options.metadata bytes.now ≡ Some x.end) }
    ensures err { IfErr result (RefusesRegistry options bytes.now) }
{
    let (registry, version, end) = registry_of(alloc, options, bytes)?;
    Ok(OpenedRegistry {
        checked: checked(alloc, allowed(registry, options.bits))?,
        version,
        end,
    })
}
