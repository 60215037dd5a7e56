//! Registries, read from left to right in one pass.

ghost use Rattle.std.specs.Prelude.{◌≡◌, ◌++◌, ℕ, List, length, take, IfOk};
ghost use Rattle.registry_core.specs.Answers.{RegistryAnswers, MetadataAnswers, IsUnlessMemory};
ghost use Rattle.registry_core.specs.AsRead.{ReadRegistry};
ghost use Rattle.registry_core.specs.Gives.{Gives};
ghost use Rattle.registry_core.specs.Reading.{registry_at, metadata_at};
ghost use Rattle.registry_core.specs.Spelling.{spelling, metadata};
ghost use Rattle.types_core.specs.declared.type_info.TypeInfo.{TypeInfo};
ghost use Rattle.registry_core.specs.declared.version.Version.{Version as AVersion};

mod atoms;
mod definitions;
mod lists;
mod prefix;
mod read_stop;
mod types;

use crate::fault::RegistryFault;
use crate::version::Version;
use atoms::length_of;
use prefix::prefix_of;
use read_stop::ReadStop;
use std::alloc::Global;
use types::types_of;
use types_core::Registry;

/// Reads a registry: the number of types, and the types. Returns it with the bytes after it.
///
/// # Errors
///
/// Those of [`read_registry`], as a [`ReadStop`].
#[tactic(auto, unfolding(crate::specs::Reading::registry_at))]
fn registry_of(alloc: Global, bytes: &[u8]) -> Result<(Registry, &[u8]), ReadStop<'_>>
    ensures { Gives (λ x. (x.0, x.1.now)) result (registry_at bytes.now) }
{
    let (count, rest) = length_of(bytes)?;
    let (types, rest) = types_of(alloc, count, rest)?;
    Ok((Registry::from_types(types), rest))
}

/// Reads the registry after the prefix of metadata. Returns it with the version in the prefix and
/// the bytes after it.
///
/// # Errors
///
/// Those of [`read_metadata`], as a [`ReadStop`].
#[tactic(auto, unfolding(crate::specs::Reading::metadata_at))]
fn metadata_of(alloc: Global, bytes: &[u8]) -> Result<(Registry, Version, &[u8]), ReadStop<'_>>
    ensures { Gives (λ x. ((x.0, x.1), x.2.now)) result (metadata_at bytes.now) }
{
    let (version, rest) = prefix_of(bytes)?;
    let (registry, rest) = registry_of(alloc, rest)?;
    Ok((registry, version, rest))
}

/// Reads a registry from the start of `bytes`, and returns it with the number of bytes that it took
/// (scale-info, `PortableRegistry` in its portable form).
///
/// Bytes after the registry are not read. Lists grow with the elements that were read, whatever
/// length is claimed, and have no spare capacity when they are complete.
///
/// # Errors
///
/// The first error from the left, with its place in bytes from the start of `bytes`; nothing is
/// kept.
///
/// - `Truncated`, at the length of `bytes`, if they end inside the registry.
/// - `CompactTooLarge`, at the first byte of a length or an id, if it claims more than four bytes
///   of value, as `07` does. This holds whatever follows, and if nothing follows.
/// - `CompactTooLarge`, at the same place, if the value is above 4294967295.
/// - `CompactNotShortest`, at the first byte of any other length or id that is longer than its
///   value needs.
/// - `BadUtf8`, at the first byte after the longest valid prefix of a complete text.
/// - `BadOption`, at an option's byte that is neither `00` nor `01`.
/// - `BadDefinition`, at a definition's byte above `07`.
/// - `BadPrimitive`, at a primitive's byte above `0e`.
/// - `IdOutOfPlace`, at the first byte of a type's id that is not the type's position. It comes
///   before any error in the type itself.
/// - `OutOfMemory`, at 0, if an allocation fails.
///
/// # Examples
///
/// A registry of one type, a u32, and a byte after it:
///
/// ```
/// let (registry, taken) = read_registry(alloc, b"\x04\x00\x00\x00\x05\x05\x00\xff")?;
/// assert_eq!(rt; (registry.types().len(), taken), (1, 7));
/// ```
// It takes one pass from left to right, and copies each text once.
pub fn read_registry(alloc: Global, bytes: &[u8]) -> Result<(Registry, usize), RegistryFault>
    // The registry, or the error.
    ensures exact { RegistryAnswers bytes.now result (registry_at bytes.now) }
    // What is read is encoded by the bytes that it took.
    ensures found { IfOk result (λ x. ReadRegistry x.0 × (take x.1 bytes.now ≡ spelling x.0)) }
    // What is encoded is read, whatever follows it.
    ensures only { (types : List TypeInfo) (rest : List ℕ)
        → ReadRegistry types
        → bytes.now ≡ spelling types ++ rest
        → IsUnlessMemory (types, length (spelling types)) result }
{
    match registry_of(alloc, bytes) {
        Ok((registry, rest)) => Ok((registry, bytes.len() - rest.len())),
        Err(stop) => Err(stop.into_fault(bytes)),
    }
}

/// Reads the registry of metadata, and returns it with the number of bytes that it and the prefix
/// took, and the version (Substrate, `RuntimeMetadataPrefixed`).
///
/// Version 14 begins with `6d 65 74 61 0e` and version 15 with `6d 65 74 61 0f`. In both the
/// registry follows immediately. Bytes after the registry are not read.
///
/// # Errors
///
/// The first that applies; nothing is kept.
///
/// - `NotMetadata`, at the first of the first four bytes that is present and differs from `meta`.
/// - `Truncated`, at the length of `bytes`, if it is less than five.
/// - `WrongVersion`, at 4, if the fifth byte is neither `0e` nor `0f`.
/// - The errors of [`read_registry`] after the prefix, with places in bytes from the start of
///   `bytes`.
/// - `OutOfMemory`, at 0, if an allocation fails.
///
/// # Examples
///
/// ```
/// let bytes = b"meta\x0e\x04\x00\x00\x00\x05\x05\x00";
/// let (registry, taken, version) = read_metadata(alloc, bytes)?;
/// assert_eq!(rt; (registry.types().len(), taken, version.number()), (1, 12, 14));
/// ```
pub fn read_metadata(
    alloc: Global,
    bytes: &[u8],
) -> Result<(Registry, usize, Version), RegistryFault>
    // The registry and the version, or the error.
    ensures exact { MetadataAnswers bytes.now result (metadata_at bytes.now) }
    // What is read is encoded by the bytes that it took.
    ensures found { IfOk result (λ x. ReadRegistry x.0 × (take x.1 bytes.now ≡ metadata x.2 x.0)) }
    // What is encoded is read, whatever follows it.
    ensures only { (types : List TypeInfo) (version : AVersion) (rest : List ℕ)
        → ReadRegistry types
        → bytes.now ≡ metadata version types ++ rest
        → IsUnlessMemory (types, length (metadata version types), version) result }
{
    match metadata_of(alloc, bytes) {
        Ok((registry, version, rest)) => Ok((registry, bytes.len() - rest.len(), version)),
        Err(stop) => Err(stop.into_fault(bytes)),
    }
}
