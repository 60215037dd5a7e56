//! The types of what follows the registry in metadata.

ghost use Rattle.std.specs.Prelude.{◌≡◌, IfOk, length};
ghost use Rattle.chain_core.specs.RestTypes.{rest_root, rest_types};

use crate::fault::NamesFault;
use growth_core::Refused;
use registry_core::{Registry, RegistryFault, RegistryReason, TypeId, Version, read_registry};
use std::alloc::Global;
use widths_core::{CheckFault, Checked};

/// The types, as the bytes of a registry, a line each (Substrate, `RuntimeMetadataV14` and
/// `RuntimeMetadataV15`). They have no paths, parameters and docs, and their fields and arms no
/// names:
///
/// - 0 text
/// - 1 byte
/// - 2 number
/// - 3 reference: a compact number
/// - 4 bytes
/// - 5 texts
/// - 6 reference or none
/// - 7 modifier: optional, default, required
/// - 8 hasher: blake2_128, blake2_256, blake2_128_concat, twox_128, twox_256, twox_64_concat,
///   identity
/// - 9 hashers
/// - 10 map: hashers, key, value
/// - 11 type of an entry: reference, or map
/// - 12 entry: name, modifier, type, default, docs
/// - 13 entries
/// - 14 storage: prefix, entries
/// - 15 storage or none
/// - 16 constant: name, reference, bytes, docs
/// - 17 constants
/// - 18 pallet of version 14: name, storage, calls, events, constants, errors, index
/// - 19 pallets of version 14
/// - 20 pallet of version 15: as before, docs
/// - 21 pallets of version 15
/// - 22 extension: name, its type, type of what is signed beside it
/// - 23 extensions
/// - 24 extrinsics of version 14: type, version, extensions
/// - 25 extrinsics of version 15: version, address, call, signature, extra, extensions
/// - 26 parameter: name, reference
/// - 27 parameters
/// - 28 method: name, parameters, result, docs
/// - 29 methods
/// - 30 api: name, methods, docs
/// - 31 apis
/// - 32 outer enums: call, event, error
/// - 33 custom value: name, reference, bytes
/// - 34 custom values
/// - 35 all in version 14: pallets, extrinsics, runtime
/// - 36 all in version 15: pallets, extrinsics, runtime, apis, outer enums, custom values
const REST_TYPES: [u8; 368] = *b"\x94\
    \x00\x00\x00\x05\x02\x00\
    \x04\x00\x00\x05\x03\x00\
    \x08\x00\x00\x05\x05\x00\
    \x0c\x00\x00\x06\x08\x00\
    \x10\x00\x00\x02\x04\x00\
    \x14\x00\x00\x02\x00\x00\
    \x18\x00\x00\x01\x08\x00\x00\x00\x00\x00\x04\x00\x0c\x00\x00\x01\x00\x00\
    \x1c\x00\x00\x01\x0c\x00\x00\x00\x00\x00\x00\x01\x00\x00\x00\x02\x00\x00\
    \x20\x00\x00\x01\x1c\x00\x00\x00\x00\x00\x00\x01\x00\x00\x00\x02\x00\x00\x00\x03\
    \x00\x00\x00\x04\x00\x00\x00\x05\x00\x00\x00\x06\x00\x00\
    \x24\x00\x00\x02\x20\x00\
    \x28\x00\x00\x04\x0c\x24\x0c\x0c\x00\
    \x2c\x00\x00\x01\x08\x00\x04\x00\x0c\x00\x00\x00\x00\x00\x04\x00\x28\x00\x00\x01\x00\x00\
    \x30\x00\x00\x04\x14\x00\x1c\x2c\x10\x14\x00\
    \x34\x00\x00\x02\x30\x00\
    \x38\x00\x00\x04\x08\x00\x34\x00\
    \x3c\x00\x00\x01\x08\x00\x00\x00\x00\x00\x04\x00\x38\x00\x00\x01\x00\x00\
    \x40\x00\x00\x04\x10\x00\x0c\x10\x14\x00\
    \x44\x00\x00\x02\x40\x00\
    \x48\x00\x00\x04\x1c\x00\x3c\x18\x18\x44\x18\x04\x00\
    \x4c\x00\x00\x02\x48\x00\
    \x50\x00\x00\x04\x20\x00\x3c\x18\x18\x44\x18\x04\x14\x00\
    \x54\x00\x00\x02\x50\x00\
    \x58\x00\x00\x04\x0c\x00\x0c\x0c\x00\
    \x5c\x00\x00\x02\x58\x00\
    \x60\x00\x00\x04\x0c\x0c\x04\x5c\x00\
    \x64\x00\x00\x04\x18\x04\x0c\x0c\x0c\x0c\x5c\x00\
    \x68\x00\x00\x04\x08\x00\x0c\x00\
    \x6c\x00\x00\x02\x68\x00\
    \x70\x00\x00\x04\x10\x00\x6c\x0c\x14\x00\
    \x74\x00\x00\x02\x70\x00\
    \x78\x00\x00\x04\x0c\x00\x74\x14\x00\
    \x7c\x00\x00\x02\x78\x00\
    \x80\x00\x00\x04\x0c\x0c\x0c\x0c\x00\
    \x84\x00\x00\x04\x0c\x00\x0c\x10\x00\
    \x88\x00\x00\x02\x84\x00\
    \x8c\x00\x00\x04\x0c\x4c\x60\x0c\x00\
    \x90\x00\x00\x04\x18\x54\x64\x0c\x7c\x80\x88\x00";

/// The position of the references to types of the registry.
pub const REFERENCE: u32 = 3;

/// Returns the position of the type of what follows the registry.
pub fn rest_root(version: Version) -> TypeId
    ensures { result ≡ rest_root version }
{
    match version {
        Version::V14 => TypeId(35),
        Version::V15 => TypeId(36),
    }
}

/// Reads the types.
fn read_types(alloc: Global) -> Result<Registry, Refused>
    ensures { IfOk result (λ registry. registry ≡ rest_types) }
{
    match read_registry(alloc, &REST_TYPES) {
        Ok((registry, _)) => Ok(registry),
        Err(RegistryFault { reason, .. }) => match reason {
            RegistryReason::OutOfMemory(refused) => Err(refused),
            _ => unreachable!(),
        },
    }
}

/// Returns the types of what follows the registry in metadata, as a checked registry.
///
/// # Errors
///
/// `OutOfMemory` if an allocation fails.
pub fn rest_types(alloc: Global) -> Result<Checked, NamesFault>
    ensures exact { IfOk result (λ checked. checked.types ≡ rest_types) }
    ensures count { length rest_types ≡ 37 }
{
    let registry = read_types(alloc)?;
    match Checked::new(alloc, registry) {
        Ok(checked) => Ok(checked),
        Err((CheckFault::OutOfMemory(refused), _)) => Err(NamesFault::OutOfMemory(refused)),
        Err((CheckFault::TooLarge(many), _)) => Err(NamesFault::TooLarge(many)),
        Err((CheckFault::UnknownType { .. }, _)) => unreachable!(),
    }
}
