//! The parts of storage keys.

ghost use Rattle.std.specs.Prelude.{◌≡◌, IfOk, length, option_map};
ghost use Rattle.node_core.specs.Shown.{children_of};
ghost use Rattle.chain_core.specs.Keys.{entry_value, hashers_in, key_part, key_parts, map_of};
ghost use Rattle.chain_core.specs.Keys.{map_parts, members_of, parts_by};

use crate::parts::{child, reference_at};
use growth_core::{Refused, push, with_capacity};
use node_core::{NodeRef, What};
use registry_core::{TypeDef, TypeId, TypeInfo};
use std::alloc::Global;

/// How many bytes a hash has.
#[derive(Clone, Copy, Debug, PartialEq, Eq)]
pub enum HashLength {
    Bytes8,
    Bytes16,
    Bytes32,
}

/// A part of a storage key: a hash, the key itself, or the key after its hash.
#[derive(Clone, Copy, Debug, PartialEq, Eq)]
pub struct KeyPart {
    pub hash: Option<HashLength>,
    /// The type of the key, if it stands in the storage key.
    pub key: Option<u32>,
}

/// Returns the part of a storage key that a hasher makes of a key of this type (Substrate,
/// `StorageHasher`).
fn key_part(hasher: u32, key: TypeId) -> KeyPart
    ensures { result ≡ key_part hasher key.0 }
{
    let (hash, keeps_key) = match hasher {
        // Blake2_128, Blake2_256, Blake2_128Concat.
        0 => (Some(HashLength::Bytes16), false),
        1 => (Some(HashLength::Bytes32), false),
        2 => (Some(HashLength::Bytes16), true),
        // Twox128, Twox256, Twox64Concat.
        3 => (Some(HashLength::Bytes16), false),
        4 => (Some(HashLength::Bytes32), false),
        5 => (Some(HashLength::Bytes8), true),
        // Identity.
        _ => (None, true),
    };
    KeyPart {
        hash,
        key: if keeps_key { Some(key.0) } else { None },
    }
}

/// Returns the positions of the hashers.
fn hashers_of(alloc: Global, list: &NodeRef<'_, '_>) -> Result<Vec<u32>, Refused>
    ensures { IfOk result (λ hs. hs.items ≡ hashers_in (children_of list.now)) }
{
    let mut hashers = Vec::new(alloc);
    'hashers: for hasher in list.children() {
        if let What::Arm { position } = hasher.what() {
            push(&mut hashers, position)?;
        }
    }
    Ok(hashers)
}

/// Returns the parts that the hashers make of keys of these types.
fn parts_by(alloc: Global, hashers: &[u32], keys: &[TypeId]) -> Result<Vec<KeyPart>, Refused>
    requires { length keys.now ≡ length hashers.now }
    ensures { IfOk result (λ parts. parts.items ≡ parts_by hashers.now keys.now) }
{
    let mut parts = with_capacity(alloc, hashers.len())?;
    'hashers: for (position, hasher) in hashers.iter().enumerate() {
        push(&mut parts, key_part(*hasher, keys[position]))?;
    }
    Ok(parts)
}

/// Returns the members of the tuple at a position, if it has this many.
fn members_of(own: &[TypeInfo], id: u32, count: usize) -> Option<&[TypeId]>
    ensures { option_map (λ ts. ts.now) result ≡ members_of own.now id count }
{
    match &own.get(id as usize)?.shape {
        TypeDef::Tuple(members) if members.len() == count => Some(members.as_slice()),
        _ => None,
    }
}

/// Returns the parts of the keys of a map, or `None` if the key is no tuple with a member for each
/// hasher. With one hasher it is the key itself.
fn map_parts(
    alloc: Global,
    own: &[TypeInfo],
    hashers: &[u32],
    key: u32,
) -> Result<Option<Vec<KeyPart>>, Refused>
    ensures { IfOk result (λ found.
        option_map (λ parts. parts.items) found ≡ map_parts own.now hashers.now key) }
{
    if hashers.len() == 1 {
        return Ok(Some(parts_by(alloc, hashers, &[TypeId(key)])?));
    }
    match members_of(own, key, hashers.len()) {
        Some(keys) => Ok(Some(parts_by(alloc, hashers, keys)?)),
        None => Ok(None),
    }
}

/// Returns what follows the hashes of the pallet and the entry in the keys of a storage entry, by
/// the entry's type; or `None` if that is not known. An entry of one value has nothing there.
pub(crate) fn key_parts(
    alloc: Global,
    own: &[TypeInfo],
    ty: &NodeRef<'_, '_>,
) -> Result<Option<Vec<KeyPart>>, Refused>
    ensures { IfOk result (λ found.
        option_map (λ parts. parts.items) found ≡ key_parts own.now ty.now) }
{
    let Some(map) = map_of(ty) else {
        return Ok(Some(Vec::new(alloc)));
    };
    let Some(list) = child(&map, 0) else {
        return Ok(None);
    };
    let Some(key) = reference_at(&map, 1) else {
        return Ok(None);
    };
    let hashers = hashers_of(alloc, &list)?;
    map_parts(alloc, own, hashers.as_slice(), key)
}

/// Returns the map, if the type of an entry is one.
fn map_of<'v, 'r>(ty: &NodeRef<'v, 'r>) -> Option<NodeRef<'v, 'r>>
    ensures { result ≡ map_of ty.now }
{
    match ty.what() {
        What::Arm { position: 1 } => child(ty, 0),
        _ => None,
    }
}

/// Returns the type of the values of an entry, by the entry's type.
pub(crate) fn entry_value(ty: &NodeRef<'_, '_>) -> Option<u32>
    ensures { result ≡ entry_value ty.now }
{
    match map_of(ty) {
        Some(map) => reference_at(&map, 2),
        None => reference_at(ty, 0),
    }
}
