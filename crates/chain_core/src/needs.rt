//! Which small types the others need, and where they stand.

ghost use Rattle.std.specs.Prelude.{◌≡◌, ◌+◌, ◌<◌, ◌^◌, length};
ghost use Rattle.chain_core.specs.Synthetic.{all_need, byte_from, hash_needs, nothing_needed};
ghost use Rattle.chain_core.specs.Synthetic.{parts_need, small_types, stands_needs};
ghost use Rattle.chain_core.specs.Things.{all_named, stands_for};

use crate::keys::{HashLength, KeyPart};
use crate::thing::{Meaning, Thing};
use registry_core::{Primitive, TypeDef, TypeInfo};

/// Which small types the others need.
#[derive(Clone, Copy)]
pub(crate) struct Needs {
    pub(crate) bytes8: bool,
    pub(crate) bytes16: bool,
    pub(crate) bytes32: bool,
    pub(crate) byte: bool,
}

/// The positions of the small types: arrays of bytes, and bytes. Those that nothing needs have the
/// position of the next.
#[derive(Clone, Copy)]
pub(crate) struct SmallTypes {
    pub(crate) bytes8: u32,
    pub(crate) bytes16: u32,
    pub(crate) bytes32: u32,
    pub(crate) byte: u32,
}

/// Returns which small types a hash needs, beside those that are needed anyway.
fn hash_needs(needs: Needs, hash: Option<HashLength>) -> Needs
    ensures { result ≡ hash_needs needs hash }
{
    match hash {
        Some(HashLength::Bytes8) => Needs {
            bytes8: true,
            ..needs
        },
        Some(HashLength::Bytes32) => Needs {
            bytes32: true,
            ..needs
        },
        Some(HashLength::Bytes16) | None => needs,
    }
}

/// Returns which small types the parts of a key need, beside those that are needed anyway.
fn parts_need(mut needs: Needs, parts: &[KeyPart]) -> Needs
    ensures { result ≡ parts_need needs parts.now }
{
    'parts: for part in parts {
        needs = hash_needs(needs, part.hash);
    }
    needs
}

/// Returns which small types a thing needs, beside those that are needed anyway.
fn needs_of(needs: Needs, meaning: &Meaning<'_, '_>) -> Needs
    ensures { result ≡ stands_needs needs (stands_for meaning.now) }
{
    match meaning {
        Meaning::Own(_) | Meaning::Params(_) => needs,
        Meaning::Extrinsic(_) => Needs {
            byte: true,
            ..needs
        },
        Meaning::Key(parts) => {
            let needs = Needs {
                byte: true,
                bytes16: true,
                ..needs
            };
            parts_need(needs, parts.as_slice())
        }
    }
}

/// Returns which small types the things need.
pub(crate) fn all_needs(things: &[Thing<'_, '_>]) -> Needs
    ensures { result ≡ all_need nothing_needed (all_named things.now) }
{
    let mut needs = Needs {
        bytes8: false,
        bytes16: false,
        bytes32: false,
        byte: false,
    };
    'things: for thing in things {
        needs = needs_of(needs, &thing.meaning);
    }
    needs
}

/// Returns the position of the first type that is the byte itself.
pub(crate) fn own_byte(own: &[TypeInfo]) -> Option<u32>
    requires { length own.now < 2 ^ 32 }
    ensures { result ≡ byte_from 0 own.now }
{
    'types: for (id, info) in own.iter().enumerate() {
        if let TypeDef::Primitive(Primitive::U8) = info.shape {
            return Some(id as u32);
        }
    }
    None
}

/// Returns the positions of the small types, the first of them at `first`.
pub(crate) fn small_types(needs: Needs, first: u32, own_byte: Option<u32>) -> SmallTypes
    requires { first + 3 < 2 ^ 32 }
    ensures { result ≡ small_types needs first own_byte }
{
    let bytes8 = first;
    let bytes16 = bytes8 + u32::from(needs.bytes8);
    let bytes32 = bytes16 + u32::from(needs.bytes16);
    let byte = bytes32 + u32::from(needs.bytes32);
    SmallTypes {
        bytes8,
        bytes16,
        bytes32,
        byte: own_byte.unwrap_or(byte),
    }
}
