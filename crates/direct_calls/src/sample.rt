//! The input of every call: a registry of twelve types, and a value of its ninth type.

use registry_core::{Registry, TypeId, read_registry};
use scale_calls::read_value;
use std::alloc::Global;
use value_core::{Limits, Value};
use widths_core::Checked;

/// A registry after the prefix of metadata, in its canonical encoding. Types 0 to 4 are a text, a
/// u128, a u256, an option of a character and the character. Types 5 to 7 are the unit, a sequence
/// of units and a compact u128. Type 8 is a composite of six of these and of types 9 and 11. Types
/// 9 to 11 are a composite of two characters, a u8 and a sequence of it. The field names of both
/// composites are out of order.
pub(crate) const METADATA: &[u8] = b"meta\x0e\x30\
      \x00\x00\x00\x05\x02\x00\
      \x04\x00\x00\x05\x07\x00\
      \x08\x00\x00\x05\x08\x00\
      \x0c\x04\x18Option\x04\x04T\x01\x10\x01\x08\x10None\x00\x00\x00\x10Some\x04\x00\x10\x01\x04T\
      \x00\x01\x00\x04\x20A choice\
      \x10\x00\x00\x05\x01\x00\
      \x14\x00\x00\x04\x00\x00\
      \x18\x00\x00\x02\x14\x00\
      \x1c\x00\x00\x06\x04\x00\
      \x20\x04\x18Sample\x00\x00\x20\
      \x01\x10name\x00\x00\x00\
      \x01\x18amount\x04\x00\x00\
      \x01\x10hash\x08\x00\x00\
      \x01\x10kind\x0c\x00\x00\
      \x01\x14ticks\x18\x00\x00\
      \x01\x0cfee\x1c\x00\x00\
      \x01\x10pair\x24\x00\x00\
      \x01\x10code\x2c\x00\x00\
      \x00\
      \x24\x00\x00\x00\x08\x01\x04b\x10\x00\x00\x01\x04a\x10\x00\x00\x00\
      \x28\x00\x00\x05\x03\x00\
      \x2c\x00\x00\x02\x28\x00";

/// The number of bytes before the registry.
const PREFIX: usize = 5;

/// The position of the composite of eight fields.
pub(crate) const TYPE: TypeId = TypeId(8);

/// A value of the composite: the text SCALE, 7, 1 in 32 bytes, the character x, three units, 1, the
/// characters y and z, and the bytes 7 and 255.
pub(crate) const VALUE: &[u8] =
    b"\x14SCALE\x07\x00\x00\x00\x00\x00\x00\x00\x00\x00\x00\x00\x00\x00\x00\x00\x01\x00\x00\x00\
      \x00\x00\x00\x00\x00\x00\x00\x00\x00\x00\x00\x00\x00\x00\x00\x00\x00\x00\x00\x00\x00\x00\x00\
      \x00\x00\x00\x00\x00\x01x\x00\x00\x00\x0c\x04y\x00\x00\x00z\x00\x00\x00\x08\x07\xff";

/// The value's JSON.
pub(crate) const TEXT: &str = "{\"amount\":\"7\",\"code\":\"0x07ff\",\"fee\":\"1\",\
     \"hash\":\"0x0000000000000000000000000000000000000000000000000000000000000001\",\
     \"kind\":{\"Some\":[\"x\"]},\"name\":\"SCALE\",\"pair\":{\"a\":\"z\",\"b\":\"y\"},\"ticks\":{\"count\":3}}";

/// The number of members of the value's JSON object.
pub(crate) const MEMBERS: usize = 8;

/// Returns the bytes of the registry alone.
pub(crate) fn registry_bytes() -> &'static [u8] {
    &METADATA[PREFIX..]
}

/// Returns the registry, or `None` if an allocation fails.
pub(crate) fn registry(alloc: Global) -> Option<Registry> {
    let (registry, _) = read_registry(alloc, registry_bytes()).ok()?;
    Some(registry)
}

/// Returns the checked registry, or `None` if an allocation fails.
pub(crate) fn checked(alloc: Global) -> Option<Checked> {
    Checked::new(alloc, registry(alloc)?).ok()
}

/// Returns the value, or `None` if an allocation fails.
pub(crate) fn value(alloc: Global, checked: &Checked) -> Option<Value<'_, Global>> {
    read_value(alloc, checked, TYPE.0, Limits::default_limits(), VALUE).ok()
}
