//! Large registries: if no allocation fails, they are read, checked and written back.

use crate::expect::same;
use registry_core::{Registry, TypeId, Version, read_metadata, read_registry, write_registry};
use scale_core::write_compact;
use std::alloc::{AllocError, Global};
use std::process::Abort;
use widths_core::{CheckFault, Checked, Class};

/// Returns whether the registry is written as these bytes.
fn is_written(alloc: Global, registry: &Registry, bytes: &[u8]) -> bool {
    match write_registry(alloc, registry) {
        Ok(back) => back.as_slice() == bytes,
        Err(_) => false,
    }
}

/// Reads the registry from all of the bytes, and returns it. Checks its number of types, and that
/// it is written as the same bytes.
fn read_whole(rt: &impl Abort, alloc: Global, bytes: &[u8], types: usize) -> Registry {
    let (registry, count) = read_registry(alloc, bytes).expect(rt, "a registry");
    same(rt, registry.types().len(), types);
    same(rt, count, bytes.len());
    same(rt, is_written(alloc, &registry, bytes), true);
    registry
}

/// Reads and checks a registry of this many types. Checks the class of its first type and the
/// greatest number of parts.
fn check_registry(
    rt: &impl Abort,
    alloc: Global,
    bytes: &[u8],
    types: usize,
    (class, widest): (Class, u32),
) {
    let registry = read_whole(rt, alloc, bytes, types);
    let checked = Checked::new(alloc, registry)
        .ok()
        .expect(rt, "a checked registry");
    same(rt, checked.class(TypeId(0)), Some(class));
    same(rt, checked.widest(), widest);
}

/// Returns a registry of a u8, whose documentation is a text of 3,000,000 letters.
fn long_text(alloc: Global) -> Result<Vec<u8>, AllocError> {
    let mut bytes = Vec::from_slice(alloc, b"\x04\x00\x00\x00\x05\x03\x04")?;
    write_compact(&mut bytes, 3_000_000)?;
    let letters = vec![in alloc; b'a'; 3_000_000]?;
    bytes.extend_from_slice(&letters)?;
    Ok(bytes)
}

#[test]
fn a_long_text_is_read(rt: HostRuntime) {
    let bytes = long_text(rt.alloc()).expect(&rt, "memory");
    check_registry(&rt, rt.alloc(), &bytes, 1, (Class::Sized, 0));
}

/// Returns metadata of version 15 with a registry of `count` types, each a u8.
fn many_types(alloc: Global, count: u32) -> Result<Vec<u8>, AllocError> {
    let mut bytes = Vec::from_slice(alloc, b"meta\x0f")?;
    write_compact(&mut bytes, u128::from(count))?;
    'types: for id in 0..count {
        write_compact(&mut bytes, u128::from(id))?;
        bytes.extend_from_slice(&[0, 0, 5, 3, 0])?;
    }
    Ok(bytes)
}

/// Checks that all of the bytes are metadata of version 15 with this many types.
fn check_metadata(rt: &impl Abort, alloc: Global, bytes: &[u8], types: usize) {
    let (registry, count, version) = read_metadata(alloc, bytes).expect(rt, "metadata");
    same(rt, registry.types().len(), types);
    same(rt, count, bytes.len());
    same(rt, version, Version::V15);
}

#[test]
fn many_types_are_read(rt: HostRuntime) {
    let metadata = many_types(rt.alloc(), 200_000).expect(&rt, "memory");
    check_metadata(&rt, rt.alloc(), &metadata, 200_000);
    let bytes = metadata.get(5..).expect(&rt, "a registry");
    check_registry(&rt, rt.alloc(), bytes, 200_000, (Class::Sized, 0));
}

/// Returns a registry of a variant with `count` arms without names. Every arm but the first has a
/// field of the variant's type.
fn many_arms(alloc: Global, count: u32) -> Result<Vec<u8>, AllocError> {
    let mut bytes = Vec::from_slice(alloc, b"\x04\x00\x00\x00\x01")?;
    write_compact(&mut bytes, u128::from(count))?;
    bytes.extend_from_slice(&[0, 0, 0, 0])?;
    'arms: for arm in 1..count {
        bytes.extend_from_slice(&[0, 4, 0, 0, 0, 0, (arm % 256) as u8, 0])?;
    }
    bytes.push(0)?;
    Ok(bytes)
}

#[test]
fn many_arms_are_read(rt: HostRuntime) {
    let bytes = many_arms(rt.alloc(), 100_000).expect(&rt, "memory");
    check_registry(&rt, rt.alloc(), &bytes, 1, (Class::Sized, 1));
}

/// Returns a registry of a composite of `count` fields of the second type, which is a u8.
pub(crate) fn many_fields(alloc: Global, count: u32) -> Result<Vec<u8>, AllocError> {
    let mut bytes = Vec::from_slice(alloc, b"\x08\x00\x00\x00\x00")?;
    write_compact(&mut bytes, u128::from(count))?;
    'fields: for _ in 0..count {
        bytes.extend_from_slice(b"\x00\x04\x00\x00")?;
    }
    bytes.extend_from_slice(b"\x00\x04\x00\x00\x05\x03\x00")?;
    Ok(bytes)
}

#[test]
fn many_fields_are_read(rt: HostRuntime) {
    let bytes = many_fields(rt.alloc(), 500_000).expect(&rt, "memory");
    check_registry(&rt, rt.alloc(), &bytes, 2, (Class::Sized, 500_000));
}

/// Returns a registry of 2000 types. Each is a tuple of the type after it, and the last is the
/// empty tuple.
fn chain_of_tuples(alloc: Global) -> Result<Vec<u8>, AllocError> {
    let mut bytes = Vec::new(alloc);
    write_compact(&mut bytes, 2000)?;
    'types: for id in 0..1999u32 {
        write_compact(&mut bytes, u128::from(id))?;
        bytes.extend_from_slice(&[0, 0, 4, 4])?;
        write_compact(&mut bytes, u128::from(id) + 1)?;
        bytes.push(0)?;
    }
    write_compact(&mut bytes, 1999)?;
    bytes.extend_from_slice(&[0, 0, 4, 0, 0])?;
    Ok(bytes)
}

#[test]
fn a_chain_of_2000_tuples_is_empty(rt: HostRuntime) {
    let bytes = chain_of_tuples(rt.alloc()).expect(&rt, "memory");
    check_registry(&rt, rt.alloc(), &bytes, 2000, (Class::Empty, 1));
}

/// Returns a registry of a sequence of the greatest possible id, after 65,536 types that are a u8.
fn with_unknown_reference(alloc: Global) -> Result<Vec<u8>, AllocError> {
    let types = many_types(alloc, 65_536)?;
    let mut bytes = Vec::new(alloc);
    write_compact(&mut bytes, 65_537)?;
    bytes.extend_from_slice(types.as_slice().get(9..).unwrap_or(b""))?;
    write_compact(&mut bytes, 65_536)?;
    bytes.extend_from_slice(&[0, 0, 2, 3, 0xff, 0xff, 0xff, 0xff, 0])?;
    Ok(bytes)
}

#[test]
fn an_unknown_reference_of_the_last_type_is_reported(rt: HostRuntime) {
    let bytes = with_unknown_reference(rt.alloc()).expect(&rt, "memory");
    let registry = read_whole(&rt, rt.alloc(), &bytes, 65_537);
    let checked = Checked::new(rt.alloc(), registry);
    let (fault, registry) = checked.err().expect(&rt, "a reference to no type");
    let unknown = CheckFault::UnknownType {
        from: TypeId(65_536),
        to: TypeId(4_294_967_295),
    };
    same(&rt, fault, unknown);
    same(&rt, registry.types().len(), 65_537);
}
