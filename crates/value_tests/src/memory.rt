//! The memory that claimed lengths reserve, and the sizes of the parts of a registry and of its
//! tables.

use crate::expect::same;
use crate::large_registries::many_fields;
use registry_core::{
    Arm, Field, RegistryFault, RegistryReason, TypeInfo, read_metadata, read_registry,
};
use std::alloc::{AllocError, Global};
use std::fs;
use std::process::Abort;
use std::rt::Files;
use std::test::Fail;
use widths_core::{ArmStep, TypeStep};

/// The lists and texts of a registry, each with the bytes before its length.
const PLACES: [(&str, &[u8]); 22] = [
    ("types", b""),
    ("a path", b"\x04\x00"),
    ("a path's text", b"\x04\x00\x04"),
    ("parameters", b"\x04\x00\x00"),
    ("a parameter's name", b"\x04\x00\x00\x04"),
    ("fields", b"\x04\x00\x00\x00\x00"),
    ("a field's name", b"\x04\x00\x00\x00\x00\x04\x01"),
    (
        "a field's type name",
        b"\x04\x00\x00\x00\x00\x04\x00\x00\x01",
    ),
    (
        "a field's documentation",
        b"\x04\x00\x00\x00\x00\x04\x00\x00\x00",
    ),
    (
        "a text of a field's documentation",
        b"\x04\x00\x00\x00\x00\x04\x00\x00\x00\x04",
    ),
    ("arms", b"\x04\x00\x00\x00\x01"),
    ("an arm's name", b"\x04\x00\x00\x00\x01\x04"),
    ("an arm's fields", b"\x04\x00\x00\x00\x01\x04\x04A"),
    (
        "the name of an arm's field",
        b"\x04\x00\x00\x00\x01\x04\x04A\x04\x01",
    ),
    (
        "the type name of an arm's field",
        b"\x04\x00\x00\x00\x01\x04\x04A\x04\x00\x00\x01",
    ),
    (
        "the documentation of an arm's field",
        b"\x04\x00\x00\x00\x01\x04\x04A\x04\x00\x00\x00",
    ),
    (
        "a text of the documentation of an arm's field",
        b"\x04\x00\x00\x00\x01\x04\x04A\x04\x00\x00\x00\x04",
    ),
    (
        "an arm's documentation",
        b"\x04\x00\x00\x00\x01\x04\x04A\x00\x00",
    ),
    (
        "a text of an arm's documentation",
        b"\x04\x00\x00\x00\x01\x04\x04A\x00\x00\x04",
    ),
    ("members", b"\x04\x00\x00\x00\x04"),
    ("a type's documentation", b"\x04\x00\x00\x00\x05\x03"),
    (
        "a text of a type's documentation",
        b"\x04\x00\x00\x00\x05\x03\x04",
    ),
];

/// The lengths 1048576, which could be allocated, 1073741823, the greatest in four bytes, and
/// 4294967295, the greatest of all.
const LENGTHS: [&[u8]; 3] = [
    b"\x02\x00\x40\x00",
    b"\xfe\xff\xff\xff",
    b"\x03\xff\xff\xff\xff",
];

/// The memory that this process has reserved, and the most that it ever had, in KiB.
///
/// Memory that was never written to counts too.
#[derive(Clone, Copy)]
struct Reserved {
    now: u64,
    most: u64,
}

/// Returns the number after the name in the status of this process.
fn number_after(status: &str, name: &str) -> Result<u64, Fail> {
    'lines: for line in status.lines() {
        if let Some(rest) = line.strip_prefix(name) {
            let number = rest.split_whitespace().next().ok_or("no number")?;
            return Ok(number.parse::<u64>()?);
        }
    }
    Err("the system does not say it")?
}

/// Returns the memory that this process has reserved, as the system counts it.
fn measured(rt: &(impl Files + Alloc)) -> Result<Reserved, Fail> {
    let status = fs::read_to_string(rt, "/proc/self/status")?;
    let now = number_after(status.as_str(), "VmSize:")?;
    let most = number_after(status.as_str(), "VmPeak:")?;
    Ok(Reserved { now, most })
}

/// Checks that at least `least` KiB were reserved and kept from one measurement to the next, and
/// that fewer than `bound` were reserved at any time.
fn check_growth(rt: &impl Abort, before: Reserved, after: Reserved, least: u64, bound: u64) {
    let kept = after.now.saturating_sub(before.now);
    let most = after.most.saturating_sub(before.now);
    let grown = (kept, most);
    same(rt, (grown, least <= kept && most < bound), (grown, true));
}

/// Returns the error of a registry that ends at this place.
fn cut_at(at: u64) -> Option<RegistryFault> {
    Some(RegistryFault {
        reason: RegistryReason::Truncated,
        at,
    })
}

/// Returns these bytes, one part after the other.
fn joined(alloc: Global, front: &[u8], rest: &[u8]) -> Result<Vec<u8>, AllocError> {
    let mut bytes = Vec::from_slice(alloc, front)?;
    bytes.extend_from_slice(rest)?;
    Ok(bytes)
}

/// Checks that a registry that ends after the claimed length is rejected at its end, and metadata
/// of it too.
fn check_claim(rt: &impl Abort, alloc: Global, name: &str, front: &[u8], length: &[u8]) {
    let bytes = joined(alloc, front, length).expect(rt, "memory");
    let end = bytes.len() as u64;
    let reported = read_registry(alloc, &bytes).err();
    same(rt, (name, reported), (name, cut_at(end)));
    let metadata = joined(alloc, b"meta\x0e", &bytes).expect(rt, "memory");
    let reported = read_metadata(alloc, &metadata).err();
    same(rt, (name, reported), (name, cut_at(end.saturating_add(5))));
}

/// Claims each of the lengths at each of the places.
fn check_claims(rt: &impl Abort, alloc: Global, places: &[(&str, &[u8])], lengths: &[&[u8]]) {
    'places: for (name, front) in places {
        'lengths: for length in lengths {
            check_claim(rt, alloc, name, front, length);
        }
    }
}

// A reader that allocates for a claimed length either succeeds, which the measurement shows, or
// fails with `OutOfMemory`.
#[test]
fn claimed_lengths_reserve_nothing(rt: HostRuntime) -> Result<(), Fail> {
    let before = measured(&rt)?;
    check_claims(&rt, rt.alloc(), &PLACES, &LENGTHS);
    let after = measured(&rt)?;
    check_growth(&rt, before, after, 0, 1024);
    Ok(())
}

// The measurement includes capacity that is allocated at once, here 1 GiB, of which one byte is
// used.
#[test]
fn room_that_is_asked_for_at_once_is_measured(rt: HostRuntime) -> Result<(), Fail> {
    let before = measured(&rt)?;
    let mut list = Vec::with_capacity(rt.alloc(), 0x4000_0000)?;
    list.push(7u8)?;
    let after = measured(&rt)?;
    same(&rt, list.as_slice(), [7].as_slice());
    check_growth(&rt, before, after, 0x10_0000, 0x10_0400);
    Ok(())
}

// A list grows with what was read, and at most to its claimed length, which takes 3075 KiB here. It
// may be copied to grow, and then its previous 2048 KiB count too. A vector that doubles, or grows
// fourfold whatever is claimed, has a capacity of 65,536 fields, which take 6144 KiB.
#[test]
fn a_whole_list_has_no_room_to_spare(rt: HostRuntime) -> Result<(), Fail> {
    let bytes = many_fields(rt.alloc(), 32_800)?;
    let before = measured(&rt)?;
    let (registry, count) = read_registry(rt.alloc(), &bytes)?;
    let after = measured(&rt)?;
    same(&rt, (registry.types().len(), count), (2, 131_216));
    check_growth(&rt, before, after, 3075, 5632);
    Ok(())
}

#[test]
fn the_parts_of_a_registry_have_their_sizes(rt: HostRuntime) {
    let sizes = (size_of::<Field>(), size_of::<Arm>(), size_of::<TypeInfo>());
    same(&rt, sizes, (104, 120, 136));
    same(&rt, (size_of::<TypeStep>(), size_of::<ArmStep>()), (12, 12));
}
