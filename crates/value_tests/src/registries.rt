//! The parts of a registry's types.

use crate::expect::same;
use growth_core::Refused;
use registry_core::{
    Arm, Field, Items, Keys, Name, Param, Registry, RegistryFault, RegistryReason, Text, TypeDef,
    TypeId, read_registry,
};
use token_core::Escapes;

/// The type `Option` with its parameter `T`, which is a u32, and its arms `None` and `Some`.
const OPTION: &[u8] =
    b"\x08\x00\x00\x00\x05\x05\x00\x04\x04\x18\x4f\x70\x74\x69\x6f\x6e\x04\x04\x54\x01\x00\x01\x08\x10\x4e\x6f\x6e\x65\x00\x00\x00\x10\x53\x6f\x6d\x65\x04\x00\x00\x01\x04\x54\x00\x01\x00\x00";

/// A composite of two bytes, whose names are `b` and `a"`.
const PAIR: &[u8] =
    b"\x08\x00\x00\x00\x05\x03\x00\x04\x00\x00\x00\x08\x01\x04b\x00\x00\x00\x01\x08a\"\x00\x00\x00\x00";

/// Returns the only segment of the path, the only parameter and the two arms of the registry's
/// second type.
fn parts_of(registry: &Registry) -> Option<(&Text, &Param, &Arm, &Arm)> {
    let [_, info] = registry.types() else {
        return None;
    };
    let TypeDef::Variant(arms) = &info.shape else {
        return None;
    };
    match (
        info.path.as_slice(),
        info.params.as_slice(),
        arms.as_slice(),
    ) {
        ([segment], [param], [first, second]) => Some((segment, param, first, second)),
        _ => None,
    }
}

#[test]
fn the_parts_of_a_variant_are_seen(rt: HostRuntime) {
    let (registry, _) = read_registry(rt.alloc(), OPTION).expect(&rt, "a registry");
    let (segment, param, none, some) = parts_of(&registry).expect(&rt, "these parts");
    let named = (segment.as_str(), param.name.as_str(), param.ty);
    same(&rt, named, ("Option", "T", Some(TypeId(0))));
    same(&rt, (none.name.as_str(), none.index), ("None", 0));
    same(&rt, (some.name.as_str(), some.index), ("Some", 1));
    same(&rt, (none.fields.len(), some.fields.len()), (0, 1));
}

/// Returns the names of a field and of its type.
fn names_of(field: &Field) -> (Option<&str>, Option<&str>) {
    let name = match &field.name {
        Some(name) => Some(name.as_str()),
        None => None,
    };
    let type_name = match &field.type_name {
        Some(type_name) => Some(type_name.as_str()),
        None => None,
    };
    (name, type_name)
}

#[test]
fn the_field_of_an_arm_is_seen(rt: HostRuntime) {
    let (registry, _) = read_registry(rt.alloc(), OPTION).expect(&rt, "a registry");
    let (_, _, _, some) = parts_of(&registry).expect(&rt, "these parts");
    let [field] = some.fields.as_slice() else {
        panic!(rt; "not one field");
    };
    same(&rt, names_of(field), (None, Some("T")));
    same(&rt, field.ty, TypeId(0));
}

/// Returns the names of the two fields of the registry's second type, and the order of the names.
fn names_of_pair(registry: &Registry) -> Option<(&Name, &Name, &[u32])> {
    let [_, info] = registry.types() else {
        return None;
    };
    let TypeDef::Composite(fields) = &info.shape else {
        return None;
    };
    let ([first, second], Keys::Sorted(order)) = (fields.as_slice(), fields.keys()) else {
        return None;
    };
    match (&first.name, &second.name) {
        (Some(first), Some(second)) => Some((first, second, order.as_slice())),
        _ => None,
    }
}

#[test]
fn the_order_and_the_escapes_of_names_are_seen(rt: HostRuntime) {
    let (registry, _) = read_registry(rt.alloc(), PAIR).expect(&rt, "a registry");
    let (first, second, order) = names_of_pair(&registry).expect(&rt, "these parts");
    same(&rt, (first.as_str(), second.as_str()), ("b", "a\""));
    same(&rt, order, [1, 0].as_slice());
    same(&rt, matches!(first.escapes(), Escapes::None), true);
    same(&rt, matches!(second.escapes(), Escapes::None), false);
}

#[test]
fn texts_and_lists_keep_what_they_were_made_of(rt: HostRuntime) {
    let text = Text::from_string(String::from_str(rt.alloc(), "caf\u{e9}").expect(&rt, "memory"));
    same(&rt, (text.as_str(), text.len()), ("caf\u{e9}", 5));
    same(&rt, text.into_string().as_str(), "caf\u{e9}");
    let items = Items::from_vec([3, 1, 2].to_vec(rt.alloc()).expect(&rt, "memory"));
    same(&rt, (items.len(), items.is_empty()), (3, false));
    same(&rt, items.into_vec().as_slice(), [3, 1, 2].as_slice());
}

// The other reasons are printed by the rows of `registries.tsv`.
#[test]
fn a_failed_allocation_is_printed_by_its_name(rt: HostRuntime) {
    let fault = RegistryFault {
        reason: RegistryReason::OutOfMemory(Refused::of_library()),
        at: 7,
    };
    let printed = format!(in rt.alloc(); "{fault}").expect(&rt, "memory");
    same(&rt, printed.as_str(), "OutOfMemory at 7");
}
