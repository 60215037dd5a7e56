//! All things that metadata names, in order.

ghost use Rattle.std.specs.Prelude.{◌≡◌, IfOk, OnOk, flat_map, option_and_then, option_map};
ghost use Rattle.std.specs.Rc.{rc_str_bytes};
ghost use Rattle.chain_core.specs.Listed.{api_things, children_in, constant_thing, custom_thing};
ghost use Rattle.chain_core.specs.Listed.{default_if, entry_things, extrinsic_thing, key_thing};
ghost use Rattle.chain_core.specs.Listed.{method_things, outer_things, own_thing, pallet_things};
ghost use Rattle.chain_core.specs.Listed.{params_thing, things};
ghost use Rattle.chain_core.specs.Parts.{child, inner};
ghost use Rattle.chain_core.specs.Things.{Adds, all_named, dotted, name_text, path_text};

use crate::extrinsics::{ExtrinsicTypes, call_type, extrinsic_types, part_at};
use crate::keys::{KeyPart, entry_value, key_parts};
use crate::parts::{bytes_at, child, inner, inner_reference, reference_at, text_at};
use crate::thing::{Meaning, Path, Section, Thing};
use growth_core::{
    Refused, clone_of, extend_from_slice, push, shared_from, string_from, with_capacity,
};
use node_core::{NodeRef, What};
use registry_core::{TypeInfo, Version};
use std::alloc::Global;
use std::rc::RcStr;

/// Returns the path of a name.
fn path_of(alloc: Global, name: &str) -> Result<Path, Refused>
    ensures { IfOk result (λ path. path_text path ≡ name.now) }
{
    Ok(Path::One(string_from(alloc, name)?))
}

/// Returns the path of a part of a pallet or of an api.
fn path_in(alloc: Global, outer: &RcStr, inner: &str) -> Result<Path, Refused>
    ensures { IfOk result (λ path. path_text path ≡ dotted (rc_str_bytes outer.now) inner.now) }
{
    Ok(Path::Two(clone_of(outer)?, string_from(alloc, inner)?))
}

/// Returns a copy of the bytes.
fn copied(alloc: Global, bytes: Option<&[u8]>) -> Result<Option<Vec<u8>>, Refused>
    ensures { IfOk result (λ copy.
        option_map (λ v. v.items) copy ≡ option_map (λ s. s.now) bytes.entry) }
{
    match bytes {
        Some(bytes) => {
            let mut copy = with_capacity(alloc, bytes.len())?;
            extend_from_slice(&mut copy, bytes)?;
            Ok(Some(copy))
        }
        None => Ok(None),
    }
}

/// Appends a thing of a type of the registry, if its type is known.
fn push_own<'v, 'r>(
    things: &mut Vec<Thing<'v, 'r>>,
    section: Section,
    path: Path,
    reference: Option<u32>,
    bytes: Option<Vec<u8>>,
) -> Result<(), Refused>
    ensures { OnOk result (Adds things.old.items things.new.items (own_thing
        (name_text section path) reference (option_map (λ v. v.items) bytes))) }
{
    if let Some(id) = reference {
        let thing = Thing {
            section,
            path,
            meaning: Meaning::Own(id),
            bytes,
        };
        push(things, thing)?;
    }
    Ok(())
}

/// Appends extrinsics, if their types are known.
fn push_extrinsic<'v, 'r>(
    things: &mut Vec<Thing<'v, 'r>>,
    types: Option<ExtrinsicTypes>,
) -> Result<(), Refused>
    ensures { OnOk result (Adds things.old.items things.new.items (extrinsic_thing types)) }
{
    if let Some(types) = types {
        let thing = Thing {
            section: Section::Extrinsic,
            path: Path::Empty,
            meaning: Meaning::Extrinsic(types),
            bytes: None,
        };
        push(things, thing)?;
    }
    Ok(())
}

/// Appends extrinsics, and the enums of all calls, events and errors.
fn push_outer<'v, 'r>(
    version: Version,
    own: &[TypeInfo],
    rest: &NodeRef<'v, 'r>,
    things: &mut Vec<Thing<'v, 'r>>,
) -> Result<(), Refused>
    ensures { OnOk result (Adds things.old.items things.new.items
        (outer_things version own.now rest.now)) }
{
    push_extrinsic(things, extrinsic_types(version, own, rest))?;
    push_own(
        things,
        Section::Call,
        Path::Empty,
        call_type(version, own, rest),
        None,
    )?;
    push_own(
        things,
        Section::Event,
        Path::Empty,
        part_at(rest, 4, 1),
        None,
    )?;
    push_own(
        things,
        Section::Error,
        Path::Empty,
        part_at(rest, 4, 2),
        None,
    )
}

/// Returns the bytes of a storage entry's default value, if absent entries have it.
fn default_of<'v>(entry: &NodeRef<'v, '_>) -> Option<&'v [u8]>
    ensures { option_map (λ s. s.now) result ≡ default_if entry.now (child 1 entry.now) }
{
    match child(entry, 1)?.what() {
        What::Arm { position: 1 } => bytes_at(entry, 3),
        _ => None,
    }
}

/// Appends the keys of a storage entry, if their parts are known.
fn push_key<'v, 'r>(
    things: &mut Vec<Thing<'v, 'r>>,
    path: Path,
    parts: Option<Vec<KeyPart>>,
) -> Result<(), Refused>
    ensures { OnOk result (Adds things.old.items things.new.items
        (key_thing (path_text path) (option_map (λ v. v.items) parts))) }
{
    if let Some(parts) = parts {
        let thing = Thing {
            section: Section::Key,
            path,
            meaning: Meaning::Key(parts),
            bytes: None,
        };
        push(things, thing)?;
    }
    Ok(())
}

/// Appends a storage entry and its keys.
fn push_entry<'v, 'r>(
    alloc: Global,
    own: &[TypeInfo],
    pallet: &RcStr,
    entry: &NodeRef<'v, 'r>,
    things: &mut Vec<Thing<'v, 'r>>,
) -> Result<(), Refused>
    ensures { OnOk result (Adds things.old.items things.new.items
        (entry_things own.now (rc_str_bytes pallet.now) entry.now)) }
{
    let Some(ty) = child(entry, 2) else {
        return Ok(());
    };
    let name = text_at(entry, 0);
    push_own(
        things,
        Section::Storage,
        path_in(alloc, pallet, name)?,
        entry_value(&ty),
        copied(alloc, default_of(entry))?,
    )?;
    let parts = key_parts(alloc, own, &ty)?;
    push_key(things, path_in(alloc, pallet, name)?, parts)
}

/// Appends storage entries and their keys.
fn push_entries<'v, 'r>(
    alloc: Global,
    own: &[TypeInfo],
    pallet: &RcStr,
    list: Option<NodeRef<'v, 'r>>,
    things: &mut Vec<Thing<'v, 'r>>,
) -> Result<(), Refused>
    ensures { OnOk result (Adds things.old.items things.new.items
        (flat_map (entry_things own.now (rc_str_bytes pallet.now)) (children_in list.entry))) }
{
    let Some(list) = list else {
        return Ok(());
    };
    'entries: for entry in list.children() {
        push_entry(alloc, own, pallet, &entry, things)?;
    }
    Ok(())
}

/// Appends constants.
fn push_constants<'v, 'r>(
    alloc: Global,
    pallet: &RcStr,
    list: Option<NodeRef<'v, 'r>>,
    things: &mut Vec<Thing<'v, 'r>>,
) -> Result<(), Refused>
    ensures { OnOk result (Adds things.old.items things.new.items
        (flat_map (constant_thing (rc_str_bytes pallet.now)) (children_in list.entry))) }
{
    let Some(list) = list else {
        return Ok(());
    };
    'constants: for constant in list.children() {
        let path = path_in(alloc, pallet, text_at(&constant, 0))?;
        let reference = reference_at(&constant, 1);
        let bytes = copied(alloc, bytes_at(&constant, 2))?;
        push_own(things, Section::Constant, path, reference, bytes)?;
    }
    Ok(())
}

/// Returns the list of a pallet's storage entries, if it has a storage.
fn entries_of<'v, 'r>(pallet: &NodeRef<'v, 'r>) -> Option<NodeRef<'v, 'r>>
    ensures { result ≡ option_and_then (child 1) (inner 1 pallet.now) }
{
    child(&inner(pallet, 1)?, 1)
}

/// Appends the enums of a pallet, its storage entries and its constants.
fn push_pallet<'v, 'r>(
    alloc: Global,
    own: &[TypeInfo],
    pallet: &NodeRef<'v, 'r>,
    things: &mut Vec<Thing<'v, 'r>>,
) -> Result<(), Refused>
    ensures { OnOk result (Adds things.old.items things.new.items
        (pallet_things own.now pallet.now)) }
{
    let name = text_at(pallet, 0);
    push_own(
        things,
        Section::Calls,
        path_of(alloc, name)?,
        inner_reference(pallet, 2),
        None,
    )?;
    push_own(
        things,
        Section::Events,
        path_of(alloc, name)?,
        inner_reference(pallet, 3),
        None,
    )?;
    push_own(
        things,
        Section::Errors,
        path_of(alloc, name)?,
        inner_reference(pallet, 5),
        None,
    )?;
    let shared = shared_from(alloc, name)?;
    push_entries(alloc, own, &shared, entries_of(pallet), things)?;
    push_constants(alloc, &shared, child(pallet, 4), things)
}

/// Appends pallets.
fn push_pallets<'v, 'r>(
    alloc: Global,
    own: &[TypeInfo],
    list: Option<NodeRef<'v, 'r>>,
    things: &mut Vec<Thing<'v, 'r>>,
) -> Result<(), Refused>
    ensures { OnOk result (Adds things.old.items things.new.items
        (flat_map (pallet_things own.now) (children_in list.entry))) }
{
    let Some(list) = list else {
        return Ok(());
    };
    'pallets: for pallet in list.children() {
        push_pallet(alloc, own, &pallet, things)?;
    }
    Ok(())
}

/// Appends the parameters of a method, if there is a list of them.
fn push_params<'v, 'r>(
    things: &mut Vec<Thing<'v, 'r>>,
    path: Path,
    inputs: Option<NodeRef<'v, 'r>>,
) -> Result<(), Refused>
    ensures { OnOk result (Adds things.old.items things.new.items
        (params_thing (path_text path) inputs.entry)) }
{
    if let Some(inputs) = inputs {
        let thing = Thing {
            section: Section::Params,
            path,
            meaning: Meaning::Params(inputs),
            bytes: None,
        };
        push(things, thing)?;
    }
    Ok(())
}

/// Appends the result and the parameters of a method.
fn push_method<'v, 'r>(
    alloc: Global,
    api: &RcStr,
    method: &NodeRef<'v, 'r>,
    things: &mut Vec<Thing<'v, 'r>>,
) -> Result<(), Refused>
    ensures { OnOk result (Adds things.old.items things.new.items
        (method_things (rc_str_bytes api.now) method.now)) }
{
    let name = text_at(method, 0);
    let result = reference_at(method, 2);
    push_own(
        things,
        Section::Result,
        path_in(alloc, api, name)?,
        result,
        None,
    )?;
    push_params(things, path_in(alloc, api, name)?, child(method, 1))
}

/// Appends the results and the parameters of the methods of an api.
fn push_api<'v, 'r>(
    alloc: Global,
    api: &NodeRef<'v, 'r>,
    things: &mut Vec<Thing<'v, 'r>>,
) -> Result<(), Refused>
    ensures { OnOk result (Adds things.old.items things.new.items (api_things api.now)) }
{
    let name = shared_from(alloc, text_at(api, 0))?;
    let Some(methods) = child(api, 1) else {
        return Ok(());
    };
    'methods: for method in methods.children() {
        push_method(alloc, &name, &method, things)?;
    }
    Ok(())
}

/// Appends apis.
fn push_apis<'v, 'r>(
    alloc: Global,
    list: Option<NodeRef<'v, 'r>>,
    things: &mut Vec<Thing<'v, 'r>>,
) -> Result<(), Refused>
    ensures { OnOk result (Adds things.old.items things.new.items
        (flat_map api_things (children_in list.entry))) }
{
    let Some(list) = list else {
        return Ok(());
    };
    'apis: for api in list.children() {
        push_api(alloc, &api, things)?;
    }
    Ok(())
}

/// Appends custom values.
fn push_customs<'v, 'r>(
    alloc: Global,
    list: Option<NodeRef<'v, 'r>>,
    things: &mut Vec<Thing<'v, 'r>>,
) -> Result<(), Refused>
    ensures { OnOk result (Adds things.old.items things.new.items
        (flat_map custom_thing (children_in list.entry))) }
{
    let Some(list) = list else {
        return Ok(());
    };
    'values: for value in list.children() {
        let path = path_of(alloc, text_at(&value, 0))?;
        let bytes = copied(alloc, bytes_at(&value, 2))?;
        push_own(
            things,
            Section::Custom,
            path,
            reference_at(&value, 1),
            bytes,
        )?;
    }
    Ok(())
}

/// Returns all things that metadata names, in order: by what follows its registry, and by the types
/// of the registry.
///
/// # Errors
///
/// `Refused` if an allocation fails.
pub fn list_things<'v, 'r>(
    alloc: Global,
    version: Version,
    own: &[TypeInfo],
    rest: &NodeRef<'v, 'r>,
) -> Result<Vec<Thing<'v, 'r>>, Refused>
    ensures { IfOk result (λ list. all_named list.items ≡ things version own.now rest.now) }
{
    let mut things = Vec::new(alloc);
    push_outer(version, own, rest, &mut things)?;
    push_pallets(alloc, own, child(rest, 0), &mut things)?;
    push_apis(alloc, child(rest, 3), &mut things)?;
    push_customs(alloc, child(rest, 5), &mut things)?;
    Ok(things)
}
