//! The types of extrinsics, storage keys and parameters.

ghost use Rattle.std.specs.Prelude.{◌≡◌, ◌+◌, ◌++◌, ◌∷◌, ◌<◌, ◌≤◌, ◌^◌, [], IfOk, OnOk};
ghost use Rattle.std.specs.Prelude.{length, map, string_bytes, vec_len};
ghost use Rattle.std.specs.List.{AllByRecursion};
ghost use Rattle.types_core.specs.Fits.{FitsArm, FitsDefinition, FitsField, FitsList, FitsText};
ghost use Rattle.types_core.specs.Fits.{FitsType};
ghost use Rattle.chain_core.specs.Synthetic.{all_made, arm, extrinsic_type};
ghost use Rattle.chain_core.specs.Synthetic.{field, hash_field, hash_type};
ghost use Rattle.chain_core.specs.Synthetic.{input_fields, key_field, key_type, made, made_count};
ghost use Rattle.chain_core.specs.Synthetic.{params_type, part_fields};
ghost use Rattle.chain_core.specs.Synthetic.{small_made, synthetic};
ghost use Rattle.chain_core.specs.Synthetic.{type_if, unnamed};
ghost use Rattle.chain_core.specs.Things.{all_named, stands_for};

use crate::extrinsics::ExtrinsicTypes;
use crate::fault::NamesFault;
use crate::keys::{HashLength, KeyPart};
use crate::needs::{Needs, SmallTypes, all_needs, own_byte, small_types};
use crate::parts::{reference_at, text_at};
use crate::thing::{Meaning, Thing};
use graph_core::number;
use growth_core::{push, reported, string_from, with_capacity};
use node_core::NodeRef;
use registry_core::{Arm, Field, Fields, Items, Name, Primitive, Text, TypeDef, TypeId, TypeInfo};
use std::alloc::Global;

/// Returns a type of this shape, without path, parameters and docs.
fn unnamed(alloc: Global, shape: TypeDef) -> TypeInfo
    requires { FitsDefinition shape }
    ensures exact { result ≡ unnamed shape }
    ensures fits { FitsType result }
{
    TypeInfo {
        path: Items::from_vec(Vec::new(alloc)),
        params: Items::from_vec(Vec::new(alloc)),
        shape,
        docs: Items::from_vec(Vec::new(alloc)),
    }
}

/// Returns a text as a name.
///
/// # Errors
///
/// `TooLarge` if the text has more than `u32::MAX` bytes.
fn name_of(text: String) -> Result<Name, NamesFault>
    ensures exact { IfOk result (λ name. name ≡ string_bytes text) }
    ensures fits { IfOk result (λ name. FitsText name) }
{
    let name = Name::from_text(Text::from_string(text));
    let _len = number(name.as_str().len())?;
    Ok(name)
}

/// Returns a list of fields.
///
/// # Errors
///
/// `TooLarge` if there are more than `u32::MAX` fields, and `OutOfMemory` if an allocation fails.
fn fields_of(alloc: Global, list: Vec<Field>) -> Result<Fields, NamesFault>
    requires { AllByRecursion FitsField list.items }
    ensures exact { IfOk result (λ fields. fields ≡ list.items) }
    ensures fits { IfOk result (λ fields. FitsList FitsField fields) }
{
    let _count = number(list.len())?;
    Ok(Fields::from_vec(alloc, list)?)
}

/// Appends a field.
fn push_field(alloc: Global, name: String, ty: u32, list: &mut Vec<Field>) -> Result<(), NamesFault>
    requires { AllByRecursion FitsField list.old.items }
    ensures exact { OnOk result (list.new.items
        ≡ list.old.items ++ field (string_bytes name) ty ∷ []) }
    ensures fits { OnOk result (AllByRecursion FitsField list.new.items) }
{
    let field = Field {
        name: Some(name_of(name)?),
        ty: TypeId(ty),
        type_name: None,
        docs: Items::from_vec(Vec::new(alloc)),
    };
    push(list, field)?;
    Ok(())
}

/// Returns fields with these names and types.
fn fields(alloc: Global, parts: &[(&str, u32)]) -> Result<Fields, NamesFault>
    ensures exact { IfOk result (λ fields. fields ≡ map (λ p. field p.0.now p.1) parts.now) }
    ensures fits { IfOk result (λ fields. FitsList FitsField fields) }
{
    let mut list = with_capacity(alloc, parts.len())?;
    'parts: for (name, ty) in parts {
        push_field(alloc, string_from(alloc, name)?, *ty, &mut list)?;
    }
    fields_of(alloc, list)
}

/// Returns an arm.
fn arm(alloc: Global, name: &str, index: u8, parts: &[(&str, u32)]) -> Result<Arm, NamesFault>
    ensures exact { IfOk result (λ a.
        a ≡ arm name.now index (map (λ p. field p.0.now p.1) parts.now)) }
    ensures fits { IfOk result (λ a. FitsArm a) }
{
    Ok(Arm {
        name: name_of(string_from(alloc, name)?)?,
        fields: fields(alloc, parts)?,
        index,
        docs: Items::from_vec(Vec::new(alloc)),
    })
}

/// Returns the type of extrinsics (Substrate, `UncheckedExtrinsic`, versions 4 and 5).
fn extrinsic(alloc: Global, types: ExtrinsicTypes, byte: u32) -> Result<TypeInfo, NamesFault>
    ensures exact { IfOk result (λ info. info ≡ extrinsic_type types byte) }
    ensures fits { IfOk result (λ info. FitsType info) }
{
    let call = ("call", types.call);
    let extra = ("extra", types.extra);
    let signed = [
        ("address", types.address),
        ("signature", types.signature),
        extra,
        call,
    ];
    let mut arms = with_capacity(alloc, 4)?;
    push(&mut arms, arm(alloc, "bare", 4, &[call])?)?;
    push(&mut arms, arm(alloc, "signed", 132, &signed)?)?;
    push(&mut arms, arm(alloc, "bare_v5", 5, &[call])?)?;
    push(
        &mut arms,
        arm(alloc, "general", 69, &[("version", byte), extra, call])?,
    )?;
    Ok(unnamed(alloc, TypeDef::Variant(Items::from_vec(arms))))
}

/// Returns the type of a hash.
fn hash_type(small: SmallTypes, hash: HashLength) -> u32
    ensures { result ≡ hash_type small hash }
{
    match hash {
        HashLength::Bytes8 => small.bytes8,
        HashLength::Bytes16 => small.bytes16,
        HashLength::Bytes32 => small.bytes32,
    }
}

/// Appends the field of the hash of a part of a key, if it has one.
fn push_hash(
    alloc: Global,
    position: usize,
    hash: Option<HashLength>,
    small: SmallTypes,
    list: &mut Vec<Field>,
) -> Result<(), NamesFault>
    requires { AllByRecursion FitsField list.old.items }
    ensures exact { OnOk result (list.new.items
        ≡ list.old.items ++ hash_field small position hash) }
    ensures fits { OnOk result (AllByRecursion FitsField list.new.items) }
{
    match hash {
        Some(hash) => {
            let name = reported(format!(in alloc; "hash{position}"))?;
            push_field(alloc, name, hash_type(small, hash), list)
        }
        None => Ok(()),
    }
}

/// Appends the field of the key itself, if a part of a key has it.
fn push_key(
    alloc: Global,
    position: usize,
    key: Option<u32>,
    list: &mut Vec<Field>,
) -> Result<(), NamesFault>
    requires { AllByRecursion FitsField list.old.items }
    ensures exact { OnOk result (list.new.items ≡ list.old.items ++ key_field position key) }
    ensures fits { OnOk result (AllByRecursion FitsField list.new.items) }
{
    match key {
        Some(ty) => {
            let name = reported(format!(in alloc; "key{position}"))?;
            push_field(alloc, name, ty, list)
        }
        None => Ok(()),
    }
}

/// Appends the fields of the parts of a key: of the hash, and of the key itself.
fn push_parts(
    alloc: Global,
    parts: &[KeyPart],
    small: SmallTypes,
    list: &mut Vec<Field>,
) -> Result<(), NamesFault>
    requires { AllByRecursion FitsField list.old.items }
    ensures exact { OnOk result (list.new.items
        ≡ list.old.items ++ part_fields small 0 parts.now) }
    ensures fits { OnOk result (AllByRecursion FitsField list.new.items) }
{
    'parts: for (position, part) in parts.iter().enumerate() {
        push_hash(alloc, position, part.hash, small, list)?;
        push_key(alloc, position, part.key, list)?;
    }
    Ok(())
}

/// Returns the type of the keys of a storage entry.
fn storage_key(alloc: Global, parts: &[KeyPart], small: SmallTypes) -> Result<TypeInfo, NamesFault>
    ensures exact { IfOk result (λ info. info ≡ key_type small parts.now) }
    ensures fits { IfOk result (λ info. FitsType info) }
{
    let mut list = Vec::new(alloc);
    push_field(
        alloc,
        string_from(alloc, "pallet")?,
        small.bytes16,
        &mut list,
    )?;
    push_field(
        alloc,
        string_from(alloc, "entry")?,
        small.bytes16,
        &mut list,
    )?;
    push_parts(alloc, parts, small, &mut list)?;
    Ok(unnamed(alloc, TypeDef::Composite(fields_of(alloc, list)?)))
}

/// Appends the field of a parameter, if it has a type.
fn push_input(
    alloc: Global,
    input: &NodeRef<'_, '_>,
    list: &mut Vec<Field>,
) -> Result<(), NamesFault>
    requires { AllByRecursion FitsField list.old.items }
    ensures exact { OnOk result (list.new.items ≡ list.old.items ++ input_fields input.now) }
    ensures fits { OnOk result (AllByRecursion FitsField list.new.items) }
{
    match reference_at(input, 1) {
        Some(ty) => {
            let name = string_from(alloc, text_at(input, 0))?;
            push_field(alloc, name, ty, list)
        }
        None => Ok(()),
    }
}

/// Returns the type of the parameters of a method.
fn parameters(alloc: Global, inputs: &NodeRef<'_, '_>) -> Result<TypeInfo, NamesFault>
    ensures exact { IfOk result (λ info. info ≡ params_type inputs.now) }
    ensures fits { IfOk result (λ info. FitsType info) }
{
    let mut list = Vec::new(alloc);
    'inputs: for input in inputs.children() {
        push_input(alloc, &input, &mut list)?;
    }
    Ok(unnamed(alloc, TypeDef::Composite(fields_of(alloc, list)?)))
}

/// Appends a type.
fn push_type(info: TypeInfo, types: &mut Vec<TypeInfo>) -> Result<(), NamesFault>
    requires info { FitsType info }
    requires types { AllByRecursion FitsType types.old.items }
    ensures exact { OnOk result (types.new.items ≡ types.old.items ++ info ∷ []) }
    ensures fits { OnOk result (AllByRecursion FitsType types.new.items) }
{
    push(types, info)?;
    Ok(())
}

/// Appends a type of this shape, if it is needed.
fn push_if(
    alloc: Global,
    is_needed: bool,
    shape: TypeDef,
    types: &mut Vec<TypeInfo>,
) -> Result<(), NamesFault>
    requires shape { FitsDefinition shape }
    requires types { AllByRecursion FitsType types.old.items }
    ensures exact { OnOk result (types.new.items ≡ types.old.items ++ type_if is_needed shape) }
    ensures fits { OnOk result (AllByRecursion FitsType types.new.items) }
{
    if is_needed {
        push_type(unnamed(alloc, shape), types)
    } else {
        Ok(())
    }
}

/// Appends the small types that are needed, the byte only if the registry has none.
fn push_small(
    alloc: Global,
    needs: Needs,
    byte: u32,
    has_byte: bool,
    types: &mut Vec<TypeInfo>,
) -> Result<(), NamesFault>
    requires { AllByRecursion FitsType types.old.items }
    ensures exact { OnOk result (types.new.items
        ≡ types.old.items ++ small_made needs byte has_byte) }
    ensures fits { OnOk result (AllByRecursion FitsType types.new.items) }
{
    let bytes8 = TypeDef::Array(8, TypeId(byte));
    push_if(alloc, needs.bytes8, bytes8, types)?;
    let bytes16 = TypeDef::Array(16, TypeId(byte));
    push_if(alloc, needs.bytes16, bytes16, types)?;
    let bytes32 = TypeDef::Array(32, TypeId(byte));
    push_if(alloc, needs.bytes32, bytes32, types)?;
    let byte = TypeDef::Primitive(Primitive::U8);
    push_if(alloc, needs.byte && !has_byte, byte, types)
}

/// Returns how many of the things have a synthetic type.
fn made_count(things: &[Thing<'_, '_>]) -> u32
    requires { length things.now < 2 ^ 32 }
    ensures exact { result ≡ made_count (all_named things.now) }
    ensures few { result ≤ length things.now }
{
    let mut count = 0;
    'things: for thing in things {
        if !matches!(thing.meaning, Meaning::Own(_)) {
            count += 1;
        }
    }
    count
}

/// Appends the synthetic type of a thing, if it has one.
fn push_made(
    alloc: Global,
    meaning: &Meaning<'_, '_>,
    small: SmallTypes,
    types: &mut Vec<TypeInfo>,
) -> Result<(), NamesFault>
    requires { AllByRecursion FitsType types.old.items }
    ensures exact { OnOk result (types.new.items
        ≡ types.old.items ++ made small (stands_for meaning.now)) }
    ensures fits { OnOk result (AllByRecursion FitsType types.new.items) }
{
    match meaning {
        Meaning::Own(_) => Ok(()),
        Meaning::Extrinsic(parts) => push_type(extrinsic(alloc, *parts, small.byte)?, types),
        Meaning::Key(parts) => push_type(storage_key(alloc, parts.as_slice(), small)?, types),
        Meaning::Params(inputs) => push_type(parameters(alloc, inputs)?, types),
    }
}

/// Appends the synthetic types of things.
fn push_all_made(
    alloc: Global,
    things: &[Thing<'_, '_>],
    small: SmallTypes,
    types: &mut Vec<TypeInfo>,
) -> Result<(), NamesFault>
    requires { AllByRecursion FitsType types.old.items }
    ensures exact { OnOk result (types.new.items
        ≡ types.old.items ++ all_made small (all_named things.now)) }
    ensures fits { OnOk result (AllByRecursion FitsType types.new.items) }
{
    'things: for thing in things {
        push_made(alloc, &thing.meaning, small, types)?;
    }
    Ok(())
}

/// Returns the types to append to those of a registry: those of things that have one, in order, and
/// then the small types that these need: arrays of 8, 16 and 32 bytes, and the byte if the registry
/// has none.
///
/// # Errors
///
/// `TooLarge` for more than `u32::MAX` bytes or fields; `OutOfMemory` if an allocation fails.
pub fn synthetic_types(
    alloc: Global,
    own: &[TypeInfo],
    things: &[Thing<'_, '_>],
) -> Result<Vec<TypeInfo>, NamesFault>
    requires { length own.now + length things.now + 4 < 2 ^ 32 }
    ensures exact { IfOk result (λ types.
        types.items ≡ synthetic own.now (all_named things.now)) }
    ensures fits { IfOk result (λ types. AllByRecursion FitsType types.items) }
    ensures few { IfOk result (λ types. length own.now + vec_len types < 2 ^ 32) }
{
    let needs = all_needs(things);
    let own_byte = own_byte(own);
    let small = small_types(needs, own.len() as u32 + made_count(things), own_byte);
    let mut types = Vec::new(alloc);
    push_all_made(alloc, things, small, &mut types)?;
    push_small(alloc, needs, small.byte, own_byte.is_some(), &mut types)?;
    Ok(types)
}
