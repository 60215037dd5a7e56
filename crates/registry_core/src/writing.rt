//! Registries, written in their one encoding.

ghost use Rattle.std.specs.Prelude.{◌≡◌, ◌<◌, ◌++◌, option_map, OnOk, IfOk};
ghost use Rattle.types_core.specs.Fits.{FitsText, FitsTexts, FitsOption, FitsList, FitsParam};
ghost use Rattle.types_core.specs.Fits.{FitsField, FitsArm, FitsDefinition, FitsType};
ghost use Rattle.registry_core.specs.Spelling.{sequence, text, texts, option, type_id, param};
ghost use Rattle.registry_core.specs.Spelling.{field, arm, definition, type_info, spelling};

use growth_core::{Refused, push};
use scale_core::{write_compact, write_text, write_u32};
use std::alloc::Global;
use types_core::{
    Arm, Field, Fields, Items, Name, Param, Registry, Text, TypeDef, TypeId, TypeInfo,
};

/// Appends a text.
///
/// # Errors
///
/// `Refused` if an allocation fails; `out` may then end with a part of the encoding.
fn put_text(out: &mut Vec<u8>, value: &Text) -> Result<(), Refused>
    requires { FitsText value.now }
    ensures { OnOk result (out.new.items ≡ out.old.items ++ text value.now) }
{
    write_text(out, value.as_str())
}

/// Appends a text, which may be absent.
///
/// # Errors
///
/// Those of [`put_text`].
fn put_optional_text(out: &mut Vec<u8>, value: Option<&Text>) -> Result<(), Refused>
    requires { FitsOption FitsText (option_map (λ t. t.now) value) }
    ensures { OnOk result
        (out.new.items ≡ out.old.items ++ option text (option_map (λ t. t.now) value.entry)) }
{
    match value {
        None => push(out, 0)?,
        Some(value) => {
            push(out, 1)?;
            put_text(out, value)?;
        }
    }
    Ok(())
}

/// Appends texts: their number, and each in turn.
///
/// # Errors
///
/// Those of [`put_text`].
fn put_texts(out: &mut Vec<u8>, values: &Items<Text>) -> Result<(), Refused>
    requires { FitsTexts values.now }
    ensures { OnOk result (out.new.items ≡ out.old.items ++ texts values.now) }
{
    write_compact(out, values.len() as u128)?;
    'texts: for value in values.as_slice() {
        put_text(out, value)?;
    }
    Ok(())
}

/// Appends the position of a type.
///
/// # Errors
///
/// Those of [`put_text`].
fn put_type_id(out: &mut Vec<u8>, id: TypeId) -> Result<(), Refused>
    ensures { OnOk result (out.new.items ≡ out.old.items ++ type_id id) }
{
    write_compact(out, u128::from(id.0))
}

/// Appends the position of a type, which may be absent.
///
/// # Errors
///
/// Those of [`put_text`].
fn put_optional_type_id(out: &mut Vec<u8>, id: Option<TypeId>) -> Result<(), Refused>
    ensures { OnOk result (out.new.items ≡ out.old.items ++ option type_id id) }
{
    match id {
        None => push(out, 0)?,
        Some(id) => {
            push(out, 1)?;
            put_type_id(out, id)?;
        }
    }
    Ok(())
}

/// Appends the positions of types: their number, and each in turn.
///
/// # Errors
///
/// Those of [`put_text`].
fn put_type_ids(out: &mut Vec<u8>, ids: &Items<TypeId>) -> Result<(), Refused>
    ensures { OnOk result (out.new.items ≡ out.old.items ++ sequence type_id ids.now) }
{
    write_compact(out, ids.len() as u128)?;
    'ids: for id in ids.as_slice() {
        put_type_id(out, *id)?;
    }
    Ok(())
}

/// Appends a parameter.
///
/// # Errors
///
/// Those of [`put_text`].
fn put_param(out: &mut Vec<u8>, value: &Param) -> Result<(), Refused>
    requires { FitsParam value.now }
    ensures { OnOk result (out.new.items ≡ out.old.items ++ param value.now) }
{
    put_text(out, &value.name)?;
    put_optional_type_id(out, value.ty)
}

/// Appends parameters: their number, and each in turn.
///
/// # Errors
///
/// Those of [`put_text`].
fn put_params(out: &mut Vec<u8>, values: &Items<Param>) -> Result<(), Refused>
    requires { FitsList FitsParam values.now }
    ensures { OnOk result (out.new.items ≡ out.old.items ++ sequence param values.now) }
{
    write_compact(out, values.len() as u128)?;
    'params: for value in values.as_slice() {
        put_param(out, value)?;
    }
    Ok(())
}

/// Returns the name as a text, if there is one.
fn text_of(name: &Option<Name>) -> Option<&Text>
    ensures { option_map (λ t. t.now) result ≡ name.now }
{
    match name {
        Some(name) => Some(name.as_text()),
        None => None,
    }
}

/// Appends a field.
///
/// # Errors
///
/// Those of [`put_text`].
fn put_field(out: &mut Vec<u8>, value: &Field) -> Result<(), Refused>
    requires { FitsField value.now }
    ensures { OnOk result (out.new.items ≡ out.old.items ++ field value.now) }
{
    put_optional_text(out, text_of(&value.name))?;
    put_type_id(out, value.ty)?;
    put_optional_text(out, value.type_name.as_ref())?;
    put_texts(out, &value.docs)
}

/// Appends fields: their number, and each in turn.
///
/// # Errors
///
/// Those of [`put_text`].
fn put_fields(out: &mut Vec<u8>, values: &Fields) -> Result<(), Refused>
    requires { FitsList FitsField values.now }
    ensures { OnOk result (out.new.items ≡ out.old.items ++ sequence field values.now) }
{
    write_compact(out, values.len() as u128)?;
    'fields: for value in values.as_slice() {
        put_field(out, value)?;
    }
    Ok(())
}

/// Appends an arm.
///
/// # Errors
///
/// Those of [`put_text`].
fn put_arm(out: &mut Vec<u8>, value: &Arm) -> Result<(), Refused>
    requires { FitsArm value.now }
    ensures { OnOk result (out.new.items ≡ out.old.items ++ arm value.now) }
{
    put_text(out, value.name.as_text())?;
    put_fields(out, &value.fields)?;
    push(out, value.index)?;
    put_texts(out, &value.docs)
}

/// Appends arms: their number, and each in turn.
///
/// # Errors
///
/// Those of [`put_text`].
fn put_arms(out: &mut Vec<u8>, values: &Items<Arm>) -> Result<(), Refused>
    requires { FitsList FitsArm values.now }
    ensures { OnOk result (out.new.items ≡ out.old.items ++ sequence arm values.now) }
{
    write_compact(out, values.len() as u128)?;
    'arms: for value in values.as_slice() {
        put_arm(out, value)?;
    }
    Ok(())
}

/// Appends a definition: its byte, and what follows it.
///
/// # Errors
///
/// Those of [`put_text`].
fn put_definition(out: &mut Vec<u8>, value: &TypeDef) -> Result<(), Refused>
    requires { FitsDefinition value.now }
    ensures { OnOk result (out.new.items ≡ out.old.items ++ definition value.now) }
{
    match value {
        TypeDef::Composite(fields) => {
            push(out, 0)?;
            put_fields(out, fields)
        }
        TypeDef::Variant(arms) => {
            push(out, 1)?;
            put_arms(out, arms)
        }
        TypeDef::Sequence(element) => {
            push(out, 2)?;
            put_type_id(out, *element)
        }
        TypeDef::Array(len, element) => {
            push(out, 3)?;
            write_u32(out, *len)?;
            put_type_id(out, *element)
        }
        TypeDef::Tuple(members) => {
            push(out, 4)?;
            put_type_ids(out, members)
        }
        TypeDef::Primitive(primitive) => {
            push(out, 5)?;
            push(out, primitive.to_byte())?;
            Ok(())
        }
        TypeDef::Compact(target) => {
            push(out, 6)?;
            put_type_id(out, *target)
        }
        TypeDef::BitSequence { store, order, .. } => {
            push(out, 7)?;
            put_type_id(out, *store)?;
            put_type_id(out, *order)
        }
    }
}

/// Appends a type, without its id.
///
/// # Errors
///
/// Those of [`put_text`].
fn put_type_info(out: &mut Vec<u8>, value: &TypeInfo) -> Result<(), Refused>
    requires { FitsType value.now }
    ensures { OnOk result (out.new.items ≡ out.old.items ++ type_info value.now) }
{
    put_texts(out, &value.path)?;
    put_params(out, &value.params)?;
    put_definition(out, &value.shape)?;
    put_texts(out, &value.docs)
}

/// Returns the one encoding of a registry, without a prefix (scale-info, `PortableRegistry` in its
/// portable form).
///
/// # Errors
///
/// `Refused` if an allocation fails; nothing is kept.
#[tactic(auto, unfolding(crate::specs::Spelling::spelling))]
pub fn write_registry(alloc: Global, registry: &Registry) -> Result<Vec<u8>, Refused>
    ensures { IfOk result (λ bytes. bytes.items ≡ spelling registry.now) }
{
    let mut out = Vec::new(alloc);
    let types = registry.types();
    write_compact(&mut out, types.len() as u128)?;
    'types: for (position, value) in types.iter().enumerate() {
        write_compact(&mut out, position as u128)?;
        put_type_info(&mut out, value)?;
    }
    Ok(out)
}
