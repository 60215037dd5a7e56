//! Describes the types of a registry: their definitions, parts, arms and paths.

ghost use Rattle.std.specs.Prelude.{◌≡◌, ◌≢◌, ◌++◌, List, ℕ, Decides, IfOk, IfErr, IfSome, IsSome};
ghost use Rattle.std.specs.Prelude.{MatchOption, codes, option_copied, option_map, slice_get};
ghost use Rattle.std.specs.Prelude.{string_bytes};
ghost use Rattle.types_core.specs.Fits.{FitsDefinition};
ghost use Rattle.scale_calls.specs.Describing.{IsFirstOfPath, arm_field, described_arm, field_part};
ghost use Rattle.scale_calls.specs.Describing.{described_part, result_map, part_shown};
ghost use Rattle.scale_calls.specs.Describing.{seen_definition};
ghost use Rattle.scale_calls.specs.Describing.{type_arm, type_definition, type_part, type_path};
ghost use Rattle.scale_calls.specs.Lines.{joined_segments};

use crate::lines::joined;
use chain_core::after_front;
use growth_core::Refused;
use registry_core::{Arm, Field, Text, TypeDef, TypeId};
use std::alloc::Global;
use widths_core::{Checked, Class};

/// Why a registry has no such part of a type.
#[derive(Clone, Copy, Debug, PartialEq, Eq)]
pub enum PartRefusal {
    /// The registry has no type at the position.
    UnknownType,
    /// The type has no such part.
    UnknownPart,
}

/// A field of a composite or of an arm, or a member of a tuple.
#[derive(Clone, Copy, Debug)]
pub struct Part<'r> {
    /// The field's name. A member of a tuple and a field of a tuple struct have none.
    pub name: Option<&'r str>,
    /// The position of the type of its values.
    pub ty: u32,
}

/// Returns the class and the definition of the type at a position, or `None` if the registry has
/// no such type.
pub fn type_definition(checked: &Checked, id: u32) -> Option<(Class, &TypeDef)>
    ensures known { option_map seen_definition result ≡ type_definition checked.now.types id }
    ensures fits { IfSome result (λ x. FitsDefinition x.1.now) }
{
    let Some(class) = checked.class(TypeId(id)) else {
        return None;
    };
    let Some(definition) = checked.shape(TypeId(id)) else {
        return None;
    };
    Some((class, definition))
}

/// Returns a field as a part.
fn field_part(field: &Field) -> Part<'_>
    ensures { part_shown result ≡ field_part field.now }
{
    Part {
        name: match &field.name {
            Some(name) => Some(name.as_str()),
            None => None,
        },
        ty: field.ty.0,
    }
}

/// Returns the field at a position as a part, or `None` if there are no more fields.
fn field_at(fields: &[Field], position: u32) -> Option<Part<'_>>
    ensures { option_map part_shown result ≡ option_map field_part (slice_get fields.now position) }
{
    match fields.get(position as usize) {
        Some(field) => Some(field_part(field)),
        None => None,
    }
}

/// Returns the field or member at a position of a definition, or `None` if it has none there.
fn part_of(definition: &TypeDef, position: u32) -> Option<Part<'_>>
    ensures { option_map part_shown result ≡ described_part definition.now position }
{
    match definition {
        TypeDef::Composite(fields) => field_at(fields.as_slice(), position),
        TypeDef::Tuple(members) => match members.as_slice().get(position as usize) {
            Some(member) => Some(Part {
                name: None,
                ty: member.0,
            }),
            None => None,
        },
        TypeDef::Variant(_)
        | TypeDef::Sequence(_)
        | TypeDef::Array(_, _)
        | TypeDef::Primitive(_)
        | TypeDef::Compact(_)
        | TypeDef::BitSequence { .. } => None,
    }
}

/// Returns the arm at a position of a definition, or `None` if it has none there.
pub(crate) fn arm_of(definition: &TypeDef, position: u32) -> Option<&Arm>
    ensures { option_copied result ≡ described_arm definition.now position }
{
    match definition {
        TypeDef::Variant(arms) => arms.as_slice().get(position as usize),
        TypeDef::Composite(_)
        | TypeDef::Sequence(_)
        | TypeDef::Array(_, _)
        | TypeDef::Tuple(_)
        | TypeDef::Primitive(_)
        | TypeDef::Compact(_)
        | TypeDef::BitSequence { .. } => None,
    }
}

/// Returns the composite's field or the tuple's member at a position.
///
/// # Errors
///
/// - `UnknownType` if the registry has no type at the position `id`.
/// - `UnknownPart` if the type is neither a composite nor a tuple, or has no more parts.
pub fn type_part(checked: &Checked, id: u32, position: u32) -> Result<Part<'_>, PartRefusal>
    ensures { result_map part_shown result ≡ type_part checked.now.types id position }
{
    match checked.shape(TypeId(id)) {
        Some(definition) => part_of(definition, position).ok_or(PartRefusal::UnknownPart),
        None => Err(PartRefusal::UnknownType),
    }
}

/// Returns the variant's arm at a position, which is not its index.
///
/// # Errors
///
/// - `UnknownType` if the registry has no type at the position `id`.
/// - `UnknownPart` if the type is no variant, or has no more arms.
pub fn type_arm(checked: &Checked, id: u32, position: u32) -> Result<&Arm, PartRefusal>
    ensures { result_map (λ arm. arm.now) result ≡ type_arm checked.now.types id position }
{
    match checked.shape(TypeId(id)) {
        Some(definition) => arm_of(definition, position).ok_or(PartRefusal::UnknownPart),
        None => Err(PartRefusal::UnknownType),
    }
}

/// Returns the field at a position of the variant's arm at a position.
///
/// # Errors
///
/// - `UnknownType` if the registry has no type at the position `id`.
/// - `UnknownPart` if the type is no variant, or has no such arm, or the arm no such field.
pub fn arm_field(
    checked: &Checked,
    id: u32,
    arm: u32,
    position: u32,
) -> Result<Part<'_>, PartRefusal>
    ensures { result_map part_shown result ≡ arm_field checked.now.types id arm position }
{
    match type_arm(checked, id, arm) {
        Ok(arm) => field_at(arm.fields.as_slice(), position).ok_or(PartRefusal::UnknownPart),
        Err(refusal) => Err(refusal),
    }
}

/// Returns the path of the type at a position, its segments joined by `::`, or `None` if the
/// registry has no such type.
///
/// # Errors
///
/// `Refused` if an allocation fails, which only a type that is there needs.
pub fn type_path(alloc: Global, checked: &Checked, id: u32) -> Result<Option<String>, Refused>
    ensures path { IfOk result
        (λ path. option_map string_bytes path ≡ type_path checked.now.types id) }
    ensures known { IfErr result (λ _. IsSome (type_path checked.now.types id)) }
{
    match checked.registry().types().get(id as usize) {
        Some(info) => Ok(Some(joined(alloc, info.path.as_slice())?)),
        None => Ok(None),
    }
}

/// Returns what follows `::` and a segment, or `None` if the text does not begin with them.
fn after_segment<'t>(text: &'t [u8], segment: &Text) -> Option<&'t [u8]>
    ensures { MatchOption result ((rest : List ℕ) → text.now ≢ (codes "::" ++ segment.now) ++ rest)
        (λ rest. text.now ≡ (codes "::" ++ segment.now) ++ rest.now) }
{
    match after_front(text, "::".as_bytes()) {
        Some(rest) => after_front(rest, segment.as_str().as_bytes()),
        None => None,
    }
}

/// Returns whether the segments, joined by `::`, are a text.
fn is_joined(segments: &[Text], text: &[u8]) -> bool
    ensures { Decides result (joined_segments segments.now ≡ text.now) }
{
    let Some((first, others)) = segments.split_first() else {
        return text.is_empty();
    };
    let Some(mut rest) = after_front(text, first.as_str().as_bytes()) else {
        return false;
    };
    'segments: for segment in others {
        match after_segment(rest, segment) {
            Some(after) => rest = after,
            None => return false,
        }
    }
    rest.is_empty()
}

/// Returns the first position, from `from` on, of a type whose path is a text: its segments
/// joined by `::`. It is `None` if no type from there on has the path.
pub fn find_type(checked: &Checked, from: u32, path: &[u8]) -> Option<u32>
    ensures { IsFirstOfPath checked.now.types from path.now result }
{
    // Nothing is joined, so that the time is proportional to the registry and needs no memory.
    let types = checked.registry().types();
    'types: for id in from as usize..types.len() {
        if is_joined(types[id].path.as_slice(), path) {
            return Some(id as u32);
        }
    }
    None
}
