//! What a registry says of its types beside their definitions: the parameters of generic types, the
//! names of fields' types as the source has them, and the documentation.

ghost use Rattle.std.specs.Prelude.{◌≡◌, option_copied, option_map};
ghost use Rattle.scale_calls.specs.Annotations.{described_field, docs_line, docs_of, field_of};
ghost use Rattle.scale_calls.specs.Annotations.{type_name, type_param};
ghost use Rattle.scale_calls.specs.Describing.{described_arm, result_map};

use crate::describing::{PartRefusal, arm_of};
use registry_core::{Field, Items, Param, Text, TypeDef, TypeInfo};
use widths_core::Checked;

/// What an annotation of a type is about. Positions count from 0.
#[derive(Clone, Copy, Debug, PartialEq, Eq)]
pub enum Subject {
    /// The type.
    Type,
    /// The field of a composite at a position.
    Field(u32),
    /// The arm of a variant at a position, which is not its index.
    Arm(u32),
    /// The field at a position of the arm at a position.
    ArmField { arm: u32, field: u32 },
}

/// Returns the composite's field at a position, or `None` if the definition has none there.
fn composite_field(definition: &TypeDef, position: u32) -> Option<&Field>
    ensures { option_copied result ≡ described_field definition.now position }
{
    match definition {
        TypeDef::Composite(fields) => fields.as_slice().get(position as usize),
        TypeDef::Variant(_)
        | TypeDef::Sequence(_)
        | TypeDef::Array(_, _)
        | TypeDef::Tuple(_)
        | TypeDef::Primitive(_)
        | TypeDef::Compact(_)
        | TypeDef::BitSequence { .. } => None,
    }
}

/// Returns the field that the subject is, or `None` if it is none.
fn field_of(definition: &TypeDef, subject: Subject) -> Option<&Field>
    ensures { option_copied result ≡ field_of definition.now subject }
{
    match subject {
        Subject::Field(position) => composite_field(definition, position),
        Subject::ArmField { arm, field } => {
            arm_of(definition, arm)?
                .fields
                .as_slice()
                .get(field as usize)
        }
        Subject::Type | Subject::Arm(_) => None,
    }
}

/// Returns the documentation of the subject, or `None` if the type has no such part.
fn docs_of(info: &TypeInfo, subject: Subject) -> Option<&Items<Text>>
    ensures { option_copied result ≡ docs_of info.now subject }
{
    match subject {
        Subject::Type => Some(&info.docs),
        Subject::Arm(position) => Some(&arm_of(&info.shape, position)?.docs),
        Subject::Field(_) | Subject::ArmField { .. } => {
            Some(&field_of(&info.shape, subject)?.docs)
        }
    }
}

/// Returns the parameter at a position of the type at the position `id` (scale-info,
/// `TypeParameter`).
///
/// # Errors
///
/// - `UnknownType` if the registry has no type at the position `id`.
/// - `UnknownPart` if the type has no more parameters.
pub fn type_param(checked: &Checked, id: u32, position: u32) -> Result<&Param, PartRefusal>
    ensures { result_map (λ param. param.now) result ≡ type_param checked.now.types id position }
{
    match checked.registry().types().get(id as usize) {
        Some(info) => {
            let param = info.params.as_slice().get(position as usize);
            param.ok_or(PartRefusal::UnknownPart)
        }
        None => Err(PartRefusal::UnknownType),
    }
}

/// Returns the name of a field's type as the source has it (scale-info, `Field`), or `None` if it
/// wasn't kept.
///
/// # Errors
///
/// - `UnknownType` if the registry has no type at the position `id`.
/// - `UnknownPart` if the subject is no field of the type.
pub fn type_name(checked: &Checked, id: u32, subject: Subject) -> Result<Option<&Text>, PartRefusal>
    ensures { result_map option_copied result ≡ type_name checked.now.types id subject }
{
    match checked.registry().types().get(id as usize) {
        Some(info) => match field_of(&info.shape, subject) {
            Some(field) => Ok(field.type_name.as_ref()),
            None => Err(PartRefusal::UnknownPart),
        },
        None => Err(PartRefusal::UnknownType),
    }
}

/// Returns the line at a position of the documentation of a type or of a part of it.
///
/// # Errors
///
/// - `UnknownType` if the registry has no type at the position `id`.
/// - `UnknownPart` if the type has no such part, or its documentation no more lines.
pub fn docs_line(
    checked: &Checked,
    id: u32,
    subject: Subject,
    line: u32,
) -> Result<&Text, PartRefusal>
    ensures { result_map (λ text. text.now) result ≡ docs_line checked.now.types id subject line }
{
    let Some(info) = checked.registry().types().get(id as usize) else {
        return Err(PartRefusal::UnknownType);
    };
    let Some(docs) = docs_of(info, subject) else {
        return Err(PartRefusal::UnknownPart);
    };
    docs.as_slice()
        .get(line as usize)
        .ok_or(PartRefusal::UnknownPart)
}
