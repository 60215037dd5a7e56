//! The definitions of types: fields, arms and the eight kinds of definition.
//!
//! A function that reads a part returns it with the bytes after it.

ghost use Rattle.std.specs.Prelude.{◌≡◌};
ghost use Rattle.registry_core.specs.Gives.{Gives};
ghost use Rattle.registry_core.specs.Reading.{field_at, fields_at, arm_read_at, arms_read_at};
ghost use Rattle.registry_core.specs.Reading.{primitive_at, array_at, bit_sequence_at};
ghost use Rattle.registry_core.specs.Reading.{definition_at};

use super::atoms::{
    byte_of, length_of, optional_text_of, text_of, texts_of, type_id_of, type_ids_of, word_of,
};
use super::lists::append;
use super::read_stop::ReadStop;
use crate::fault::RegistryReason;
use std::alloc::Global;
use types_core::{Arm, Field, Fields, Items, Name, Primitive, Text, TypeDef};

/// Returns the text as a name.
fn named(text: Option<Text>) -> Option<Name>
    ensures { result ≡ text }
{
    match text {
        Some(text) => Some(Name::from_text(text)),
        None => None,
    }
}

/// Reads a field.
///
/// # Errors
///
/// The first error in the field, or `Memory` if an allocation fails.
#[tactic(auto, unfolding(crate::specs::Reading::field_at))]
fn field_of(alloc: Global, bytes: &[u8]) -> Result<(Field, &[u8]), ReadStop<'_>>
    ensures { Gives (λ x. (x.0, x.1.now)) result (field_at bytes.now) }
{
    let (name, rest) = optional_text_of(alloc, bytes)?;
    let name = named(name);
    let (ty, rest) = type_id_of(rest)?;
    let (type_name, rest) = optional_text_of(alloc, rest)?;
    let (docs, rest) = texts_of(alloc, rest)?;
    let field = Field {
        name,
        ty,
        type_name,
        docs,
    };
    Ok((field, rest))
}

/// Reads fields: their number, and each in turn.
///
/// # Errors
///
/// The first error in them, or `Memory` if an allocation fails.
#[tactic(auto, unfolding(crate::specs::Reading::fields_at))]
fn fields_of(alloc: Global, bytes: &[u8]) -> Result<(Fields, &[u8]), ReadStop<'_>>
    ensures { Gives (λ x. (x.0, x.1.now)) result (fields_at bytes.now) }
{
    let (count, mut rest) = length_of(bytes)?;
    let mut fields = Vec::new(alloc);
    'fields: for _ in 0..count {
        let (field, after) = field_of(alloc, rest)?;
        append(&mut fields, count, field)?;
        rest = after;
    }
    Ok((Fields::from_vec(alloc, fields)?, rest))
}

/// Reads an arm.
///
/// # Errors
///
/// The first error in the arm, or `Memory` if an allocation fails.
#[tactic(auto, unfolding(crate::specs::Reading::arm_read_at))]
fn arm_of(alloc: Global, bytes: &[u8]) -> Result<(Arm, &[u8]), ReadStop<'_>>
    ensures { Gives (λ x. (x.0, x.1.now)) result (arm_read_at bytes.now) }
{
    let (name, rest) = text_of(alloc, bytes)?;
    let name = Name::from_text(name);
    let (fields, rest) = fields_of(alloc, rest)?;
    let (index, rest) = byte_of(rest)?;
    let (docs, rest) = texts_of(alloc, rest)?;
    let arm = Arm {
        name,
        fields,
        index,
        docs,
    };
    Ok((arm, rest))
}

/// Reads arms: their number, and each in turn.
///
/// # Errors
///
/// The first error in them, or `Memory` if an allocation fails.
#[tactic(auto, unfolding(crate::specs::Reading::arms_read_at))]
fn arms_of(alloc: Global, bytes: &[u8]) -> Result<(Items<Arm>, &[u8]), ReadStop<'_>>
    ensures { Gives (λ x. (x.0, x.1.now)) result (arms_read_at bytes.now) }
{
    let (count, mut rest) = length_of(bytes)?;
    let mut arms = Vec::new(alloc);
    'arms: for _ in 0..count {
        let (arm, after) = arm_of(alloc, rest)?;
        append(&mut arms, count, arm)?;
        rest = after;
    }
    Ok((Items::from_vec(arms), rest))
}

/// Reads a primitive, after the byte of the definition.
///
/// # Errors
///
/// `Truncated` if `bytes` is empty, and `BadPrimitive` if the first byte is above `0e`.
fn primitive_of(bytes: &[u8]) -> Result<(Primitive, &[u8]), ReadStop<'_>>
    ensures { Gives (λ x. (x.0, x.1.now)) result (primitive_at bytes.now) }
{
    let (byte, rest) = byte_of(bytes)?;
    match Primitive::from_byte(byte) {
        Some(primitive) => Ok((primitive, rest)),
        None => Err(ReadStop::Fault(RegistryReason::BadPrimitive, bytes)),
    }
}

/// Reads the length and the element of an array, after the byte of the definition.
///
/// # Errors
///
/// The first error in them.
#[tactic(auto, unfolding(crate::specs::Reading::array_at))]
fn array_of(bytes: &[u8]) -> Result<(TypeDef, &[u8]), ReadStop<'_>>
    ensures { Gives (λ x. (x.0, x.1.now)) result (array_at bytes.now) }
{
    let (len, rest) = word_of(bytes)?;
    let (element, rest) = type_id_of(rest)?;
    Ok((TypeDef::Array(len, element), rest))
}

/// Reads the two types of a bit sequence, after the byte of the definition.
///
/// # Errors
///
/// The first error in them.
#[tactic(auto, unfolding(crate::specs::Reading::bit_sequence_at))]
fn bit_sequence_of(bytes: &[u8]) -> Result<(TypeDef, &[u8]), ReadStop<'_>>
    ensures { Gives (λ x. (x.0, x.1.now)) result (bit_sequence_at bytes.now) }
{
    let (store, rest) = type_id_of(bytes)?;
    let (order, rest) = type_id_of(rest)?;
    let form = None;
    Ok((TypeDef::BitSequence { store, order, form }, rest))
}

/// Reads a definition: its byte, and what follows it.
///
/// # Errors
///
/// - `Truncated` if `bytes` is empty.
/// - `BadDefinition` if the first byte is above `07`.
/// - The first error after that byte, or `Memory` if an allocation fails.
#[tactic(auto, unfolding(crate::specs::Reading::definition_at))]
pub(crate) fn definition_of(alloc: Global, bytes: &[u8]) -> Result<(TypeDef, &[u8]), ReadStop<'_>>
    ensures { Gives (λ x. (x.0, x.1.now)) result (definition_at bytes.now) }
{
    let (kind, rest) = byte_of(bytes)?;
    match kind {
        0 => {
            let (fields, rest) = fields_of(alloc, rest)?;
            Ok((TypeDef::Composite(fields), rest))
        }
        1 => {
            let (arms, rest) = arms_of(alloc, rest)?;
            Ok((TypeDef::Variant(arms), rest))
        }
        2 => {
            let (element, rest) = type_id_of(rest)?;
            Ok((TypeDef::Sequence(element), rest))
        }
        3 => array_of(rest),
        4 => {
            let (members, rest) = type_ids_of(alloc, rest)?;
            Ok((TypeDef::Tuple(members), rest))
        }
        5 => {
            let (primitive, rest) = primitive_of(rest)?;
            Ok((TypeDef::Primitive(primitive), rest))
        }
        6 => {
            let (target, rest) = type_id_of(rest)?;
            Ok((TypeDef::Compact(target), rest))
        }
        7 => bit_sequence_of(rest),
        _ => Err(ReadStop::Fault(RegistryReason::BadDefinition, bytes)),
    }
}
