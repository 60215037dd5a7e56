//! Looks up what the JSON of a node needs of the definition of its type.

ghost use Rattle.std.specs.Prelude.{◌≡◌, option_map};
ghost use Rattle.widths_core.specs.Targets.{compact_target_of};
ghost use Rattle.graph_core.specs.Types.{shape};
ghost use Rattle.types_core.specs.Kinds.{kind_of};
ghost use Rattle.json_core.specs.Defined.{kind_json, integer_json, compact_json, defined_arm};
ghost use Rattle.json_core.specs.Defined.{composite_fields};
ghost use Rattle.json_core.specs.Json.{declared_bits};

use crate::integer_json::IntegerJson;
use types_core::{Arm, BitForm, Fields, Primitive, PrimitiveKind, TypeDef};
use value_core::NodeRef;

/// Returns how integers of the primitive stand in JSON.
fn primitive_json(primitive: Primitive) -> IntegerJson
    ensures { result ≡ kind_json (kind_of primitive) }
{
    match primitive.kind() {
        PrimitiveKind::Unsigned(width) | PrimitiveKind::Signed(width) => {
            IntegerJson::of_width(width.bytes())
        }
        _ => IntegerJson::Number,
    }
}

/// Returns how integers of the node's type stand in JSON.
pub(crate) fn integer_json(node: &NodeRef<'_, '_>) -> IntegerJson
    ensures { result ≡ integer_json (shape node.now.types node.now.ty) }
{
    match node.checked().shape(node.type_id()) {
        Some(TypeDef::Primitive(primitive)) => primitive_json(*primitive),
        _ => IntegerJson::Number,
    }
}

/// Returns how compact integers of the node's type stand in JSON.
pub(crate) fn compact_json(node: &NodeRef<'_, '_>) -> IntegerJson
    ensures { result ≡ compact_json (compact_target_of node.now.types node.now.ty) }
{
    match node.checked().compact_target(node.type_id()) {
        Some(target) => IntegerJson::of_width(target.bytes()),
        None => IntegerJson::Number,
    }
}

/// Returns the arm at a position of the node's type, if that is a variant.
pub(crate) fn defined_arm<'r>(node: &NodeRef<'_, 'r>, position: u32) -> Option<&'r Arm>
    ensures { option_map (λ a. a.now) result
        ≡ defined_arm (shape node.now.types node.now.ty) position }
{
    match node.checked().shape(node.type_id()) {
        Some(TypeDef::Variant(arms)) => arms.as_slice().get(position as usize),
        _ => None,
    }
}

/// Returns where the bits of the node's type stand in their words, if that is a bit sequence whose
/// words are known.
pub(crate) fn bit_form(node: &NodeRef<'_, '_>) -> Option<BitForm>
    ensures { result ≡ declared_bits (shape node.now.types node.now.ty) }
{
    match node.checked().shape(node.type_id()) {
        Some(TypeDef::BitSequence { form, .. }) => *form,
        _ => None,
    }
}

/// Returns the fields of the node's type, if that is a composite.
pub(crate) fn composite_fields<'r>(node: &NodeRef<'_, 'r>) -> Option<&'r Fields>
    ensures { option_map (λ fs. fs.now) result
        ≡ composite_fields (shape node.now.types node.now.ty) }
{
    match node.checked().shape(node.type_id()) {
        Some(TypeDef::Composite(fields)) => Some(fields),
        _ => None,
    }
}
