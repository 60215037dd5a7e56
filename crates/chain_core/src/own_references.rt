//! References of types that are no positions among them.

ghost use Rattle.std.specs.Prelude.{◌≡◌, ◌<◌, ◌^◌, flat_map, length};
ghost use Rattle.graph_core.specs.References.{first_fault, first_unknown, references};
ghost use Rattle.graph_core.specs.Types.{field_types, ids};

use registry_core::{Arm, Field, TypeDef, TypeId, TypeInfo};

/// Returns the first type of fields that is none of `count` positions.
fn unknown_field(count: usize, fields: &[Field]) -> Option<u32>
    ensures { result ≡ first_unknown count (field_types fields.now) }
{
    'fields: for field in fields {
        if field.ty.0 as usize >= count {
            return Some(field.ty.0);
        }
    }
    None
}

/// Returns the first of these types that is none of `count` positions.
fn unknown_member(count: usize, members: &[TypeId]) -> Option<u32>
    ensures { result ≡ first_unknown count (ids members.now) }
{
    'members: for member in members {
        if member.0 as usize >= count {
            return Some(member.0);
        }
    }
    None
}

/// Returns the first type of the arms' fields that is none of `count` positions.
fn unknown_in_arms(count: usize, arms: &[Arm]) -> Option<u32>
    ensures { result ≡ first_unknown count (flat_map (λ a. field_types a.fields) arms.now) }
{
    'arms: for arm in arms {
        if let Some(unknown) = unknown_field(count, arm.fields.as_slice()) {
            return Some(unknown);
        }
    }
    None
}

/// Returns the first reference of a definition that is none of `count` positions.
fn unknown_in_definition(count: usize, shape: &TypeDef) -> Option<u32>
    ensures { result ≡ first_unknown count (references shape.now) }
{
    match shape {
        TypeDef::Composite(fields) => unknown_field(count, fields.as_slice()),
        TypeDef::Variant(arms) => unknown_in_arms(count, arms.as_slice()),
        TypeDef::Sequence(ty) | TypeDef::Array(_, ty) | TypeDef::Compact(ty) => {
            unknown_member(count, &[*ty])
        }
        TypeDef::Tuple(members) => unknown_member(count, members.as_slice()),
        TypeDef::Primitive(_) | TypeDef::BitSequence { .. } => None,
    }
}

/// Returns the first reference of these types that is no position among them: the type that
/// contains it, and what it refers to.
pub fn unknown_in_types(types: &[TypeInfo]) -> Option<(u32, u32)>
    requires { length types.now < 2 ^ 32 }
    ensures { result ≡ first_fault types.now }
{
    'types: for (id, info) in types.iter().enumerate() {
        if let Some(unknown) = unknown_in_definition(types.len(), &info.shape) {
            return Some((id as u32, unknown));
        }
    }
    None
}
