//! The position in the reading of definitions.

ghost use Rattle.std.specs.Prelude.{◌≡◌, ◌∷◌, [], option_map, slice_get};
ghost use Rattle.graph_core.specs.Cursors.{arm_outline, arms_of, last_of, open_references};
ghost use Rattle.types_core.specs.declared.definition.TypeDef.TheVariants.{Variant};

use types_core::{Arm, TypeDef, TypeId};

/// A position in the reading of definitions.
#[derive(Clone, Copy)]
pub(crate) struct Cursor {
    /// The number of types that were opened to be read. The last of them is open.
    pub types: usize,
    /// The number of arms of the open type that were begun. The fields of the last of them are
    /// open.
    pub arms: usize,
    /// The number of references that were read of what is open.
    pub parts: usize,
}

/// Returns the last of the first `count` arms, or `None` if there is none.
fn last_arm(arms: &[Arm], count: usize) -> Option<&Arm>
    ensures { option_map (λ a. a.now) result ≡ last_of arms.now count }
{
    match count {
        0 => None,
        _ => arms.get(count - 1),
    }
}

/// Returns the one reference of a definition, or `None` if it was read.
fn only(id: TypeId, parts: usize) -> Option<u32>
    ensures { result ≡ slice_get (id.0 ∷ []) parts }
{
    if parts == 0 { Some(id.0) } else { None }
}

/// Returns the type of the field at position `parts` of the open arm, or `None` if there is none.
fn field_of(arms: &[Arm], begun: usize, parts: usize) -> Option<u32>
    ensures { result ≡ slice_get (open_references (Variant arms.now) begun) parts }
{
    let arm = last_arm(arms, begun)?;
    Some(arm.fields.as_slice().get(parts)?.ty.0)
}

impl Cursor {
    /// Returns the next reference of what is open in this definition, or `None` if none is left.
    pub(crate) fn reference(&self, shape: &TypeDef) -> Option<u32>
        ensures { result ≡ slice_get (open_references shape.now self.now.arms) self.now.parts }
    {
        match shape {
            TypeDef::Composite(fields) => Some(fields.as_slice().get(self.parts)?.ty.0),
            TypeDef::Variant(arms) => field_of(arms.as_slice(), self.arms, self.parts),
            TypeDef::Tuple(members) => Some(members.as_slice().get(self.parts)?.0),
            TypeDef::Sequence(id) | TypeDef::Array(_, id) | TypeDef::Compact(id) => {
                only(*id, self.parts)
            }
            TypeDef::Primitive(_) | TypeDef::BitSequence { .. } => None,
        }
    }

    /// Returns the index of the next arm of this definition and the number of its fields, or `None`
    /// if no arm is left.
    pub(crate) fn arm(&self, shape: &TypeDef) -> Option<(u8, usize)>
        ensures { result ≡ arm_outline (slice_get (arms_of shape.now) self.now.arms) }
    {
        match shape {
            TypeDef::Variant(arms) => {
                let arm = arms.as_slice().get(self.arms)?;
                Some((arm.index, arm.fields.len()))
            }
            _ => None,
        }
    }
}
