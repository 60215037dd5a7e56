//! The outline of a definition, which a graph returns when it opens a type.

ghost use Rattle.std.specs.Prelude.{◌≡◌};
ghost use Rattle.graph_core.specs.Outlines.{outline};

use types_core::{BitForm, Primitive, TypeDef};

/// The outline of a definition: its form without its references, which are read one after the
/// other.
#[derive(Drop)]
pub enum Definition {
    /// The number of fields.
    Composite(usize),
    /// The number of arms.
    Variant(usize),
    Sequence,
    /// The number of elements.
    Array(u32),
    /// The number of members.
    Tuple(usize),
    Primitive(Primitive),
    Compact,
    /// A bit sequence, and how it is read, if it is. Its ids are not references.
    BitSequence(Option<BitForm>),
}

/// Returns the outline of a definition.
pub(crate) fn outline(shape: &TypeDef) -> Definition
    ensures { result ≡ outline shape.now }
{
    match shape {
        TypeDef::Composite(fields) => Definition::Composite(fields.len()),
        TypeDef::Variant(arms) => Definition::Variant(arms.len()),
        TypeDef::Sequence(_) => Definition::Sequence,
        TypeDef::Array(len, _) => Definition::Array(*len),
        TypeDef::Tuple(members) => Definition::Tuple(members.len()),
        TypeDef::Primitive(primitive) => Definition::Primitive(*primitive),
        TypeDef::Compact(_) => Definition::Compact,
        TypeDef::BitSequence { form, .. } => Definition::BitSequence(*form),
    }
}
