//! The numbers of references and arms of a registry, and the greatest number of parts of a value.
//!
//! They are counted before memory is allocated for them.

ghost use Rattle.std.specs.Prelude.{◌≡◌, ◌<◌, ◌≤◌, ◌+◌, ◌^◌, length, flat_map, map};
ghost use Rattle.std.specs.Prelude.{IfOk, OnErr};
ghost use Rattle.types_core.specs.Fits.{FitsList, FitsArm, FitsDefinition, FitsRegistry};
ghost use Rattle.graph_core.specs.Cursors.{arm_references};
ghost use Rattle.graph_core.specs.Graphs.{AreSeen, IsMeasured, IsUnread};
ghost use Rattle.graph_core.specs.Sizes.{AreSizes, AreSizesOf};
ghost use Rattle.graph_core.specs.Widths.{greatest};

use crate::graph::Graph;
use crate::too_many::TooMany;
use types_core::{Arm, TypeDef};

/// The numbers of references and arms of types, and the greatest number of parts of a value of one
/// of them.
///
/// Shadowed arms count, and so do the arms of variants without values.
#[derive(Clone, Copy)]
pub struct Sizes {
    pub references: usize,
    pub arms: usize,
    pub widest: u32,
}

/// Returns the sum of two numbers.
///
/// # Errors
///
/// `TooMany` if it is above `usize::MAX`.
fn sum(a: usize, b: usize) -> Result<usize, TooMany>
    ensures same { IfOk result (λ n. n ≡ a + b) }
    ensures large { OnErr result (2 ^ 64 ≤ a + b) }
{
    match a.checked_add(b) {
        Some(sum) => Ok(sum),
        None => Err(TooMany::new()),
    }
}

/// Returns the number of fields of these arms.
///
/// # Errors
///
/// `TooMany` if it is above `usize::MAX`.
fn field_count(arms: &[Arm]) -> Result<usize, TooMany>
    ensures { IfOk result (λ n. n ≡ length (arm_references arms.now)) }
{
    let mut count = 0usize;
    'counted: for position in 0..arms.len() {
        let arm = &arms[position];
        count = sum(count, arm.fields.len())?;
    }
    Ok(count)
}

/// Returns the greatest number of fields of one of these arms.
fn widest_arm(arms: &[Arm]) -> u32
    requires { FitsList FitsArm arms.now }
    ensures { result ≡ greatest (map (λ a. length a.fields) arms.now) }
{
    let mut widest = 0;
    'arms: for position in 0..arms.len() {
        let arm = &arms[position];
        widest = widest.max(arm.fields.len() as u32);
    }
    widest
}

/// Returns the numbers of references and arms of a definition, and the greatest number of parts of
/// a value of it.
///
/// # Errors
///
/// `TooMany` if one of them is above `usize::MAX`.
pub(crate) fn sizes_in(shape: &TypeDef) -> Result<Sizes, TooMany>
    requires { FitsDefinition shape.now }
    ensures { IfOk result (λ s. AreSizesOf shape.now s) }
{
    let (references, arms, widest) = match shape {
        TypeDef::Composite(fields) => (fields.len(), 0, fields.len() as u32),
        TypeDef::Tuple(members) => (members.len(), 0, members.len() as u32),
        TypeDef::Variant(arms) => {
            let arms = arms.as_slice();
            (field_count(arms)?, arms.len(), widest_arm(arms))
        }
        TypeDef::Sequence(_) | TypeDef::Array(..) | TypeDef::Compact(_) => (1, 0, 0),
        TypeDef::Primitive(_) | TypeDef::BitSequence { .. } => (0, 0, 0),
    };
    Ok(Sizes {
        references,
        arms,
        widest,
    })
}

/// Returns the sizes of the types of a graph.
///
/// It takes one look at each type, and none at a reference.
///
/// # Errors
///
/// `TooMany` if one of them is above `usize::MAX`.
pub fn sizes_of(graph: &mut Graph) -> Result<Sizes, TooMany>
    requires fits { FitsRegistry graph.old.registry }
    requires unread { IsUnread graph.old.registry graph.old }
    ensures sizes { IfOk result (λ s. AreSizes graph.old.registry s) }
    ensures measured { IsMeasured graph.old.registry graph.new }
    ensures seen { IfOk result (λ _. AreSeen graph.old.registry graph.new) }
{
    let mut references = 0usize;
    let mut arms = 0usize;
    let mut widest = 0;
    'types: for position in 0..graph.count() {
        let sizes = graph.measure(position as u32)?;
        references = sum(references, sizes.references)?;
        arms = sum(arms, sizes.arms)?;
        widest = widest.max(sizes.widest);
    }
    Ok(Sizes {
        references,
        arms,
        widest,
    })
}
