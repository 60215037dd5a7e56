//! The path from a value's root to the node that is next.

ghost use Rattle.std.specs.Prelude.{ℕ, List, ◌≡◌, ◌+◌, length, option_map, slice_get};
ghost use Rattle.node_core.specs.Shown.{head_shown};
ghost use Rattle.value_core.specs.OpenNodes.{HasPath, open_path, step_before};

use crate::raw_builder::RawBuilder;
use node_core::{Content, Node};
use std::alloc::Allocator;
use types_core::TypeId;

/// One step of a path: an open node, and which of its parts is begun or next.
#[derive(Clone, Copy, Debug, PartialEq, Eq)]
pub struct PathStep {
    /// The type of the node.
    pub ty: TypeId,
    /// The position of a variant's arm.
    pub arm: Option<u32>,
    /// The position of the part, from 0: of a field, a member or an element.
    pub part: u32,
}

/// Returns the step to the part of the node at a position after which `left` and `begun` parts are
/// to come.
fn step_before(nodes: &[Node], at: usize, left: u32, begun: u32) -> PathStep
    ensures { (pool : List ℕ) → result ≡ step_before (option_map
        (λ n. record { ty = n.ty.0; head = head_shown pool n.children n.content })
        (slice_get nodes.now at)) (left + begun) }
{
    let Some(node) = nodes.get(at).copied() else {
        return PathStep {
            ty: TypeId(0),
            arm: None,
            part: 0,
        };
    };
    let (arm, parts) = match node.content {
        Content::Arm { position, .. } => (Some(position), node.children),
        Content::Fields { .. } | Content::List { .. } => (None, node.children),
        _ => (None, 0),
    };
    PathStep {
        ty: node.ty,
        arm,
        part: parts.saturating_sub(left).saturating_sub(begun),
    }
}

impl<'r, A: Allocator> RawBuilder<'r, A> {
    /// Returns the number of open nodes: how many steps lead to the node that is next, which is its
    /// depth. It is 0 if the value is complete.
    pub fn path_len(&self) -> usize
        ensures len { result ≡ length (open_path self.now) }
        ensures path { HasPath self.now }
    {
        usize::from(self.walk.depth())
    }

    /// Returns the step from the open node at this depth, where the root has depth 0, or `None` if
    /// there are no more open nodes.
    ///
    /// Of the innermost node the part is the one that is next; of another it is the one that the
    /// next step's node is.
    pub fn path_step(&self, depth: usize) -> Option<PathStep>
        ensures step { result ≡ slice_get (open_path self.now) depth }
        ensures path { HasPath self.now }
    {
        let (frame, begun) = self.walk.open_at(depth)?;
        Some(step_before(self.nodes.as_slice(), frame.node, frame.left.count, begun))
    }
}
