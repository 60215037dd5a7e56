//! References that are no positions.

ghost use Rattle.std.specs.Prelude.{◌≡◌, option_map};
ghost use Rattle.node_core.specs.Shown.{IsInPool, head_shown};
ghost use Rattle.chain_core.specs.Unknown.{unknown_by, unknown_in};

use crate::rest::REFERENCE;
use node_core::{Content, Node, Value, long_at, node_len};
use std::alloc::Allocator;

/// A reference that is no position.
#[derive(Clone, Copy, Debug, PartialEq, Eq)]
pub struct UnknownInRest {
    /// What it stands for.
    pub ty: u32,
    /// Where it begins, in bytes from the start of the rest.
    pub place: u64,
}

/// Returns what a node stands for, if it is a reference to none of `own` types.
fn unknown_of(node: &Node, pool: &[u8], own: usize) -> Option<u32>
    requires { IsInPool pool.now node.now.content }
    ensures { result
        ≡ unknown_by own node.now.ty.0 (head_shown pool.now node.now.children node.now.content) }
{
    let number = match node.content {
        Content::Compact(number) => u128::from(number),
        Content::LongCompact { start } => long_at(pool, start),
        _ => return None,
    };
    if node.ty.0 != REFERENCE || number < own as u128 || number >= 1 << 32 {
        return None;
    }
    Some(number as u32)
}

/// Returns the first reference of a value that is none of `own` positions, with its place.
pub fn unknown_in_rest<A: Allocator>(value: &Value<'_, A>, own: usize) -> Option<UnknownInRest>
    ensures { option_map (λ u. (u.ty, u.place)) result ≡ unknown_in own value.now }
{
    let (nodes, pool) = value.parts();
    let mut place = 0u64;
    'nodes: for node in nodes {
        if let Some(ty) = unknown_of(node, pool, own) {
            return Some(UnknownInRest { ty, place });
        }
        place = place.saturating_add(node_len(value.checked(), node, pool) as u64);
    }
    None
}
