//! The children of a node.

ghost use Rattle.std.specs.Prelude.{◌≡◌};
ghost use Rattle.std.specs.Iterator.{YieldsFirstBy, item_count};
ghost use Rattle.node_core.specs.Shown.{IsForest, all_seen};

use crate::node::Node;
use crate::node_ref::NodeRef;
use std::marker::Model;
use widths_core::Checked;

/// An iterator over the children of a node, in order. Each step passes one child and its subtree.
#[derive(Drop)]
pub struct Children<'v, 'r> {
    checked: &'r Checked,
    nodes: &'v [Node],
    pool: &'v [u8],
}

impl<'v, 'r> Model for Children<'v, 'r> {
    ghost use Rattle.std.specs.Prelude.{List};
    ghost use Rattle.std.specs.Coded.{codes};
    ghost use Rattle.grammar_core.specs.Preorder.{tree_code};
    ghost use Rattle.node_core.specs.Shown.{Seen, all_seen, IsForest};

    ghost Value = { List Seen };

    ghost coded = { Prim.hlevel (codes, tree_code) };

    ghost view = { λ c. all_seen c.checked.now.types c.pool.now c.nodes.now };

    ghost invariant = { λ c. IsForest c.checked.now.types c.pool.now c.nodes.now };
}

impl<'v, 'r> Children<'v, 'r> {
    /// Creates an iterator over the roots of these subtrees, which follow one another.
    #[inline(always)]
    pub(crate) fn new(checked: &'r Checked, nodes: &'v [Node], pool: &'v [u8]) -> Children<'v, 'r>
        requires { IsForest checked.now.types pool.now nodes.now }
        ensures { result ≡ all_seen checked.now.types pool.now nodes.now }
    {
        Children {
            checked,
            nodes,
            pool,
        }
    }
}

impl<'v, 'r> Iterator for Children<'v, 'r> {
    type Item = NodeRef<'v, 'r>;

    ghost next_gives = { YieldsFirstBy (λ r. r) (λ s. s) };

    ghost remaining = { item_count (λ s. s) };

    #[inline(always)]
    fn next(&mut self) -> Option<NodeRef<'v, 'r>> {
        let first = self.nodes.first()?;
        let (subtree, rest) = self.nodes.split_at(first.content.size());
        self.nodes = rest;
        Some(NodeRef::new(self.checked, subtree, self.pool))
    }
}
