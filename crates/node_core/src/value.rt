//! A complete value.

ghost use Rattle.std.specs.Prelude.{◌≡◌, ◌≤◌, length};
ghost use Rattle.grammar_core.specs.Tree.{nodes, text_bytes};
ghost use Rattle.node_core.specs.Shown.{IsValue, IsWhole, all_kept, seen, tree_shown};

use crate::node::Node;
use crate::node_ref::NodeRef;
use growth_core::GrowVec;
use std::alloc::Allocator;
use std::marker::Model;
use widths_core::Checked;

/// A value of a type of a checked registry: a flat list of its nodes, each before its children, and
/// a pool of the bytes of its texts, runs of bytes, and integers above 64 bits. A node takes
/// [`NODE_BYTES`](crate::NODE_BYTES) bytes of memory.
#[derive(Drop)]
pub struct Value<'r, A: Allocator> {
    checked: &'r Checked,
    nodes: GrowVec<Node, A>,
    pool: GrowVec<u8, A>,
    text_len: usize,
}

impl<'r, A: Allocator> Model for Value<'r, A> {
    ghost use Rattle.std.specs.Coded.{codes};
    ghost use Rattle.std.specs.Prelude.{◌≡◌, ◌≤◌, length};
    ghost use Rattle.grammar_core.specs.Tree.{text_bytes};
    ghost use Rattle.grammar_core.specs.Preorder.{tree_code};
    ghost use Rattle.node_core.specs.Shown.{Seen, seen, tree_shown, IsWhole, all_kept};

    ghost Value = { Seen };

    ghost coded = { Prim.hlevel (codes, tree_code) };

    ghost view = { λ v. seen v.checked.now.types v.pool.list.items v.nodes.list.items };

    ghost invariant = { λ v. IsWhole v.checked.now.types v.pool.list.items v.nodes.list.items
        × (v.text_len ≡ text_bytes (tree_shown v.pool.list.items v.nodes.list.items))
        × (all_kept v.nodes.list.items ≤ length v.pool.list.items) };
}

impl<'r, A: Allocator> Value<'r, A> {
    /// Creates a value of these nodes, each before its children, whose bytes are in the pool;
    /// `text_len` of them are of texts and runs. It allocates nothing.
    pub fn new(
        checked: &'r Checked,
        nodes: GrowVec<Node, A>,
        pool: GrowVec<u8, A>,
        text_len: usize,
    ) -> Value<'r, A>
        requires whole { IsWhole checked.now.types pool.list.items nodes.list.items }
        requires texts { text_len ≡ text_bytes (tree_shown pool.list.items nodes.list.items) }
        requires fits { all_kept nodes.list.items ≤ length pool.list.items }
        ensures { result ≡ seen checked.now.types pool.list.items nodes.list.items }
    {
        Value {
            checked,
            nodes,
            pool,
            text_len,
        }
    }

    /// Returns the registry of its type.
    pub fn checked(&self) -> &'r Checked
        ensures { result.now.types ≡ self.now.types }
    {
        self.checked
    }

    /// Returns the node that contains all others.
    pub fn root<'v>(&'v self) -> NodeRef<'v, 'r>
        ensures same { result ≡ self.now }
        ensures value { IsValue self.now }
    {
        NodeRef::new(self.checked, self.nodes.as_slice(), self.pool.as_slice())
    }

    /// Returns the nodes, each before its children, and the pool of the bytes of their texts and
    /// long integers.
    pub fn parts(&self) -> (&[Node], &[u8])
        ensures whole { IsWhole self.now.types result.1.now result.0.now }
        ensures same { seen self.now.types result.1.now result.0.now ≡ self.now }
        ensures fits { all_kept result.0.now ≤ length result.1.now }
    {
        (self.nodes.as_slice(), self.pool.as_slice())
    }

    /// Returns the number of nodes.
    pub fn node_count(&self) -> u64
        ensures { result ≡ nodes self.now.tree }
    {
        self.nodes.as_slice().len() as u64
    }

    /// Returns the number of bytes of all texts and runs of bytes.
    pub fn text_bytes(&self) -> u64
        ensures { result ≡ text_bytes self.now.tree }
    {
        self.text_len as u64
    }
}
