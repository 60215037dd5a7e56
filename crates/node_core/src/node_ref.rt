//! A borrowed node of a value.

ghost use Rattle.std.specs.Prelude.{◌≡◌, option_map};
ghost use Rattle.node_core.specs.Shown.{IsWhole, IsValue, seen, bytes_of, children_of, text_of};
ghost use Rattle.node_core.specs.Shown.{words_of};
ghost use Rattle.node_core.specs.Whats.{what_of};

use crate::children::Children;
use crate::node::{Content, Node};
use crate::pool::{bit_count, long_at};
use crate::what::What;
use std::marker::Model;
use types_core::TypeId;
use widths_core::Checked;

/// A borrowed node of a value, with its subtree.
#[derive(Drop)]
pub struct NodeRef<'v, 'r> {
    checked: &'r Checked,
    nodes: &'v [Node],
    pool: &'v [u8],
}

impl<'v, 'r> Model for NodeRef<'v, 'r> {
    ghost use Rattle.std.specs.Coded.{codes};
    ghost use Rattle.grammar_core.specs.Preorder.{tree_code};
    ghost use Rattle.node_core.specs.Shown.{Seen, seen, IsWhole};

    ghost Value = { Seen };

    ghost coded = { Prim.hlevel (codes, tree_code) };

    ghost view = { λ n. seen n.checked.now.types n.pool.now n.nodes.now };

    ghost invariant = { λ n. IsWhole n.checked.now.types n.pool.now n.nodes.now };
}

impl<'v, 'r> NodeRef<'v, 'r> {
    /// Creates a reference to the node whose subtree these nodes are.
    pub(crate) fn new(checked: &'r Checked, nodes: &'v [Node], pool: &'v [u8]) -> NodeRef<'v, 'r>
        requires { IsWhole checked.now.types pool.now nodes.now }
        ensures { result ≡ seen checked.now.types pool.now nodes.now }
    {
        NodeRef {
            checked,
            nodes,
            pool,
        }
    }

    /// Returns the registry of the node's type.
    #[inline(always)]
    pub fn checked(&self) -> &'r Checked
        ensures { result.now.types ≡ self.now.types }
    {
        self.checked
    }

    /// Returns the type of the node.
    #[inline(always)]
    pub fn type_id(&self) -> TypeId
        ensures same { result.0 ≡ self.now.ty }
        ensures value { IsValue self.now }
    {
        self.nodes[0].ty
    }

    /// Returns what the node is.
    #[inline(always)]
    pub fn what(&self) -> What
        ensures same { result ≡ what_of self.now.tree }
        ensures value { IsValue self.now }
    {
        match self.nodes[0].content {
            Content::Empty => What::Empty,
            Content::Bool(x) => What::Bool(x),
            Content::Char(x) => What::Char(x),
            Content::Text { .. } => What::Text,
            Content::Bytes { .. } => What::Bytes,
            Content::Unsigned(x) => What::Unsigned(u128::from(x)),
            Content::Compact(x) => What::Compact(u128::from(x)),
            Content::Signed(x) => What::Signed(i128::from(x)),
            Content::LongUnsigned { start } => What::Unsigned(long_at(self.pool, start)),
            Content::LongCompact { start } => What::Compact(long_at(self.pool, start)),
            Content::LongSigned { start } => What::Signed(long_at(self.pool, start).cast_signed()),
            Content::Wide { start } => {
                let mut bytes = [0; 32];
                bytes.copy_from_slice(&self.pool[start..start + 32]);
                What::Wide(bytes)
            }
            Content::Fields { .. } => What::Fields,
            Content::Arm { position, .. } => What::Arm { position },
            Content::List { .. } => What::List,
            Content::Count(count) => What::Count(count),
            Content::Bits { unused, len, .. } => What::Bits(bit_count(unused, len)),
        }
    }

    /// Returns the text if the node is one. A run of bytes is not.
    #[inline(always)]
    pub fn text(&self) -> Option<&'v str>
        ensures { option_map (λ s. s.now) result ≡ text_of self.now.tree }
    {
        match self.nodes[0].content {
            Content::Text { start, len } => {
                let bytes = &self.pool[start..start + len as usize];
                Some(unsafe { std::str::from_utf8_unchecked(bytes) })
            }
            _ => None,
        }
    }

    /// Returns the bytes if the node is a sequence or an array of u8.
    #[inline(always)]
    pub fn bytes(&self) -> Option<&'v [u8]>
        ensures { option_map (λ s. s.now) result ≡ bytes_of self.now.tree }
    {
        match self.nodes[0].content {
            Content::Bytes { start, len } => Some(&self.pool[start..start + len as usize]),
            _ => None,
        }
    }

    /// Returns the bytes of the words if the node is a bit sequence.
    #[inline(always)]
    pub fn words(&self) -> Option<&'v [u8]>
        ensures { option_map (λ s. s.now) result ≡ words_of self.now.tree }
    {
        match self.nodes[0].content {
            Content::Bits { start, len, .. } => Some(&self.pool[start..start + len as usize]),
            _ => None,
        }
    }

    /// Returns an iterator over the children of the node, in order.
    #[inline(always)]
    pub fn children(&self) -> Children<'v, 'r>
        ensures { result ≡ children_of self.now }
    {
        let (_, below) = self.nodes.split_at(1);
        Children::new(self.checked, below, self.pool)
    }
}
