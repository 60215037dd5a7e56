//! The calls of a raw builder that add a node by its content, and the closing of complete nodes.

ghost use Rattle.std.specs.Prelude.{◌≡◌, ◌<◌, ◌≤◌, ◌+◌, ◌++◌, ◌∷◌, [], length, true, false, OnOk};
ghost use Rattle.std.specs.Prelude.{OnErr, Ok, None, vec_len, vec_capacity};
ghost use Rattle.grammar_core.specs.Parts.{each, first_of};
ghost use Rattle.widths_core.specs.Steps.{references_of};
ghost use Rattle.node_core.specs.Leaves.{leaf_head, FitsLeaf, IsAppended};
ghost use Rattle.node_core.specs.Remaining.{left_of, IsWithin};
ghost use Rattle.node_core.specs.Shown.{head_shown, size_shown};
ghost use Rattle.value_core.specs.Begun.{IsBegun};
ghost use Rattle.value_core.specs.Building.{AreBuilt, Settles};
ghost use Rattle.value_core.specs.Built.{IsSettled, closings, settled_walk, with_leaf, with_open};
ghost use Rattle.value_core.specs.Built.{IsNextLeaf, IsNextOpen};
ghost use Rattle.value_core.specs.Walked.{advanced, elements_after, next_of, opened};

use crate::raw_builder::RawBuilder;
use crate::walk::Walk;
use count_core::Count;
use growth_core::{GrowVec, Refused};
use node_core::{Content, Leaf, Node, Remaining};
use std::alloc::Allocator;
use types_core::TypeId;

/// Makes room for one more node of a walk. If there is none, it also reserves for further nodes and
/// for their bytes.
///
/// # Errors
///
/// `Refused` if the allocation for one more fails. Nothing that is there changes in either case.
#[inline(always)]
fn room_for_node<A: Allocator>(
    nodes: &mut GrowVec<Node, A>,
    pool: &mut GrowVec<u8, A>,
    walk: &Walk<'_, A>,
) -> Result<(), Refused>
    ensures nodes { nodes.new.list.items ≡ nodes.old.list.items }
    ensures pool { pool.new.list.items ≡ pool.old.list.items }
    ensures room { OnOk result (vec_len nodes.new.list + 1 ≤ vec_capacity nodes.new.list) }
{
    if nodes.has_room(1) {
        return Ok(());
    }
    walk.grow_for_node(nodes, pool)
}

/// Appends a node without children, and to the pool what does not fit it: both, or
/// neither if an allocation fails.
#[inline(always)]
pub(crate) fn append<A: Allocator>(
    nodes: &mut GrowVec<Node, A>,
    pool: &mut GrowVec<u8, A>,
    walk: &Walk<'_, A>,
    ty: TypeId,
    leaf: Leaf<'_>,
) -> Result<(), Refused>
    requires { FitsLeaf leaf }
    ensures ok { OnOk result (IsAppended ty leaf.entry nodes.old.list.items pool.old.list.items
        nodes.new.list.items pool.new.list.items) }
    ensures err { OnErr result ((nodes.new.list.items ≡ nodes.old.list.items)
        × (pool.new.list.items ≡ pool.old.list.items)) }
{
    room_for_node(nodes, pool, walk)?;
    let content = leaf.keep(pool)?;
    let node = Node {
        ty,
        children: 0,
        content,
    };
    nodes.push_reserved(node);
    Ok(())
}

/// Appends a node, or nothing if an allocation fails.
#[inline(always)]
pub(crate) fn append_node<A: Allocator>(
    nodes: &mut GrowVec<Node, A>,
    pool: &mut GrowVec<u8, A>,
    walk: &Walk<'_, A>,
    node: Node,
) -> Result<(), Refused>
    ensures ok { OnOk result (nodes.new.list.items ≡ nodes.old.list.items ++ node ∷ []) }
    ensures err { OnErr result (nodes.new.list.items ≡ nodes.old.list.items) }
    ensures pool { pool.new.list.items ≡ pool.old.list.items }
{
    room_for_node(nodes, pool, walk)?;
    nodes.push_reserved(node);
    Ok(())
}

/// Closes the innermost open node if it is complete, and returns whether one was closed.
#[inline(always)]
fn close_one<A: Allocator>(walk: &mut Walk<'_, A>, nodes: &mut GrowVec<Node, A>) -> bool
    requires { AreBuilt walk.old nodes.old.list.items }
    ensures settles { Settles walk.old nodes.old.list.items walk.new nodes.new.list.items }
    ensures yes { result ≡ true → length walk.new.frames + 1 ≡ length walk.old.frames }
    ensures no { result ≡ false →
        IsSettled walk.new × (length walk.new.frames ≡ length walk.old.frames) }
{
    let Some(place) = walk.close() else {
        return false;
    };
    let size = nodes.as_slice().len() - place;
    let mut node = nodes.get(place);
    node.content.close(size);
    nodes.replace(place, node);
    true
}

/// Closes the open nodes that are complete, one in each turn, and counts the turns.
#[inline(never)]
fn close_whole<A: Allocator>(
    walk: &mut Walk<'_, A>,
    nodes: &mut GrowVec<Node, A>,
    turns: &mut Count,
)
    requires { AreBuilt walk.old nodes.old.list.items }
    ensures settles { Settles walk.old nodes.old.list.items walk.new nodes.new.list.items }
    ensures walk { walk.new ≡ settled_walk walk.old }
    ensures turns { turns.new.so_far ≡ turns.old.so_far + closings walk.old.frames }
{
    'closing: while close_one(walk, nodes) {
        turns.tick();
    }
}

/// Closes the open nodes that are complete. After most nodes something is next in the innermost
/// one, and then none is.
#[inline(always)]
pub(crate) fn close_complete<A: Allocator>(
    walk: &mut Walk<'_, A>,
    nodes: &mut GrowVec<Node, A>,
    turns: &mut Count,
)
    requires { AreBuilt walk.old nodes.old.list.items }
    ensures settles { Settles walk.old nodes.old.list.items walk.new nodes.new.list.items }
    ensures walk { walk.new ≡ settled_walk walk.old }
    ensures turns { turns.new.so_far ≡ turns.old.so_far + closings walk.old.frames }
{
    if walk.is_finished() {
        close_whole(walk, nodes, turns);
    }
}

impl<'r, A: Allocator> RawBuilder<'r, A> {
    /// Adds a node without children, which must be a value of the next type.
    ///
    /// # Errors
    ///
    /// Returns `Refused` if an allocation fails; the builder is unchanged.
    #[inline(always)]
    pub fn add_leaf(&mut self, leaf: Leaf<'_>) -> Result<(), Refused>
        requires closed { self.old.run ≡ None }
        requires next { IsNextLeaf self.old.walk (leaf_head leaf) }
        requires fits { FitsLeaf leaf }
        ensures ok { OnOk result (self.new ≡ with_leaf self.old (leaf_head leaf.entry)) }
        ensures err { OnErr result (self.new ≡ self.old) }
    {
        let next = self.walk.ty();
        append(&mut self.nodes, &mut self.pool, &self.walk, next, leaf)?;
        self.text_len += leaf.text_len();
        self.walk.advance();
        close_complete(&mut self.walk, &mut self.nodes, &mut self.turns);
        Ok(())
    }

    /// Adds an element of a list, which another element must follow: no node ends with it, and
    /// another of its type is next.
    ///
    /// # Errors
    ///
    /// Returns `Refused` if an allocation fails; the builder is unchanged.
    #[inline(always)]
    pub fn add_element(&mut self, leaf: Leaf<'_>) -> Result<(), Refused>
        requires closed { self.old.run ≡ None }
        requires next { IsNextLeaf self.old.walk (leaf_head leaf) }
        requires fits { FitsLeaf leaf }
        requires follows { 1 ≤ elements_after self.old.walk }
        ensures ok { OnOk result (self.new ≡ with_leaf self.old (leaf_head leaf.entry)) }
        ensures next { OnOk result (next_of self.new.walk ≡ next_of self.old.walk) }
        ensures fewer { OnOk result
            (elements_after self.new.walk + 1 ≡ elements_after self.old.walk) }
        ensures err { OnErr result (self.new ≡ self.old) }
    {
        let ty = self.walk.ty();
        append(&mut self.nodes, &mut self.pool, &self.walk, ty, leaf)?;
        self.text_len += leaf.text_len();
        self.walk.pass_element();
        Ok(())
    }

    /// Adds a node of the next type, whose children come next.
    ///
    /// # Errors
    ///
    /// Returns `Refused` if an allocation fails; the builder is unchanged.
    #[inline(always)]
    pub(crate) fn add_open(&mut self, content: Content, left: Remaining) -> Result<(), Refused>
        requires closed { self.old.run ≡ None }
        requires opened { size_shown content ≡ 0 }
        requires within { IsWithin (references_of self.old.walk.types) left }
        requires next { IsNextOpen self.old.walk (head_shown [] left.count content)
            (left_of self.old.walk.types left) }
        ensures ok { OnOk result (self.new ≡ with_open self.old (head_shown [] left.count content)
            (left_of self.old.walk.types left)) }
        ensures err { OnErr result (self.new ≡ self.old) }
    {
        if left.is_empty() {
            return self.add_childless(content, left);
        }
        let ty = self.walk.ty();
        room_for_node(&mut self.nodes, &mut self.pool, &self.walk)?;
        self.walk.enter(self.nodes.as_slice().len(), left)?;
        self.nodes.push_reserved(Node {
            ty,
            children: left.count,
            content,
        });
        close_complete(&mut self.walk, &mut self.nodes, &mut self.turns);
        Ok(())
    }

    /// Adds a node of the next type that has no children. It is complete at once, so it is never
    /// open.
    ///
    /// # Errors
    ///
    /// Returns `Refused` if an allocation fails; the builder is unchanged.
    #[inline(always)]
    fn add_childless(&mut self, content: Content, left: Remaining) -> Result<(), Refused>
        requires closed { self.old.run ≡ None }
        requires opened { size_shown content ≡ 0 }
        requires none { first_of (left_of self.old.walk.types left) ≡ None }
        requires next { IsNextOpen self.old.walk (head_shown [] left.count content)
            (left_of self.old.walk.types left) }
        ensures ok { OnOk result (self.new ≡ with_open self.old (head_shown [] left.count content)
            (left_of self.old.walk.types left)) }
        ensures err { OnErr result (self.new ≡ self.old) }
    {
        let mut node = Node {
            ty: self.walk.ty(),
            children: left.count,
            content,
        };
        node.content.close(1);
        append_node(&mut self.nodes, &mut self.pool, &self.walk, node)?;
        self.walk.advance();
        self.turns.tick();
        close_complete(&mut self.walk, &mut self.nodes, &mut self.turns);
        Ok(())
    }

    /// Adds a node with its one part, which has no children, as `add_open` and then `add_leaf` do.
    /// The node is complete at once, so it is never open. Returns whether two more nodes fit; if
    /// not, the builder is unchanged.
    ///
    /// # Errors
    ///
    /// Returns `Refused` if an allocation fails; the builder is unchanged.
    #[inline(always)]
    pub(crate) fn add_around(
        &mut self,
        content: Content,
        part: TypeId,
        leaf: Leaf<'_>,
    ) -> Result<bool, Refused>
        requires closed { self.old.run ≡ None }
        requires opened { size_shown content ≡ 0 }
        requires next { IsNextOpen self.old.walk (head_shown [] 1 content) (each (part.0 ∷ [])) }
        requires leaf { IsNextLeaf (opened (advanced self.old.walk) (length self.old.entries)
            (each (part.0 ∷ []))) (leaf_head leaf) }
        requires fits { FitsLeaf leaf }
        ensures yes { result ≡ Ok true → self.new ≡ with_leaf (with_open self.old
            (head_shown [] 1 content) (each (part.0 ∷ []))) (leaf_head leaf.entry) }
        ensures begun { result ≡ Ok true → IsBegun (with_open self.old (head_shown [] 1 content)
            (each (part.0 ∷ []))) }
        ensures no { result ≡ Ok false → self.new ≡ self.old }
        ensures err { OnErr result (self.new ≡ self.old) }
    {
        if !self.nodes.has_room(2) {
            return Ok(false);
        }
        let mut node = Node {
            ty: self.walk.ty(),
            children: 1,
            content,
        };
        node.content.close(2);
        let content = leaf.keep(&mut self.pool)?;
        self.nodes.push_reserved(node);
        self.nodes.push_reserved(Node {
            ty: part,
            children: 0,
            content,
        });
        self.text_len += leaf.text_len();
        self.walk.advance();
        self.turns.tick();
        close_complete(&mut self.walk, &mut self.nodes, &mut self.turns);
        Ok(true)
    }
}
