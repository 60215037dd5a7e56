//! The remaining parts of an open node, as references of the registry.

ghost use Rattle.std.specs.Prelude.{◌≡◌, ◌≤◌, ℕ, List, is_none};
ghost use Rattle.grammar_core.specs.Parts.{first_of, left_after};
ghost use Rattle.node_core.specs.Remaining.{left_by, copies_of, members_of, repeats, IsWithin};
ghost use Rattle.node_core.specs.Remaining.{after_first, have_one_type};

use crate::node::Node;

/// The parts of an open node that are still to come, the last of its parts.
// Numbers rather than an enum, which would have padding that is moved with it.
#[derive(Clone, Copy)]
pub struct Remaining {
    pub count: u32,
    /// The type of all of them, by its number, if they have one type.
    pub element: u32,
    /// 0 if they have one type. Otherwise each part has a reference of its own, which names its
    /// type. These references are numbered consecutively, and this is the last number plus 2.
    pub end: usize,
}

/// An open node: its position among the nodes, and its remaining parts.
#[derive(Clone, Copy)]
pub struct Frame {
    pub node: usize,
    pub left: Remaining,
}

impl Remaining {
    /// Returns a value of each of `count` references, from number `from` on.
    pub fn members(from: u32, count: u32) -> Remaining
        ensures { result ≡ members_of from count }
    {
        Remaining {
            count,
            element: 0,
            end: from as usize + count as usize + 1,
        }
    }

    /// Returns `count` values of one type.
    pub fn copies(count: u32, element: u32) -> Remaining
        ensures { result ≡ copies_of count element }
    {
        Remaining {
            count,
            element,
            end: 0,
        }
    }

    /// Returns no values.
    pub fn none() -> Remaining
        ensures { result ≡ copies_of 0 0 }
    {
        Remaining::copies(0, 0)
    }

    /// Returns whether no part remains.
    #[inline(always)]
    pub fn is_empty(&self) -> bool
        ensures { (references : List ℕ) → IsWithin references self.now →
            result ≡ is_none (first_of (left_by references self.now)) }
    {
        self.count == 0
    }

    /// Returns the type of the next part, if one remains.
    #[inline(always)]
    pub fn first(&self, references: &[u32]) -> Option<u32>
        requires { IsWithin references.now self.now }
        ensures { result ≡ first_of (left_by references.now self.now) }
    {
        if self.count == 0 {
            return None;
        }
        if self.end == 0 {
            return Some(self.element);
        }
        Some(references[self.end - 1 - self.count as usize])
    }

    /// Removes the next part.
    #[tactic(auto, using(crate::proofs::Members::one_less))]
    #[inline(always)]
    pub fn advance(&mut self)
        requires { 1 ≤ self.old.count }
        ensures left { (references : List ℕ) →
            left_by references self.new ≡ left_after (left_by references self.old) }
        ensures within { (references : List ℕ) → IsWithin references self.old →
            IsWithin references self.new }
    {
        self.count -= 1;
    }

    /// Returns the parts without the next one.
    #[inline(always)]
    pub fn advanced(self) -> Remaining
        requires { 1 ≤ self.count }
        ensures left { (references : List ℕ) →
            left_by references result ≡ left_after (left_by references self) }
        ensures within { (references : List ℕ) → IsWithin references self →
            IsWithin references result }
    {
        let mut left = self;
        left.advance();
        left
    }

    /// Returns whether all remaining parts share one type by the definition of the node.
    #[inline(always)]
    pub fn have_one_type(&self) -> bool
        ensures { (references : List ℕ) →
            result ≡ have_one_type (left_by references self.now) }
    {
        self.end == 0
    }

    /// Returns how many parts follow the next one if all share one type, and otherwise 0.
    #[inline(always)]
    pub fn after_first(&self) -> u32
        ensures { (references : List ℕ) →
            result ≡ after_first (left_by references self.now) }
    {
        if self.end == 0 {
            self.count.saturating_sub(1)
        } else {
            0
        }
    }

    /// Returns whether a part remains and has the type of the one before it.
    #[inline(always)]
    pub fn repeats(&self) -> bool
        ensures { result ≡ repeats self.now }
    {
        self.count != 0 && self.end == 0
    }
}

impl Frame {
    /// Estimates how many nodes the remaining elements of a list will add. Each is expected to have
    /// the mean number of nodes of those so far, and half of the newest one is taken to be missing.
    /// Returns 0 for a node that is not a list, and if no element has begun or none remains.
    pub fn expected(&self, nodes: &[Node]) -> usize {
        let Some(node) = nodes.get(self.node) else {
            return 0;
        };
        let left = self.left.count as usize;
        let came = (node.children as usize).saturating_sub(left);
        if came == 0 || left == 0 || !self.left.have_one_type() {
            return 0;
        }
        let brought = nodes.len() - self.node;
        brought.saturating_mul(2 * left + 1) / (2 * came - 1)
    }
}

const _: () = prove!(size_of::<Frame>() == 24);
