//! Where a value goes on, and what must come there.

ghost use Rattle.std.specs.Prelude.{◌≡◌, ◌⊎◌, ◌+◌, ◌≤◌, ◌++◌, [], ◌∷◌, length, is_none, vec_len};
ghost use Rattle.std.specs.Prelude.{option_map, slice_get, IfSome, IfNone, IsSome, OnOk, OnErr};
ghost use Rattle.std.specs.Prelude.{vec_capacity};
ghost use Rattle.grammar_core.specs.Parts.{first_of, how_many_left};
ghost use Rattle.widths_core.specs.Steps.{references_of};
ghost use Rattle.value_core.specs.Ahead.{IsStepOf, elements_in, members_in};
ghost use Rattle.node_core.specs.Remaining.{left_of, IsWithin};
ghost use Rattle.value_core.specs.Frames.{open_part_of};
ghost use Rattle.value_core.specs.OpenNodes.{open_parts};
ghost use Rattle.value_core.specs.Opened.{OpensFields, OpensArm, OpensElements, IsListNext};
ghost use Rattle.value_core.specs.Refusals.{is_whole_in};
ghost use Rattle.value_core.specs.Walked.{start_of, next_type, next_of, depth_of, advanced, opened};
ghost use Rattle.value_core.specs.Walked.{Closes, IsBounded, elements_after, is_list_in};
ghost use Rattle.value_core.specs.Wrapped.{WrapsArray};

use grammar_core::{Form, MAX_DEPTH, Next, StopReason, next_of_step};
use growth_core::{GrowVec, Refused};
use node_core::{Frame, Node, Remaining};
use std::alloc::Allocator;
use std::marker::Model;
use types_core::TypeId;
use widths_core::{Checked, TypeStep};

/// Returns the step of a type in the registry's table. A type that the registry lacks has no value.
#[inline(always)]
fn step_of(checked: &Checked, ty: TypeId) -> TypeStep
    ensures { IsStepOf checked.now.types ty.0 result }
{
    checked.step(ty).unwrap_or(TypeStep::NoValue)
}

/// Sets `ty` to the type that is next in an open node, if there is one.
#[inline(always)]
fn look_ahead(checked: &Checked, left: &Remaining, ty: &mut TypeId)
    requires { IsWithin (references_of checked.now.types) left.now }
    ensures { IfSome (first_of (left_of checked.now.types left.now)) (λ t. ty.new.0 ≡ t) }
{
    if let Some(first) = left.first(checked.members()) {
        *ty = TypeId(first);
    }
}

/// Returns the parts of a composite or a tuple of this step, and none for another kind of type.
fn members_in(step: TypeStep) -> Remaining
    ensures { result ≡ members_in step }
{
    match step {
        TypeStep::Parts { from, count } => Remaining::members(from, count),
        _ => Remaining::none(),
    }
}

/// Returns `length` elements of an array or a sequence of this step, and none for another kind.
fn elements_in(step: TypeStep, length: u32) -> Remaining
    ensures { result ≡ elements_in step length }
{
    match step {
        TypeStep::Array { element, .. } | TypeStep::Sequence { element } => Remaining::copies(
            length, element,
        ),
        _ => Remaining::none(),
    }
}

/// Appends a frame. If the allocation fails, it returns `Refused`, and the frames are unchanged.
#[inline(always)]
fn push_frame<A: Allocator>(frames: &mut GrowVec<Frame, A>, frame: Frame) -> Result<(), Refused>
    ensures ok { OnOk result (frames.new.list.items ≡ frames.old.list.items ++ frame ∷ []) }
    ensures len { OnOk result (length frames.new.list.items ≡ length frames.old.list.items + 1) }
    ensures err { OnErr result (frames.new.list.items ≡ frames.old.list.items) }
{
    frames.make_room(1, None)?;
    frames.push_reserved(frame);
    Ok(())
}

/// Returns how many more nodes an open node is expected to bring; 0 if there is none.
fn expected_of(frame: Option<&Frame>, nodes: &[Node]) -> usize {
    frame.map_or(0, |frame| frame.expected(nodes))
}

/// A walk through a value of a type, node by node in the order of their bytes (SCALE codec,
/// "Types": parts stand one after the other, after the index or the length that says which and how
/// many).
// It keeps the innermost open node and those around it, at most two more than the depth limit, and
// the next type, which is looked up once, when the walk comes to it.
#[derive(Drop)]
pub struct Walk<'r, A: Allocator> {
    checked: &'r Checked,
    top: Frame,
    around: GrowVec<Frame, A>,
    /// The type that was looked up last: the next one, if one is left in the innermost node.
    ty: TypeId,
    limit: usize,
}

impl<'r, A: Allocator> Model for Walk<'r, A> {
    ghost use Rattle.std.specs.Prelude.{◌≤◌, ◌+◌, ◌≡◌, length, IfSome};
    ghost use Rattle.value_core.specs.Walked.{Walked};

    ghost Value = { Walked };

    ghost use Rattle.grammar_core.specs.Parts.{first_of};
    ghost use Rattle.widths_core.specs.Steps.{references_of};
    ghost use Rattle.value_core.specs.Frames.{frames_of, AreWithin};
    ghost use Rattle.node_core.specs.Remaining.{left_of, IsWithin};

    ghost view = { λ w. record {
      types = w.checked.now.types;
      limit = w.limit;
      frames = frames_of w.checked.now.types w.top w.around.list.items;
    } };

    ghost invariant = { λ w. (w.limit ≤ 1024) × (length w.around.list.items ≤ w.limit + 1)
        × IfSome (first_of (left_of w.checked.now.types w.top.left)) (λ t. w.ty.0 ≡ t)
        × IsWithin (references_of w.checked.now.types) w.top.left
        × AreWithin (references_of w.checked.now.types) w.around.list.items };
}

impl<'r, A: Allocator> Walk<'r, A> {
    /// Creates a walk through a value of the type `root`, at its start.
    pub(crate) fn new(alloc: A, checked: &'r Checked, root: TypeId, limit: u16) -> Walk<'r, A>
        requires { limit ≤ MAX_DEPTH }
        ensures { result ≡ start_of checked.now.types root.0 limit }
    {
        let left = Remaining::copies(1, root.0);
        Walk {
            checked,
            top: Frame { node: 0, left },
            around: GrowVec::new(alloc),
            ty: root,
            limit: usize::from(limit),
        }
    }

    /// Returns what comes next: nothing if the value is complete, the form of the next node, or why
    /// there can be none (SCALE codec, "Types").
    ///
    /// If several reasons apply, it is the first of: a depth above the limit, a type without a
    /// finite value, a bit sequence that isn't read, a compact that wraps no unsigned integer. It
    /// allocates nothing.
    #[inline(always)]
    pub fn next(&self) -> Next
        ensures { result ≡ next_of self.now }
    {
        if self.is_finished() {
            return Next::Finished;
        }
        if self.around.len() > self.limit {
            return Next::Stop(StopReason::TooDeep);
        }
        next_of_step(self.step())
    }

    /// Returns the depth of the next node: 0 for the root, and one more than that of the node
    /// around it for any other; 0 if nothing is next. It is at most one above the depth limit.
    pub fn depth(&self) -> u16
        ensures depth { result ≡ depth_of self.now }
        ensures bounded { IsBounded self.now }
    {
        if self.top.left.is_empty() {
            0
        } else {
            self.around.len() as u16
        }
    }

    /// Returns whether nothing is next in the innermost open node.
    #[inline(always)]
    pub(crate) fn is_finished(&self) -> bool
        ensures { result ≡ is_none (next_type self.now) }
    {
        self.top.left.is_empty()
    }

    /// Returns whether nothing is left and no node is open.
    pub(crate) fn is_complete(&self) -> bool
        ensures { result ≡ is_whole_in self.now.frames }
    {
        self.around.is_empty() && self.is_finished()
    }

    /// Passes the next node, which is there.
    #[inline(always)]
    pub(crate) fn advance(&mut self)
        requires { IsSome (next_type self.old) }
        ensures { self.new ≡ advanced self.old }
    {
        self.top.left.advance();
        if !self.top.left.repeats() {
            look_ahead(self.checked, &self.top.left, &mut self.ty);
        }
    }

    /// Returns whether the innermost open node is a list, or no node is open. Only then may an
    /// element follow the next one.
    #[inline(always)]
    pub fn is_in_list(&self) -> bool
        ensures { result ≡ is_list_in self.now.frames }
    {
        self.top.left.have_one_type()
    }

    /// Returns how many elements follow the next one in the innermost open list; 0 if the innermost
    /// open node is no list.
    // It is asked once for a list. Inlined, it would be computed for each field beside
    // `is_in_list`.
    #[inline(never)]
    pub fn elements_after(&self) -> u32
        ensures { result ≡ elements_after self.now }
    {
        self.top.left.after_first()
    }

    /// Passes the next element of a list, which another follows; the type stays.
    #[inline(always)]
    pub(crate) fn pass_element(&mut self)
        requires { 1 ≤ elements_after self.old }
        ensures { self.new ≡ advanced self.old }
    {
        self.top.left.advance();
    }

    /// Opens the next node, whose parts come next. If the allocation fails, nothing changes.
    #[inline(always)]
    pub(crate) fn enter(&mut self, node: usize, left: Remaining) -> Result<(), Refused>
        requires next { IsSome (next_type self.old) }
        requires room { length self.old.frames ≤ self.old.limit + 1 }
        requires within { IsWithin (references_of self.old.types) left }
        ensures ok { OnOk result (self.new
            ≡ opened (advanced self.old) node (left_of self.old.types left)) }
        ensures err { OnErr result (self.new ≡ self.old) }
    {
        let frame = Frame {
            node: self.top.node,
            left: self.top.left.advanced(),
        };
        push_frame(&mut self.around, frame)?;
        self.top = Frame { node, left };
        look_ahead(self.checked, &left, &mut self.ty);
        Ok(())
    }

    /// Closes the innermost node if it is complete, and returns its position among the nodes. If
    /// one of its parts is missing, or no node is open, it returns `None` and changes nothing.
    #[inline(always)]
    pub(crate) fn close(&mut self) -> Option<usize>
        ensures some { IfSome result (λ node. Closes self.old self.new node) }
        ensures unchanged { IfNone result (self.new ≡ self.old) }
        ensures none { IfNone result (IsSome (next_type self.old) ⊎ (length self.old.frames ≡ 1)) }
    {
        if !self.is_finished() {
            return None;
        }
        let frame = self.around.pop()?;
        let node = self.top.node;
        self.top = frame;
        look_ahead(self.checked, &frame.left, &mut self.ty);
        Some(node)
    }

    /// Reserves capacity for one more node and for those that the innermost and outermost open
    /// lists are expected to bring, and for their bytes.
    ///
    /// # Errors
    ///
    /// `Refused` if the allocation for one node fails; nothing that is there changes.
    #[cold]
    #[inline(never)]
    pub(crate) fn grow_for_node(
        &self,
        nodes: &mut GrowVec<Node, A>,
        pool: &mut GrowVec<u8, A>,
    ) -> Result<(), Refused>
        ensures nodes { nodes.new.list.items ≡ nodes.old.list.items }
        ensures pool { pool.new.list.items ≡ pool.old.list.items }
        ensures room { OnOk result (vec_len nodes.new.list + 1 ≤ vec_capacity nodes.new.list) }
    {
        // The first of those around is the root's own part, which brings nothing more.
        let (around, kept) = (self.around.as_slice(), nodes.as_slice());
        let inner = expected_of(Some(&self.top), kept).max(expected_of(around.last(), kept));
        let outer = expected_of(around.get(1), kept).max(expected_of(around.get(2), kept));
        let most = inner.max(outer).max(expected_of(around.get(3), kept));
        let len = nodes.len();
        if most == 0 || len == 0 {
            return nodes.make_room(1, None);
        }
        // A sixteenth more, since no two parts of a value are quite alike.
        let expected = most.saturating_add(most / 16);
        let bytes = pool.len().saturating_mul(expected) / len;
        if bytes > 0 {
            pool.make_room_ahead(bytes)?;
        }
        nodes.make_room(1, Some(expected))
    }

    /// Returns the type of the next node, or `None` if nothing is next.
    pub fn next_type(&self) -> Option<TypeId>
        ensures { option_map (λ t. t.0) result ≡ next_type self.now }
    {
        if self.is_finished() {
            None
        } else {
            Some(self.ty)
        }
    }

    /// Returns the open node at this depth, and how many of its parts are begun, none of which
    /// remains: 1, but 0 for the innermost.
    pub(crate) fn open_at(&self, depth: usize) -> Option<(Frame, u32)>
        ensures part { option_map (λ x. (open_part_of self.now.types x.0, x.1)) result
            ≡ slice_get (open_parts self.now.frames) depth }
        ensures counts { IfSome result
            (λ x. how_many_left (left_of self.now.types x.0.left) ≡ x.0.left.count) }
    {
        let count = self.around.len();
        if depth >= count {
            return None;
        }
        if depth + 1 == count {
            return Some((self.top, 0));
        }
        Some((self.around.get(depth + 1), 1))
    }

    /// Returns the registry of the types.
    pub(crate) fn checked(&self) -> &'r Checked
        ensures { result.now.types ≡ self.now.types }
    {
        self.checked
    }

    /// Returns the type of the next node, if there is one.
    #[inline(always)]
    pub(crate) fn ty(&self) -> TypeId
        ensures { IfSome (next_type self.now) (λ t. result.0 ≡ t) }
    {
        self.ty
    }

    /// Returns the step of the next node, if there is one: one look-up.
    #[inline(always)]
    fn step(&self) -> TypeStep
        ensures { IfSome (next_type self.now) (λ t. IsStepOf self.now.types t result) }
    {
        step_of(self.checked, self.ty)
    }

    /// Returns a value of each field or member of the next type.
    pub(crate) fn fields(&self) -> Remaining
        requires { next_of self.now ≡ Next.Wants Form.Fields }
        ensures opens { OpensFields self.now (left_of self.now.types result) }
        ensures counts { how_many_left (left_of self.now.types result) ≡ result.count }
        ensures within { IsWithin (references_of self.now.types) result }
    {
        members_in(self.step())
    }

    /// If the next type is a composite or a tuple of one part, an array of u8 within the depth
    /// limit, returns the part's type and its length in bytes.
    #[inline(always)]
    pub(crate) fn wrapped_array(&self) -> Option<(TypeId, u32)>
        requires { next_of self.now ≡ Next.Wants Form.Fields }
        ensures { IfSome result (λ x. WrapsArray self.now x.0.0 x.1) }
    {
        let left = self.fields();
        if left.count != 1 || self.around.len() >= self.limit {
            return None;
        }
        let part = TypeId(left.first(self.checked.members())?);
        match step_of(self.checked, part) {
            TypeStep::ByteArray { len } => Some((part, len)),
            _ => None,
        }
    }

    /// Returns the position of the first arm of the index in the next type and a value of each of
    /// its fields, or `None` if there is no such arm.
    pub(crate) fn arm(&self, index: u8) -> Option<(u32, Remaining)>
        requires { next_of self.now ≡ Next.Wants Form.Arm }
        ensures opens { OpensArm self.now index
            (option_map (λ x. (x.0, left_of self.now.types x.1)) result) }
        ensures counts { IfSome result
            (λ x. how_many_left (left_of self.now.types x.1) ≡ x.1.count) }
        ensures within { IfSome result (λ x. IsWithin (references_of self.now.types) x.1) }
    {
        let arm = self.checked().arm_step(self.ty(), index)?;
        Some((arm.position, Remaining::members(arm.from, arm.count)))
    }

    /// Returns `length` elements of the next type, which is an array of this length or a sequence.
    pub(crate) fn elements(&self, length: u32) -> Remaining
        requires { IsListNext self.now length }
        ensures opens { OpensElements self.now length (left_of self.now.types result) }
        ensures counts { result.count ≡ length }
        ensures within { IsWithin (references_of self.now.types) result }
    {
        elements_in(self.step(), length)
    }
}
