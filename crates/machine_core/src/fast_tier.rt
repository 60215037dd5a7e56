//! The fast tier: turns on nodes that lie complete in a piece, and on lists of one form.

ghost use Rattle.std.specs.Prelude.{ℕ, List, ◌≡◌, ◌≤◌, ◌<◌, ◌++◌, [], Some, None, Err};
ghost use Rattle.std.specs.Prelude.{length};
ghost use Rattle.node_core.specs.Leaves.{leaf_head, FitsLeaf};
ghost use Rattle.value_core.specs.Built.{IsNextLeaf};
ghost use Rattle.value_core.specs.Walked.{elements_after, next_of};
ghost use Rattle.form_core.specs.Fronts.{form_of_front};
ghost use Rattle.form_core.specs.NodeForms.{form_of_bytes};
ghost use Rattle.form_core.specs.Needs.{IsBare};
ghost use Rattle.machine_core.specs.NodeAdds.{IsWholeLeaf};
ghost use Rattle.machine_core.specs.Running.{IsCarry};
ghost use Rattle.machine_core.specs.Turned.{Awaits, ListGoesOn};
ghost use Rattle.machine_core.specs.Turned.{HasParts, WholeReports, WholeTurnsReport};

use crate::general_turn::take_node;
use crate::node::{NodeFault, add_bare};
use crate::partial::Partial;
use crate::turned::Tried;
use count_core::Count;
use form_core::PlainForm::Unsigned;
use form_core::{BytesForm, LeafForm, bytes_form, need};
use std::alloc::Allocator;
use types_core::IntegerWidth::{Bits8, Bits16, Bits32, Bits64, Bits128};
use types_core::Primitive;
use value_core::{Form, Leaf, Next, RunKind};

impl<'r, A: Allocator> Partial<'r, A> {
    /// Takes a turn on a variant or a sequence, if the piece has its own bytes and they are not
    /// rejected.
    #[inline(always)]
    fn whole_own(&mut self, form: BytesForm, piece: &[u8]) -> Tried
        requires parts { HasParts form }
        requires next { Awaits self.old (form_of_bytes form) }
        requires empty { self.old.carry ≡ [] }
        ensures { WholeReports self.old self.new piece.now result }
    {
        if piece.is_empty() {
            return Tried::Untouched;
        }
        let len = need(form, piece[0]);
        if piece.len() < len {
            return Tried::Untouched;
        }
        match take_node(&mut self.builder, form, &piece[..len]) {
            Ok(()) => Tried::Added(len),
            Err(NodeFault::Refused(..)) => Tried::Untouched,
            Err(NodeFault::OutOfMemory(refused)) => Tried::OutOfMemory(refused),
        }
    }

    /// Takes a turn on a node without parts: adds the leaf, which these bytes of the piece spell.
    #[inline(always)]
    fn whole_leaf(&mut self, leaf: Leaf<'_>, own: &[u8]) -> Tried
        requires whole { IsWholeLeaf self.old.built own.now leaf }
        requires next { IsNextLeaf self.old.built.walk (leaf_head leaf) }
        requires fits { FitsLeaf leaf }
        requires empty { self.old.carry ≡ [] }
        ensures reports { (rest : List ℕ) →
            WholeReports self.old self.new (own.now ++ rest) result }
        ensures taken { result ≡ Tried.Untouched → ⊥ }
    {
        if let Err(refused) = self.builder.add_leaf(leaf) {
            return Tried::OutOfMemory(refused);
        }
        Tried::Added(own.len())
    }

    /// Takes a turn on a node without parts, if it lies whole in the piece and is not rejected.
    #[inline(always)]
    fn whole_single<F: LeafForm>(&mut self, form: F, piece: &[u8]) -> Tried
        requires next { Awaits self.old (form_of_front (F.front form)) }
        requires empty { self.old.carry ≡ [] }
        ensures { WholeReports self.old self.new piece.now result }
    {
        match form.leaf_at_front(piece) {
            Some((leaf, count)) => self.whole_leaf(leaf, &piece[..count]),
            None => Tried::Untouched,
        }
    }

    /// Takes a turn on an element of a list that another one follows, which is next then.
    #[inline(always)]
    fn whole_element<F: LeafForm>(&mut self, form: F, piece: &[u8]) -> Tried
        requires next { Awaits self.old (form_of_front (F.front form)) }
        requires empty { self.old.carry ≡ [] }
        requires follows { 1 ≤ elements_after self.old.built.walk }
        ensures reports { WholeReports self.old self.new piece.now result }
        ensures goes_on { ListGoesOn (form_of_front (F.front form)) self.old self.new result }
    {
        let Some((leaf, count)) = form.leaf_at_front(piece) else {
            return Tried::Untouched;
        };
        if let Err(refused) = self.builder.add_element(leaf) {
            return Tried::OutOfMemory(refused);
        }
        self.is_on_its_way();
        Tried::Added(count)
    }

    /// Takes a turn on an array of u8, if it lies whole in the piece.
    pub(crate) fn whole_byte_array(&mut self, len: u32, piece: &[u8]) -> Tried
        requires next { next_of self.old.built.walk ≡ Next.Wants (Form.ByteArray len) }
        requires closed { self.old.built.run ≡ None }
        requires carried { IsCarry self.old.built self.old.carry }
        ensures reports { WholeReports self.old self.new piece.now result }
        ensures short { result ≡ Tried.Untouched → length piece.now < len }
    {
        let count = len as usize;
        if piece.len() < count {
            return Tried::Untouched;
        }
        let own = &piece[..count];
        self.whole_leaf(Leaf::Bytes(own), own)
    }

    /// Takes a turn on a node without bytes of its own, which is added.
    #[inline(always)]
    pub(crate) fn whole_bare(&mut self, form: Form) -> Tried
        requires bare { IsBare form }
        requires next { next_of self.old.built.walk ≡ Next.Wants form }
        requires closed { self.old.built.run ≡ None }
        ensures reports { (piece : List ℕ) → WholeReports self.old self.new piece result }
        ensures taken { result ≡ Tried.Untouched → ⊥ }
    {
        match add_bare(&mut self.builder, form) {
            Ok(()) => Tried::Added(0),
            Err(refused) => Tried::OutOfMemory(refused),
        }
    }

    /// Takes the turns on a composite or a tuple, which is next: two if its one part is an array of
    /// u8 that lies whole in the piece, which is added with it, and otherwise one.
    #[inline(always)]
    fn fields_turns(&mut self, piece: &[u8], turns: &mut Count) -> (usize, Tried)
        requires next { Awaits self.old Form.Fields }
        requires empty { self.old.carry ≡ [] }
        ensures { WholeTurnsReport self.old self.new piece.now turns.old.so_far turns.new.so_far
            result.0 result.1 }
    {
        turns.tick();
        match self.builder.add_wrapped(piece) {
            Ok(Some(count)) => {
                turns.tick();
                (0, Tried::Added(count))
            }
            Ok(None) => (0, self.whole_bare(Form::Fields)),
            Err(refused) => (0, Tried::OutOfMemory(refused)),
        }
    }

    /// Takes turns on nodes of this form, one of which is next, as long as the piece has their
    /// bytes: on all that are left of an open list, or on one. Returns how many bytes those before
    /// the last one took, and the last one's outcome.
    #[inline(always)]
    fn repeat<F: LeafForm>(&mut self, form: F, piece: &[u8], turns: &mut Count) -> (usize, Tried)
        requires next { Awaits self.old (form_of_front (F.front form)) }
        requires empty { self.old.carry ≡ [] }
        ensures { WholeTurnsReport self.old self.new piece.now turns.old.so_far turns.new.so_far
            result.0 result.1 }
    {
        let mut at = 0;
        if self.builder.walk().is_in_list() {
            let mut after = self.builder.walk().elements_after();
            'elements: while after > 0 {
                turns.tick();
                let last = self.whole_element(form, &piece[at..]);
                let Tried::Added(count) = last else {
                    return (at, last);
                };
                at += count;
                after -= 1;
            }
        }
        turns.tick();
        (at, self.whole_single(form, &piece[at..]))
    }

    /// The out-of-line form of [`repeat`](Self::repeat); leaves in `before` how many bytes the
    /// turns before the last one took.
    // A returned pair would lie in memory, which the loop over nodes clears for each of them.
    #[inline(never)]
    fn repeat_call<F: LeafForm>(
        &mut self,
        form: F,
        piece: &[u8],
        turns: &mut Count,
        before: &mut usize,
    ) -> Tried
        requires next { Awaits self.old (form_of_front (F.front form)) }
        requires empty { self.old.carry ≡ [] }
        ensures { WholeTurnsReport self.old self.new piece.now turns.old.so_far turns.new.so_far
            before.new result }
    {
        let (taken, last) = self.repeat(form, piece, turns);
        *before = taken;
        last
    }

    /// Takes the turns of [`repeat`](Self::repeat), in a call.
    #[inline(always)]
    fn repeat_apart<F: LeafForm>(
        &mut self,
        form: F,
        piece: &[u8],
        turns: &mut Count,
    ) -> (usize, Tried)
        requires next { Awaits self.old (form_of_front (F.front form)) }
        requires empty { self.old.carry ≡ [] }
        ensures { WholeTurnsReport self.old self.new piece.now turns.old.so_far turns.new.so_far
            result.0 result.1 }
    {
        let mut before = 0;
        let last = self.repeat_call(form, piece, turns, &mut before);
        (before, last)
    }

    /// Takes a turn on a node of this form, which is next, if the piece has its own bytes.
    #[inline(always)]
    fn whole_node(&mut self, form: Form, piece: &[u8]) -> Tried
        requires next { Awaits self.old form }
        requires empty { self.old.carry ≡ [] }
        ensures { WholeReports self.old self.new piece.now result }
    {
        match form {
            Form::Arm => self.whole_own(BytesForm::Arm, piece),
            Form::Sequence => self.whole_own(BytesForm::Sequence, piece),
            Form::Compact(target) => self.whole_single(target, piece),
            Form::ByteArray(len) => self.whole_byte_array(len, piece),
            other => match bytes_form(other) {
                Some(BytesForm::Plain(plain)) => self.whole_single(plain, piece),
                _ => Tried::Untouched,
            },
        }
    }

    /// Takes turns on nodes that lie whole in the piece, the first of which has this form: on all
    /// that are left of a list of nodes without parts, and otherwise on one.
    // Each arm of integers names its form, so that `repeat` is compiled for it. A piece of one byte
    // has no more than one node for a loop.
    #[inline(always)]
    fn whole_nodes(&mut self, form: Form, piece: &[u8], turns: &mut Count) -> (usize, Tried)
        requires next { Awaits self.old form }
        requires empty { self.old.carry ≡ [] }
        ensures { WholeTurnsReport self.old self.new piece.now turns.old.so_far turns.new.so_far
            result.0 result.1 }
    {
        match form {
            Form::Primitive(Primitive::U8) => self.repeat(Unsigned(Bits8), piece, turns),
            Form::Primitive(Primitive::U16) => self.repeat(Unsigned(Bits16), piece, turns),
            Form::Primitive(Primitive::U32) => self.repeat(Unsigned(Bits32), piece, turns),
            Form::Primitive(Primitive::U64) => self.repeat(Unsigned(Bits64), piece, turns),
            Form::Primitive(Primitive::U128) => self.repeat(Unsigned(Bits128), piece, turns),
            Form::Primitive(Primitive::Str) => self.repeat_apart(RunKind::Text, piece, turns),
            Form::Bytes => self.repeat_apart(RunKind::Bytes, piece, turns),
            Form::Compact(target) if piece.len() > 1 && self.builder.walk().is_in_list() => {
                self.repeat_apart(target, piece, turns)
            }
            Form::Primitive(_) if piece.len() > 1 && self.builder.walk().is_in_list() => {
                match bytes_form(form) {
                    Some(BytesForm::Plain(plain)) => self.repeat_apart(plain, piece, turns),
                    _ => {
                        turns.tick();
                        (0, Tried::Untouched)
                    }
                }
            }
            Form::Fields => self.fields_turns(piece, turns),
            other => {
                turns.tick();
                (0, self.whole_node(other, piece))
            }
        }
    }

    /// Takes turns on nodes that lie whole in the piece, and counts each. Returns how many bytes
    /// the turns before the last one took, and the outcome of the last one. If that is `Untouched`,
    /// it changed nothing, and the next node needs the general turn.
    #[inline(always)]
    pub(crate) fn whole_turns(&mut self, piece: &[u8], turns: &mut Count) -> (usize, Tried)
        ensures { WholeTurnsReport self.old self.new piece.now turns.old.so_far turns.new.so_far
            result.0 result.1 }
    {
        let mut at = 0;
        if self.carry.is_empty() && !self.builder.is_run_open() {
            'nodes: while let Some(form) = self.next_form() {
                let (taken, last) = self.whole_nodes(form, &piece[at..], turns);
                at += taken;
                match last {
                    Tried::Added(count) if at + count < piece.len() => at += count,
                    _ => return (at, last),
                }
            }
        }
        turns.tick();
        self.is_on_its_way();
        (at, Tried::Untouched)
    }
}
