//! The general turn: one node, or the bytes of one that a piece has.

ghost use Rattle.std.specs.Prelude.{ℕ, List, true, ◌≡◌, ◌<◌, ◌≤◌, ◌+◌, ◌^◌, ◌++◌, length, take};
ghost use Rattle.std.specs.Prelude.{None, IsSome, Ok};
ghost use Rattle.machine_core.specs.Running.{IsCarry, IsRunNext};
ghost use Rattle.value_core.specs.Walked.{next_of};
ghost use Rattle.value_core.specs.Built.{pieces_bytes, unused_in};
ghost use Rattle.value_core.specs.Refusals.{RunLacks, is_complete};
ghost use Rattle.grammar_core.specs.Runs.{run_form};
ghost use Rattle.form_core.specs.Needs.{AreOwn, HasBytes, IsBare, IsNeeded};
ghost use Rattle.form_core.specs.NodeForms.{form_of_bytes};
ghost use Rattle.machine_core.specs.NodeAdds.{TakesNode};
ghost use Rattle.machine_core.specs.Turned.{EndReports};
ghost use Rattle.machine_core.specs.Turned.{IsSound, KeepsNodes, PieceReports};
ghost use Rattle.machine_core.specs.Turned.{StepReports, unused_stop};
ghost use Rattle.machine_core.specs.Turned.{node_turned};

use crate::node::{NodeFault, add_arm, add_plain, add_sequence};
use crate::partial::Partial;
use crate::reason::DecodeReason;
use crate::turned::{Stopped, Tried};
use form_core::{BytesForm, bytes_form, need, read_length};
use scale_core::compact_len;
use std::alloc::Allocator;
use value_core::{Form, Next, RawBuilder, RunKind};

/// Opens the text or the run of bytes that is next by the bytes of its length.
fn take_length<A: Allocator>(
    builder: &mut RawBuilder<'_, A>,
    kind: RunKind,
    own: &[u8],
) -> Result<(), NodeFault>
    requires counted { HasBytes (run_form kind) }
    requires next { next_of builder.old.walk ≡ Next.Wants (run_form kind) }
    requires closed { builder.old.run ≡ None }
    requires whole { AreOwn (run_form kind) own.now }
    ensures { TakesNode (run_form kind) builder.old builder.new own.now result }
{
    let len = read_length(own)?;
    builder.open_run(kind, len);
    Ok(())
}

/// Adds the next node by its own bytes, or opens the run that is next by those of its length.
#[inline(always)]
pub(crate) fn take_node<A: Allocator>(
    builder: &mut RawBuilder<'_, A>,
    form: BytesForm,
    own: &[u8],
) -> Result<(), NodeFault>
    requires next { next_of builder.old.walk ≡ Next.Wants (form_of_bytes form) }
    requires closed { builder.old.run ≡ None }
    requires whole { AreOwn (form_of_bytes form) own.now }
    ensures { TakesNode (form_of_bytes form) builder.old builder.new own.now result }
{
    match form {
        BytesForm::Plain(plain) => add_plain(builder, plain, own),
        BytesForm::Arm => add_arm(builder, own),
        BytesForm::Sequence => add_sequence(builder, own),
        BytesForm::Text => take_length(builder, RunKind::Text, own),
        BytesForm::Bytes => take_length(builder, RunKind::Bytes, own),
        BytesForm::Bits(bits) => take_length(builder, RunKind::Bits(bits), own),
    }
}

/// Returns what a turn did that took the node's own bytes, the last `count` of them the piece's.
#[inline(always)]
fn node_turn(
    taken: Result<(), NodeFault>,
    held: usize,
    count: usize,
    len: usize,
) -> Result<usize, Stopped>
    ensures { result ≡ node_turned taken held count len }
{
    match taken {
        Ok(()) => Ok(count),
        Err(NodeFault::Refused(reason, at)) => Err(Stopped::Refused {
            held,
            reason,
            at,
            len,
        }),
        Err(NodeFault::OutOfMemory(refused)) => Err(Stopped::OutOfMemory(refused)),
    }
}

impl<'r, A: Allocator> Partial<'r, A> {
    /// Takes a turn on a node without bytes of its own.
    fn bare_turn(&mut self, form: Form) -> Result<usize, Stopped>
        requires bare { IsBare form }
        requires next { next_of self.old.built.walk ≡ Next.Wants form }
        requires closed { self.old.built.run ≡ None }
        ensures reports { (piece : List ℕ) → StepReports self.old self.new piece result }
        ensures kept { KeepsNodes self.old self.new result }
    {
        match self.whole_bare(form) {
            Tried::Added(count) => Ok(count),
            Tried::OutOfMemory(refused) => Err(Stopped::OutOfMemory(refused)),
            Tried::Untouched => unreachable!(),
        }
    }

    /// Takes a turn on a node of `len` own bytes: those that are missing, or as many as are there.
    #[inline(always)]
    fn cut_turn(&mut self, form: BytesForm, len: usize, piece: &[u8]) -> Result<usize, Stopped>
        requires next { next_of self.old.built.walk ≡ Next.Wants (form_of_bytes form) }
        requires closed { self.old.built.run ≡ None }
        requires piece { 1 ≤ length piece.now }
        requires len { IsNeeded (form_of_bytes form) len (self.old.carry ++ piece.now) }
        requires short { length self.old.carry < len }
        requires bound { len ≤ 32 }
        ensures reports { StepReports self.old self.new piece.now result }
        ensures kept { KeepsNodes self.old self.new result }
    {
        let held = self.carry.as_slice().len();
        let count = self.carry.fill(len, piece);
        if held + count < len {
            return Ok(count);
        }
        let own = self.carry.as_slice();
        let taken = take_node(&mut self.builder, form, own);
        self.carry.clear();
        node_turn(taken, held, count, len)
    }

    /// Takes a turn on a node with bytes of its own. No run is open.
    #[inline(always)]
    fn own_turn(&mut self, form: BytesForm, piece: &[u8]) -> Result<usize, Stopped>
        requires next { next_of self.old.built.walk ≡ Next.Wants (form_of_bytes form) }
        requires closed { self.old.built.run ≡ None }
        requires carried { IsCarry self.old.built self.old.carry }
        ensures reports { StepReports self.old self.new piece.now result }
        ensures kept { KeepsNodes self.old self.new result }
    {
        if piece.is_empty() {
            return Err(Stopped::Wants);
        }
        let len = need(form, self.carry.first_with(piece));
        self.cut_turn(form, len, piece)
    }

    /// Takes a turn on an array of u8 without bytes so far: adds it if it is complete, or opens it.
    fn byte_array_turn(&mut self, len: u32, piece: &[u8]) -> Result<usize, Stopped>
        requires next { next_of self.old.built.walk ≡ Next.Wants (Form.ByteArray len) }
        requires closed { self.old.built.run ≡ None }
        requires carried { IsCarry self.old.built self.old.carry }
        ensures reports { StepReports self.old self.new piece.now result }
        ensures kept { KeepsNodes self.old self.new result }
    {
        match self.whole_byte_array(len, piece) {
            Tried::Added(count) => return Ok(count),
            Tried::OutOfMemory(refused) => return Err(Stopped::OutOfMemory(refused)),
            Tried::Untouched => {}
        }
        if piece.is_empty() {
            return Err(Stopped::Wants);
        }
        self.builder.open_run(RunKind::ByteArray(len), len);
        self.run_piece(len as usize, piece)
    }

    /// Takes a turn on the open run: appends the bytes that are there, and ends it if none is
    /// missing.
    #[inline(never)]
    fn run_turn(&mut self, piece: &[u8]) -> Result<usize, Stopped>
        requires next { IsRunNext self.old.built self.old.carry self.old.built.run }
        requires open { IsSome self.old.built.run }
        ensures reports { StepReports self.old self.new piece.now result }
        ensures kept { KeepsNodes self.old self.new result }
    {
        let missing = self.builder.run_missing();
        if missing == 0 {
            return self.run_end(0);
        }
        if piece.is_empty() {
            return Err(Stopped::Wants);
        }
        if let Some(after) = self.builder.unused_in(&piece[..piece.len().min(missing)]) {
            return Err(self.unused_stop(after));
        }
        if piece.len() < missing {
            return self.run_piece(missing, piece);
        }
        self.run_rest(&piece[..missing])
    }

    /// Returns the stop at an unused bit that is 1, so many bytes after those of the open run,
    /// which are words of bits.
    fn unused_stop(&self, after: usize) -> Stopped
        requires open { IsSome self.now.built.run }
        requires short { after < 2 ^ 32 }
        ensures { result ≡ unused_stop self.now.built.run after }
    {
        let before = compact_len(u128::from(self.builder.run_len()));
        let held = before + self.builder.run_so_far();
        Stopped::Refused {
            held,
            reason: DecodeReason::UnusedBits,
            at: (held + after) as u64,
            len: held + after + 1,
        }
    }

    /// Appends the bytes that the open run lacks, and ends it.
    fn run_rest(&mut self, rest: &[u8]) -> Result<usize, Stopped>
        requires next { IsRunNext self.old.built self.old.carry self.old.built.run }
        requires lacks { RunLacks self.old.built.run (length rest.now) }
        requires clean { unused_in self.old.built.run rest.now ≡ None }
        requires some { 1 ≤ length rest.now }
        ensures reports { (later : List ℕ) →
            StepReports self.old self.new (rest.now ++ later) result }
        ensures kept { KeepsNodes self.old self.new result }
    {
        if let Err(refused) = self.builder.extend_run(rest) {
            return Err(Stopped::OutOfMemory(refused));
        }
        self.run_end(rest.len())
    }

    /// Moves up to `missing` bytes of the piece, those the open run lacks, to it.
    fn run_piece(&mut self, missing: usize, piece: &[u8]) -> Result<usize, Stopped>
        requires next { IsRunNext self.old.built self.old.carry self.old.built.run }
        requires lacks { RunLacks self.old.built.run missing }
        requires clean { unused_in self.old.built.run (take missing piece.now) ≡ None }
        requires some { 1 ≤ missing }
        requires there { 1 ≤ length piece.now }
        ensures reports { PieceReports self.old self.new piece.now result }
        ensures kept { KeepsNodes self.old self.new result }
    {
        let count = piece.len().min(missing);
        if let Err(refused) = self.builder.extend_run(&piece[..count]) {
            return Err(Stopped::OutOfMemory(refused));
        }
        Ok(count)
    }

    /// Ends the open run, which is complete; its last `count` bytes came in this turn.
    fn run_end(&mut self, count: usize) -> Result<usize, Stopped>
        requires next { IsRunNext self.old.built self.old.carry self.old.built.run }
        requires whole { RunLacks self.old.built.run 0 }
        requires last { count ≤ length (pieces_bytes self.old.built.run) }
        ensures reports { EndReports self.old self.new count result }
        ensures kept { KeepsNodes self.old self.new result }
    {
        if let Some(valid) = self.builder.bad_text() {
            let run_len = self.builder.run_len();
            let before = compact_len(u128::from(run_len));
            let len = before + run_len as usize;
            return Err(Stopped::Refused {
                held: len - count,
                reason: DecodeReason::BadUtf8,
                at: before as u64 + valid,
                len,
            });
        }
        if let Err(refused) = self.builder.close_run() {
            return Err(Stopped::OutOfMemory(refused));
        }
        Ok(count)
    }

    /// Takes a turn on a node of this form, which is next. No run is open.
    fn form_turn(&mut self, form: Form, piece: &[u8]) -> Result<usize, Stopped>
        requires next { next_of self.old.built.walk ≡ Next.Wants form }
        requires closed { self.old.built.run ≡ None }
        requires carried { IsCarry self.old.built self.old.carry }
        ensures reports { StepReports self.old self.new piece.now result }
        ensures kept { KeepsNodes self.old self.new result }
    {
        if let Some(own) = bytes_form(form) {
            return self.own_turn(own, piece);
        }
        match form {
            Form::ByteArray(len) => self.byte_array_turn(len, piece),
            bare => self.bare_turn(bare),
        }
    }

    /// Takes one turn: bytes of the piece, a node, or a stop. Returns how many bytes it took.
    #[inline(never)]
    pub(crate) fn turn(&mut self, piece: &[u8]) -> Result<usize, Stopped>
        ensures reports { StepReports self.old self.new piece.now result }
        ensures kept { KeepsNodes self.old self.new result }
        ensures sound { IsSound self.old }
        ensures whole { is_complete self.old.built ≡ true → result ≡ Err Stopped.Finished }
    {
        match self.builder.walk().next() {
            Next::Finished => Err(Stopped::Finished),
            Next::Stop(reason) => Err(Stopped::Refused {
                held: 0,
                reason: reason.into(),
                at: 0,
                len: 0,
            }),
            Next::Wants(_) if self.builder.is_run_open() => self.run_turn(piece),
            Next::Wants(form) => self.form_turn(form, piece),
        }
    }
}
