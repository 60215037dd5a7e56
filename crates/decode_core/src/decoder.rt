//! The streaming decoder.

ghost use Rattle.std.specs.Prelude.{◌≡◌, ◌+◌, ◌++◌, ◌≤◌, [], ℕ, List, Ok, Err, IfOk, length};
ghost use Rattle.std.specs.Prelude.{suc, take, true, IfErr, OnOk, ◌-◌, ◌^◌, option_map, slice_get};
ghost use Rattle.value_core.specs.Built.{finished};
ghost use Rattle.value_core.specs.Refusals.{is_complete};
ghost use Rattle.machine_core.specs.Running.{Running};
ghost use Rattle.outcome_core.specs.Outcome.{Query};
ghost use Rattle.outcome_core.specs.Bound.{node_bound};
ghost use Rattle.decode_core.specs.Decoding.{AnswersPiece, AsksMemory, CountsValue, Decoding};
ghost use Rattle.decode_core.specs.Decoding.{FedAsks, FedCounts, FedTakes, FinishesDecoder};
ghost use Rattle.decode_core.specs.Decoding.{HasCounted, HasValue, HoldsAt, IsKept, IsLedTo};
ghost use Rattle.decode_core.specs.Decoding.{IsSmall, IsSmallAtEnd, IsSmallValue, Led, LoopCounted};
ghost use Rattle.decode_core.specs.Decoding.{OpensDecoder, RunAnswers, RunLed, closing_turns};
ghost use Rattle.decode_core.specs.Decoding.{first_of_all, first_running, node_count};
ghost use Rattle.decode_core.specs.Decoding.{opening_fault, text_bytes};
ghost use Rattle.decode_core.specs.Paths.{PathLed, decoder_next, decoder_path};
ghost use Rattle.graph_core.specs.Widths.{widest};

use crate::fault::{DecodeFault, OpenFault};
use count_core::Count;
use grammar_core::MAX_DEPTH;
use machine_core::{DecodeReason, Partial, Stopped};
use std::alloc::Allocator;
use std::marker::Model;
use std::mem;
use types_core::TypeId;
use value_core::{Limits, PathStep, RawBuilder, Value};
use widths_core::Checked;

/// The greatest limit of bytes, 2^40.
const MAX_BYTES: u64 = 1_099_511_627_776;

/// How far a value has come.
#[derive(Clone, Copy, Debug, PartialEq, Eq)]
pub enum Progress {
    /// All bytes were taken, and the value needs more.
    More,
    /// The value is complete.
    Done {
        /// The number of bytes of this piece that belong to the value.
        used: u64,
    },
}

/// A streaming decoder of one value of a type. The bytes may come in any pieces.
///
/// It keeps the nodes so far, the bytes so far of an open text or run of bytes, and at most 32
/// bytes of the next node. It keeps no other input.
///
/// # Examples
///
/// A u32 in two pieces, and a byte after it:
///
/// ```
/// let limits = Limits::default_limits();
/// let mut decoder = Decoder::new(alloc, &checked, TypeId(0), limits)?;
/// assert_eq!(rt; decoder.feed(b"\x2a\x00\x00")?, Progress::More);
/// assert_eq!(rt; decoder.feed(b"\x00\xff")?, Progress::Done { used: 1 });
/// let value = decoder.finish()?;
/// assert_eq!(rt; value.root().what(), What::Unsigned(42));
/// ```
#[derive(Drop)]
pub struct Decoder<'r, A: Allocator> {
    checked: &'r Checked,
    root: TypeId,
    limits: Limits,
    taken: u64,
    run: Result<Partial<'r, A>, DecodeFault>,
    turns: Count,
    /// The turns of a builder that was given up.
    closings: Count,
    calls: Count,
}

impl<'r, A: Allocator> Model for Decoder<'r, A> {
    ghost use Rattle.decode_core.specs.Decoding.{Decoding, IsDecoding};
    ghost use Rattle.decode_core.specs.Viewed.{decoding_of};

    ghost Value = { Decoding };

    ghost view = { decoding_of };

    ghost invariant = { λ d. IsDecoding (decoding_of d) };
}

/// What a piece made of a value in progress.
enum Fed {
    /// All bytes were taken: the number of them in all.
    More(u64),
    /// The value is complete, with so many bytes of the piece.
    Done(u64),
    /// It is rejected, with so many bytes taken in all.
    Ended(DecodeFault, u64),
}

/// Returns a value in progress that has taken no bytes.
///
/// # Errors
///
/// Those of [`Decoder::new`].
pub(crate) fn first_run<'r, A: Allocator + Clone>(
    alloc: A,
    checked: &'r Checked,
    root: TypeId,
    limits: Limits,
) -> Result<Partial<'r, A>, OpenFault>
    ensures opens { OpensDecoder (opening_fault checked.now.types root.0 limits)
        (first_running checked.now.types root.0 limits.depth) result }
    ensures limit { OnOk result (limits.bytes ≤ 2 ^ 40) }
{
    if checked.class(root).is_none() {
        return Err(OpenFault::UnknownType);
    }
    if limits.depth > MAX_DEPTH || limits.bytes > MAX_BYTES {
        return Err(OpenFault::LimitOutOfRange);
    }
    let builder = RawBuilder::begin(alloc, checked, root, limits.depth)?;
    Ok(Partial::new(builder))
}

/// Returns the front of the piece that the limit of bytes leaves room for.
pub(crate) fn within(piece: &[u8], room: u64) -> &[u8]
    ensures { result.now ≡ take room piece.now }
{
    &piece[..room.min(piece.len() as u64) as usize]
}

/// Takes the turns on a piece after `taken` bytes, of which there may be `limit`.
fn feed_run<A: Allocator>(
    run: &mut Partial<'_, A>,
    limit: u64,
    taken: u64,
    piece: &[u8],
    turns: &mut Count,
) -> Fed
    requires led { IsLedTo run.old limit taken }
    ensures answers { (j : Query) (b : List ℕ) → j.bytes ≡ limit → RunLed j b taken (Ok run.old) →
        RunAnswers j (b ++ piece.now) taken run.new result }
    ensures whole { is_complete run.old.built ≡ true → (result ≡ Fed.Done 0) × (run.new ≡ run.old) }
    ensures takes { FedTakes taken (length piece.now) result }
    ensures memory { FedAsks run.old (take (limit - taken) piece.now) taken result }
    ensures counts { (j : Query) (b : List ℕ) (calls : ℕ) → j.bytes ≡ limit →
        RunLed j b taken (Ok run.old) → LoopCounted taken run.old turns.old.so_far calls →
        FedCounts j run.new taken turns.new.so_far (suc calls) result }
{
    let offered = within(piece, limit - taken);
    let (count, stopped) = run.feed(offered, turns);
    let fed = taken + count as u64;
    match stopped {
        Stopped::Finished => Fed::Done(count as u64),
        Stopped::OutOfMemory(refused) => {
            let reason = DecodeReason::OutOfMemory(refused);
            Fed::Ended(DecodeFault { reason, at: 0 }, fed)
        }
        Stopped::Wants if offered.len() < piece.len() => {
            let reason = DecodeReason::TooLong;
            Fed::Ended(DecodeFault { reason, at: limit }, limit)
        }
        Stopped::Wants => Fed::More(fed),
        Stopped::Refused {
            held,
            reason,
            at,
            len,
        } => {
            let node = fed - held as u64;
            let at = node + at;
            Fed::Ended(DecodeFault { reason, at }, node + len as u64)
        }
    }
}

/// Gives up a value for this fault, and returns how many turns its builder has taken.
#[inline(never)]
fn give_up<A: Allocator>(run: &mut Result<Partial<'_, A>, DecodeFault>, fault: DecodeFault) -> Count
    ensures after { run.new ≡ Err fault }
    ensures turns { result.so_far ≡ closing_turns run.old 0 }
{
    match mem::replace(run, Err(fault)) {
        Ok(run) => run.into_turns(),
        Err(_) => Count::new(),
    }
}

impl<'r, A: Allocator + Clone> Decoder<'r, A> {
    /// Returns a decoder of a value of the root's type that has taken no bytes. Everything that
    /// it keeps comes from the allocator and its clones.
    ///
    /// # Errors
    ///
    /// In this order: `UnknownType` if the id is no position of the registry, `LimitOutOfRange` if
    /// the depth is above 1024 or the limit of bytes above 2^40, and `OutOfMemory` if an allocation
    /// fails.
    pub fn new(
        alloc: A,
        checked: &'r Checked,
        root: TypeId,
        limits: Limits,
    ) -> Result<Decoder<'r, A>, OpenFault>
        ensures opens { OpensDecoder (opening_fault checked.now.types root.0 limits)
            (first_of_all checked.now.types root.0 limits) result }
        ensures led { IfOk result (λ d. Led d []) }
    {
        let run = first_run(alloc, checked, root, limits)?;
        Ok(Decoder {
            checked,
            root,
            limits,
            taken: 0,
            run: Ok(run),
            turns: Count::new(),
            closings: Count::new(),
            calls: Count::new(),
        })
    }
}

impl<'r, A: Allocator> Decoder<'r, A> {
    /// Returns the number of bytes taken so far: all that were fed while the value needs more, its
    /// own when it is complete, and those up to the deciding one, inclusive, after an error. After
    /// `OutOfMemory` they are those taken before the allocation failed.
    ///
    /// No call makes it less, and none adds more than the bytes of its piece.
    pub fn taken(&self) -> u64
        ensures { result ≡ self.now.taken }
    {
        self.taken
    }

    /// Returns the number of nodes held, which is 0 after an error.
    ///
    /// They are at most `(n + 1) * (depth + 1) * (widest + 1)`, where n is the number of bytes
    /// taken, and at most `1 + n * (depth + 1) * (widest + 1)` of a complete value.
    pub fn node_count(&self) -> u64
        ensures count { result ≡ node_count self.now }
        ensures bound { result ≤ node_bound self.now.taken self.now.query.depth
            (widest self.now.query.registry) }
    {
        match &self.run {
            Ok(run) => run.builder().node_count(),
            Err(_) => 0,
        }
    }

    /// Returns the number of bytes of texts and runs of bytes held, which is 0 after an error.
    /// Those that came of an incomplete one count, without its length.
    ///
    /// They are at most as many as were taken.
    pub fn text_bytes(&self) -> u64
        ensures count { result ≡ text_bytes self.now }
        ensures bound { result ≤ self.now.taken }
    {
        match &self.run {
            Ok(run) => run.builder().text_bytes(),
            Err(_) => 0,
        }
    }

    /// Returns the number of open nodes: how many steps lead to the node that is next, which is its
    /// depth. It is 0 if the value is complete, before the first piece, and after an error.
    pub fn path_len(&self) -> usize
        ensures len { result ≡ length (decoder_path self.now) }
        ensures led { (b : List ℕ) → Led self.now b → PathLed self.now b }
    {
        match &self.run {
            Ok(run) => run.builder().path_len(),
            Err(_) => 0,
        }
    }

    /// Returns the step from the open node at this depth, where the root has depth 0, or `None` if
    /// there are no more open nodes.
    pub fn path_step(&self, depth: usize) -> Option<PathStep>
        ensures { result ≡ slice_get (decoder_path self.now) depth }
    {
        match &self.run {
            Ok(run) => run.builder().path_step(depth),
            Err(_) => None,
        }
    }

    /// Returns the type of the node that is next, or `None` if the value is complete and after an
    /// error.
    pub fn next_type(&self) -> Option<TypeId>
        ensures { option_map (λ t. t.0) result ≡ decoder_next self.now }
    {
        match &self.run {
            Ok(run) => run.builder().walk().next_type(),
            Err(_) => None,
        }
    }

    /// Takes the next piece of the value's bytes (SCALE codec specification; scale-info's registry
    /// defines the types). However the bytes are cut, the answer is the one to all bytes so far.
    ///
    /// Returns `More` if the next node needs another byte, and `Done` in the call that brings the
    /// value's last byte. Bytes after it are not used.
    ///
    /// A decoder keeps its answer. After `Done` every call returns `Done` with no byte used; after
    /// an error every call returns that error. These calls allocate nothing.
    ///
    /// # Errors
    ///
    /// In the call that brings the deciding byte, with the place in bytes from the value's start:
    ///
    /// - the first error of the grammar;
    /// - `TooLong` at the limit of bytes, if the value is incomplete there and another byte is
    ///   given;
    /// - `OutOfMemory` at 0, if an allocation fails. That happens only if the bytes of `taken()`
    ///   are accepted, and then a complete node was to be added or bytes of a text or run to be
    ///   kept.
    ///
    /// No nodes and no bytes are held after an error.
    pub fn feed(&mut self, piece: &[u8]) -> Result<Progress, DecodeFault>
        ensures query { self.new.query ≡ self.old.query }
        ensures calls { self.new.calls ≡ self.old.calls + 1 }
        ensures refused { (f : DecodeFault) → self.old.run ≡ Err f →
            (result ≡ Err f) × IsKept self.old self.new × (self.new.turns ≡ self.old.turns) }
        ensures whole { (s : Running) → self.old.run ≡ Ok s → is_complete s.built ≡ true →
            (result ≡ Ok (Progress.Done 0)) × IsKept self.old self.new }
        ensures taken { (self.old.taken ≤ self.new.taken)
            × (self.new.taken ≤ self.old.taken + length piece.now) }
        ensures memory { IfErr result (AsksMemory self.old piece.now self.new.taken) }
        ensures value { HasValue self.new result }
        ensures value_counts { CountsValue self.new result }
        ensures held { (b : List ℕ) → Led self.old b → HoldsAt self.new (b ++ piece.now) result }
        ensures small { IsSmall self.new }
        ensures counted { HasCounted self.new }
        ensures small_at_end { IsSmallAtEnd self.new result }
        ensures answers { (b : List ℕ) → Led self.old b →
            AnswersPiece self.old self.new (b ++ piece.now) result × Led self.new (b ++ piece.now) }
    {
        self.calls.tick();
        let fed = match &mut self.run {
            Err(fault) => return Err(*fault),
            Ok(run) => feed_run(run, self.limits.bytes, self.taken, piece, &mut self.turns),
        };
        match fed {
            Fed::More(taken) => {
                self.taken = taken;
                Ok(Progress::More)
            }
            Fed::Done(used) => {
                self.taken += used;
                Ok(Progress::Done { used })
            }
            Fed::Ended(fault, taken) => {
                self.taken = taken;
                self.closings = give_up(&mut self.run, fault);
                Err(fault)
            }
        }
    }

    /// Returns the value. After `Done` this allocates nothing; otherwise it first feeds an empty
    /// piece.
    ///
    /// # Errors
    ///
    /// `Truncated` at the number of bytes fed if the value is incomplete, the same error again
    /// after an error, and any error of `feed` on an empty piece. The decoder is dropped.
    pub fn finish(self) -> Result<Value<'r, A>, DecodeFault>
        ensures refused { (f : DecodeFault) → self.entry.run ≡ Err f → result ≡ Err f }
        ensures whole { (s : Running) → self.entry.run ≡ Ok s → is_complete s.built ≡ true →
            result ≡ Ok (finished s.built) }
        ensures finishes { (b : List ℕ) → Led self.entry b →
            FinishesDecoder self.entry.query b result }
        ensures memory { IfErr result (AsksMemory self.entry [] self.entry.taken) }
        ensures small { (b : List ℕ) → Led self.entry b → IsSmallValue self.entry.query b result }
    {
        if let Ok(run) = &self.run
            && run.is_finished()
        {
            let Decoder { run, .. } = self;
            return Ok(run?.into_value());
        }
        let mut decoder = self;
        if let Progress::More = decoder.feed(&[])? {
            return Err(DecodeFault {
                reason: DecodeReason::Truncated,
                at: decoder.taken,
            });
        }
        let Decoder { run, .. } = decoder;
        Ok(run?.into_value())
    }
}
