//! A builder whose calls do not judge what they are given.

ghost use Rattle.std.specs.Prelude.{◌≡◌, ◌≤◌, ◌<◌, ◌+◌, ◌^◌, [], length, true, OnOk, OnErr, IfOk};
ghost use Rattle.std.specs.Prelude.{IfSome, None};
ghost use Rattle.std.specs.Prelude.{IsSome, is_some, option_map};
ghost use Rattle.widths_core.specs.RunBytes.{run_bytes};
ghost use Rattle.grammar_core.specs.Runs.{run_form};
ghost use Rattle.value_core.specs.Begun.{IsBegun};
ghost use Rattle.value_core.specs.Built.{built_text_bytes, finished, with_piece, with_run_closed};
ghost use Rattle.value_core.specs.Built.{with_run_opened, FitsKind, IsCleanRun, pieces_bytes};
ghost use Rattle.value_core.specs.Built.{unused_in};
ghost use Rattle.value_core.specs.Refusals.{IsRunComplete, RunLacks, bad_text, is_complete};
ghost use Rattle.value_core.specs.Refusals.{missing_of};
ghost use Rattle.value_core.specs.Walked.{next_of, start_of};

use crate::appending::{append_node, close_complete};
use crate::walk::Walk;
use count_core::Count;
use grammar_core::{MAX_DEPTH, Next, RunKind};
use growth_core::{GrowVec, Refused, clone_of};
use node_core::{Node, OpenRun, Value, put_piece};
use simdutf8::compat::from_utf8;
use std::alloc::Allocator;
use std::marker::Model;
use types_core::TypeId;
use widths_core::Checked;

/// A builder whose calls do not judge: the caller knows what is next.
///
/// [`Builder`](crate::Builder) judges, and the decoder uses this type directly. Each node comes
/// before its children, in the order of their bytes.
#[derive(Drop)]
pub struct RawBuilder<'r, A: Allocator> {
    pub(crate) root: TypeId,
    pub(crate) walk: Walk<'r, A>,
    pub(crate) nodes: GrowVec<Node, A>,
    pub(crate) pool: GrowVec<u8, A>,
    pub(crate) text_len: usize,
    pub(crate) open_run: Option<OpenRun>,
    pub(crate) turns: Count,
}

impl<'r, A: Allocator> Model for RawBuilder<'r, A> {
    ghost use Rattle.value_core.specs.Built.{Built, IsSettled, entries_shown};
    ghost use Rattle.value_core.specs.Building.{IsBuilding, IsOpenRun, IsPaid, pieces_shown};
    ghost use Rattle.node_core.specs.Shown.{all_kept};

    ghost Value = { Built };

    ghost view = { λ b. record {
      ty = b.root.0;
      walk = b.walk;
      entries = entries_shown b.pool.list.items b.nodes.list.items;
      run = pieces_shown b.pool.list.items b.open_run;
      turns = b.turns.so_far;
    } };

    ghost invariant = { λ b. IsBuilding b.root.0 b.walk b.pool.list.items b.nodes.list.items
        b.text_len × IsOpenRun b.walk b.pool.list.items (all_kept b.nodes.list.items) b.open_run
        × IsSettled b.walk × IsPaid b.walk b.nodes.list.items b.turns.so_far };
}

impl<'r, A: Allocator + Clone> RawBuilder<'r, A> {
    /// Creates an empty builder of a value of the type `root`, with a depth limit of at most 1024.
    /// If the registry has no type `root`, no node can be added.
    ///
    /// # Errors
    ///
    /// Returns `Refused` if an allocation fails.
    #[inline(never)]
    pub fn begin(
        alloc: A,
        checked: &'r Checked,
        root: TypeId,
        depth: u16,
    ) -> Result<RawBuilder<'r, A>, Refused>
        requires { depth ≤ MAX_DEPTH }
        ensures { IfOk result (λ b. b ≡ record {
          ty = root.0;
          walk = start_of checked.now.types root.0 depth;
          entries = [];
          run = None;
          turns = 0;
        }) }
    {
        let nodes = GrowVec::new(clone_of(&alloc)?);
        let pool = GrowVec::new(clone_of(&alloc)?);
        Ok(RawBuilder {
            root,
            walk: Walk::new(alloc, checked, root, depth),
            nodes,
            pool,
            text_len: 0,
            open_run: None,
            turns: Count::new(),
        })
    }
}

impl<'r, A: Allocator> RawBuilder<'r, A> {
    /// Returns the value, of which no node may be missing. It allocates nothing.
    pub fn into_value(self) -> Value<'r, A>
        requires { is_complete self ≡ true }
        ensures { result ≡ finished self.entry }
    {
        Value::new(self.walk.checked(), self.nodes, self.pool, self.text_len)
    }

    /// Returns the walk through the value, which stands at the first missing node.
    pub fn walk(&self) -> &Walk<'r, A>
        ensures same { result.now ≡ self.now.walk }
        ensures begun { IsBegun self.now }
    {
        &self.walk
    }

    /// Returns the number of nodes, including the open ones. A node takes `NODE_BYTES` bytes of
    /// memory.
    pub fn node_count(&self) -> u64
        ensures count { result ≡ length self.now.entries }
        ensures begun { IsBegun self.now }
    {
        self.nodes.as_slice().len() as u64
    }

    /// Returns the number of bytes of all texts and runs of bytes, including those of an open run.
    /// Long integers do not count.
    pub fn text_bytes(&self) -> u64
        ensures count { result ≡ built_text_bytes self.now }
        ensures begun { IsBegun self.now }
    {
        match self.open_run {
            Some(open) => (self.text_len + (self.pool.as_slice().len() - open.start)) as u64,
            None => self.text_len as u64,
        }
    }

    /// Consumes the builder and returns how many turns the loops of its calls have taken. Each turn
    /// closed a node, so there are at most as many turns as nodes. A `Count` takes no bytes; it is
    /// for contracts alone.
    pub fn into_turns(self) -> Count
        ensures { result.so_far ≡ self.entry.turns }
    {
        let RawBuilder { turns, .. } = self;
        turns
    }

    /// Begins a text or a run of `len` bytes, or the words of `len` bits, which must be next.
    pub fn open_run(&mut self, kind: RunKind, len: u32)
        requires closed { self.old.run ≡ None }
        requires next { next_of self.old.walk ≡ Next.Wants (run_form kind) }
        requires fits { FitsKind kind len }
        ensures { self.new ≡ with_run_opened self.old kind len }
    {
        let start = self.pool.as_slice().len();
        self.open_run = Some(OpenRun { kind, start, len });
    }

    /// Returns whether a text or a run of bytes is open.
    #[inline(always)]
    pub fn is_run_open(&self) -> bool
        ensures { result ≡ is_some self.now.run }
    {
        self.open_run.is_some()
    }

    /// Returns the kind of the open run, if one is open.
    pub(crate) fn run_kind(&self) -> Option<RunKind>
        ensures { result ≡ option_map (λ run. run.kind) self.now.run }
    {
        self.open_run.map(|open| open.kind)
    }

    /// Returns the length of the open run: its number of bytes, or of bits.
    pub fn run_len(&self) -> u32
        requires { IsSome self.now.run }
        ensures { IfSome self.now.run (λ run. result ≡ run.len) }
    {
        self.open_run.map_or(0, |open| open.len)
    }

    /// Returns how many bytes of the open run have come, or 0 if none is open.
    pub fn run_so_far(&self) -> usize
        ensures exact { result ≡ length (pieces_bytes self.now.run) }
        ensures bound { result < 2 ^ 63 }
    {
        match self.open_run {
            Some(open) => self.pool.as_slice().len() - open.start,
            None => 0,
        }
    }

    /// Returns how many bytes the open run still lacks.
    pub fn run_missing(&self) -> usize
        requires { IsSome self.now.run }
        ensures lacks { RunLacks self.now.run result }
        ensures bound { result < 2 ^ 32 }
    {
        match self.open_run {
            Some(open) => { open.kind.bytes(open.len) - (self.pool.as_slice().len() - open.start) }
            None => 0,
        }
    }

    /// Returns how many bytes of a piece stand before the first one with an unused bit that is 1,
    /// if the open run is words of bits and there is such a byte. The run must lack as many bytes.
    pub fn unused_in(&self, piece: &[u8]) -> Option<usize>
        requires { IfSome self.now.run
            (λ run. length run.bytes + length piece.now ≤ run_bytes run.kind run.len) }
        ensures exact { result ≡ unused_in self.now.run piece.now }
        ensures within { IfSome result (λ at. at < length piece.now) }
    {
        let open = self.open_run?;
        match open.kind {
            RunKind::Bits(form) => {
                form.unused_at(open.len, self.pool.as_slice().len() - open.start, piece)
            }
            RunKind::Text | RunKind::Bytes | RunKind::ByteArray(_) => None,
        }
    }

    /// Appends bytes to the open run, which must lack at least as many.
    ///
    /// # Errors
    ///
    /// Returns `Refused` if an allocation fails; the builder is unchanged.
    #[inline(always)]
    pub fn extend_run(&mut self, piece: &[u8]) -> Result<(), Refused>
        requires open { IsSome self.old.run }
        requires lacks { IfOk (missing_of self.old) (λ m. length piece.now ≤ m.1) }
        ensures ok { OnOk result (self.new ≡ with_piece self.old piece.now) }
        ensures err { OnErr result (self.new ≡ self.old) }
    {
        let whole = match self.open_run {
            Some(open) => open.start + open.kind.bytes(open.len),
            None => 0,
        };
        put_piece(&mut self.pool, piece, whole)?;
        Ok(())
    }

    /// Returns the length of the longest valid prefix, in bytes, if the open run is a text that is
    /// not UTF-8.
    pub fn bad_text(&self) -> Option<u64>
        ensures { result ≡ bad_text self.now.run }
    {
        let open = self.open_run?;
        match open.kind {
            RunKind::Text => match from_utf8(&self.pool.as_slice()[open.start..]) {
                Ok(_) => None,
                Err(fault) => Some(fault.valid_up_to() as u64),
            },
            RunKind::Bytes | RunKind::ByteArray(_) | RunKind::Bits(_) => None,
        }
    }

    /// Adds the open run as the next node. It must be complete, a text must be UTF-8, and unused
    /// bits must be 0. No-op if no run is open.
    ///
    /// # Errors
    ///
    /// Returns `Refused` if an allocation fails; the builder is unchanged.
    pub fn close_run(&mut self) -> Result<(), Refused>
        requires whole { IfSome self.old.run (λ run. IsRunComplete self.old) }
        requires valid { bad_text self.old.run ≡ None }
        requires clean { IsCleanRun self.old.run }
        ensures ok { OnOk result (self.new ≡ with_run_closed self.old) }
        ensures err { OnErr result (self.new ≡ self.old) }
    {
        let Some(open) = self.open_run else {
            return Ok(());
        };
        let node = Node {
            ty: self.walk.ty(),
            children: 0,
            content: open.content(),
        };
        append_node(&mut self.nodes, &mut self.pool, &self.walk, node)?;
        self.text_len += open.kind.bytes(open.len);
        self.open_run = None;
        self.walk.advance();
        close_complete(&mut self.walk, &mut self.nodes, &mut self.turns);
        Ok(())
    }
}
