//! The judging calls that add a text or a run of bytes, complete or in pieces, or a bit sequence.

ghost use Rattle.std.specs.Prelude.{◌≡◌};
ghost use Rattle.grammar_core.specs.Preorder as head;
ghost use Rattle.grammar_core.specs.Tree as tree;
ghost use Rattle.value_core.specs.Built.{with_bytes_opened, with_leaf, with_piece, with_run_ended};
ghost use Rattle.value_core.specs.Built.{IsCleanRun, with_run_opened};
ghost use Rattle.value_core.specs.Refusals.{Adds, IsRunComplete, judged, judged_end, judged_piece};
ghost use Rattle.value_core.specs.Refusals.{missing_bytes, missing_text, run_fault, suits_bits};
ghost use Rattle.value_core.specs.Refusals.{suits_bytes};
ghost use Rattle.value_core.specs.Refusals.{suits_bytes_start, suits_text, suits_text_start};

use crate::build_fault::BuildFault;
use crate::builder::Builder;
use grammar_core::{Form, RunKind};
use node_core::Leaf;
use std::alloc::Allocator;
use types_core::Primitive;

impl<'r, A: Allocator> Builder<'r, A> {
    /// Adds a text.
    ///
    /// # Errors
    ///
    /// Those of [`empty`](Self::empty), and `OutOfRange` if the text has more than 4294967295
    /// bytes.
    #[tactic(auto, using(crate::proofs::Wanted::wanted_next, crate::proofs::Wanted::wanted_closed, crate::proofs::NextLeaf::text_next))]
    pub fn text(&mut self, text: &str) -> Result<(), BuildFault>
        ensures { Adds (judged (suits_text text.now) self.old)
            (with_leaf self.old (head.leaf (tree.text text.now))) self.old self.new result }
    {
        let Form::Primitive(Primitive::Str) = self.wanted()? else {
            return Err(BuildFault::WrongKind);
        };
        if text.len() > u32::MAX as usize {
            return Err(BuildFault::OutOfRange);
        }
        self.raw.add_leaf(Leaf::Text(text.as_bytes()))?;
        Ok(())
    }

    /// Adds a sequence or an array of u8: its bytes.
    ///
    /// # Errors
    ///
    /// Those of [`empty`](Self::empty), and `OutOfRange` if a sequence gets more than 4294967295
    /// bytes or an array another number than its length.
    #[tactic(auto, using(crate::proofs::Wanted::wanted_next, crate::proofs::Wanted::wanted_closed))]
    pub fn bytes(&mut self, bytes: &[u8]) -> Result<(), BuildFault>
        ensures { Adds (judged (suits_bytes bytes.now) self.old)
            (with_leaf self.old (head.leaf (tree.bytes bytes.now))) self.old self.new result }
    {
        let fits = match self.wanted()? {
            Form::Bytes => bytes.len() <= u32::MAX as usize,
            Form::ByteArray(len) => bytes.len() == len as usize,
            _ => return Err(BuildFault::WrongKind),
        };
        if !fits {
            return Err(BuildFault::OutOfRange);
        }
        self.raw.add_leaf(Leaf::Bytes(bytes))?;
        Ok(())
    }

    /// Adds a bit sequence: its number of bits, and the bytes of the words that hold them. Where
    /// the bits stand in the words says [`BitForm`](types_core::BitForm).
    ///
    /// # Errors
    ///
    /// Those of [`empty`](Self::empty), and `OutOfRange` if there are not as many bytes as the
    /// words have, or an unused bit is 1.
    #[tactic(auto, using(crate::proofs::Wanted::wanted_next, crate::proofs::Wanted::wanted_closed))]
    pub fn bits(&mut self, count: u32, bytes: &[u8]) -> Result<(), BuildFault>
        ensures { Adds (judged (suits_bits count bytes.now) self.old)
            (with_leaf self.old (head.leaf (tree.bits count bytes.now))) self.old self.new result }
    {
        let Form::Bits(form) = self.wanted()? else {
            return Err(BuildFault::WrongKind);
        };
        if bytes.len() != form.bytes(count) {
            return Err(BuildFault::OutOfRange);
        }
        match form.unused_at(count, 0, bytes) {
            Some(_) => Err(BuildFault::OutOfRange),
            None => Ok(self.raw.add_leaf(Leaf::Bits(count, bytes))?),
        }
    }

    /// Begins a text of `len` bytes, which come in pieces. Until `text_end`, every call that adds a
    /// complete node is rejected, and so are the calls for bytes.
    ///
    /// # Errors
    ///
    /// Those of [`empty`](Self::empty).
    pub fn text_start(&mut self, len: u32) -> Result<(), BuildFault>
        ensures { Adds (judged suits_text_start self.old)
            (with_run_opened self.old RunKind.Text len) self.old self.new result }
    {
        let Form::Primitive(Primitive::Str) = self.wanted()? else {
            return Err(BuildFault::WrongKind);
        };
        self.raw.open_run(RunKind::Text, len);
        Ok(())
    }

    /// Appends bytes to the open text. They may end inside a character.
    ///
    /// # Errors
    ///
    /// The first that applies; the builder is unchanged.
    ///
    /// - What the next type stops at, as `empty` reports it.
    /// - `WrongKind` if no text is open.
    /// - `OutOfRange` if the text would have more bytes than `text_start` was given.
    /// - `OutOfMemory` if an allocation fails.
    pub fn text_piece(&mut self, piece: &[u8]) -> Result<(), BuildFault>
        ensures { Adds (judged_piece (missing_text self.old) piece.now)
            (with_piece self.old piece.now) self.old self.new result }
    {
        if piece.len() > self.missing_text()? {
            return Err(BuildFault::OutOfRange);
        }
        self.raw.extend_run(piece)?;
        Ok(())
    }

    /// Ends the open text, and adds it as the next node.
    ///
    /// # Errors
    ///
    /// The first that applies; the builder is unchanged.
    ///
    /// - What the next type stops at, as `empty` reports it.
    /// - `WrongKind` if no text is open.
    /// - `UnfinishedValue` if bytes of it are missing.
    /// - `BadText` if its bytes are not UTF-8.
    /// - `OutOfMemory` if an allocation fails.
    pub fn text_end(&mut self) -> Result<(), BuildFault>
        ensures { Adds (judged_end (missing_text self.old) self.old)
            (with_run_ended self.old) self.old self.new result }
    {
        if self.missing_text()? > 0 {
            return Err(BuildFault::UnfinishedValue);
        }
        self.end_run()
    }

    /// Begins a sequence or an array of u8 of `len` bytes, which come in pieces. Until `bytes_end`,
    /// every call that adds a complete node is rejected, and so are the calls for texts.
    ///
    /// # Errors
    ///
    /// Those of [`empty`](Self::empty), and `OutOfRange` if `len` is not the array's length.
    pub fn bytes_start(&mut self, len: u32) -> Result<(), BuildFault>
        ensures { Adds (judged (suits_bytes_start len) self.old) (with_bytes_opened self.old len)
            self.old self.new result }
    {
        let kind = match self.wanted()? {
            Form::Bytes => RunKind::Bytes,
            Form::ByteArray(length) if length == len => RunKind::ByteArray(length),
            Form::ByteArray(_) => return Err(BuildFault::OutOfRange),
            _ => return Err(BuildFault::WrongKind),
        };
        self.raw.open_run(kind, len);
        Ok(())
    }

    /// Appends bytes to the open run of bytes.
    ///
    /// # Errors
    ///
    /// The first that applies; the builder is unchanged.
    ///
    /// - What the next type stops at, as `empty` reports it.
    /// - `WrongKind` if no run of bytes is open.
    /// - `OutOfRange` if the run would have more bytes than `bytes_start` was given.
    /// - `OutOfMemory` if an allocation fails.
    pub fn bytes_piece(&mut self, piece: &[u8]) -> Result<(), BuildFault>
        ensures { Adds (judged_piece (missing_bytes self.old) piece.now)
            (with_piece self.old piece.now) self.old self.new result }
    {
        if piece.len() > self.missing_bytes()? {
            return Err(BuildFault::OutOfRange);
        }
        self.raw.extend_run(piece)?;
        Ok(())
    }

    /// Ends the open run of bytes, and adds it as the next node.
    ///
    /// # Errors
    ///
    /// The first that applies; the builder is unchanged.
    ///
    /// - What the next type stops at, as `empty` reports it.
    /// - `WrongKind` if no run of bytes is open.
    /// - `UnfinishedValue` if bytes of it are missing.
    /// - `OutOfMemory` if an allocation fails.
    pub fn bytes_end(&mut self) -> Result<(), BuildFault>
        ensures { Adds (judged_end (missing_bytes self.old) self.old)
            (with_run_ended self.old) self.old self.new result }
    {
        if self.missing_bytes()? > 0 {
            return Err(BuildFault::UnfinishedValue);
        }
        self.end_run()
    }

    /// Returns how many bytes the open text lacks.
    ///
    /// # Errors
    ///
    /// What the walk stops at, and `WrongKind` if no text is open.
    fn missing_text(&self) -> Result<usize, BuildFault>
        ensures { result ≡ missing_text self.now }
    {
        match self.missing()? {
            (RunKind::Text, missing) => Ok(missing),
            _ => Err(BuildFault::WrongKind),
        }
    }

    /// Returns how many bytes the open run of bytes lacks.
    ///
    /// # Errors
    ///
    /// What the walk stops at, and `WrongKind` if none is open.
    fn missing_bytes(&self) -> Result<usize, BuildFault>
        ensures { result ≡ missing_bytes self.now }
    {
        match self.missing()? {
            (RunKind::Bytes | RunKind::ByteArray(_), missing) => Ok(missing),
            _ => Err(BuildFault::WrongKind),
        }
    }

    /// Ends the open run, which lacks nothing.
    ///
    /// # Errors
    ///
    /// `BadText` if it is a text that is not UTF-8, and `OutOfMemory` if an allocation fails.
    fn end_run(&mut self) -> Result<(), BuildFault>
        requires whole { IsRunComplete self.old }
        requires clean { IsCleanRun self.old.run }
        ensures { Adds (run_fault self.old.run) (with_run_ended self.old) self.old self.new result }
    {
        match self.raw.bad_text() {
            Some(valid) => Err(BuildFault::BadText { valid }),
            None => Ok(self.raw.close_run()?),
        }
    }
}
