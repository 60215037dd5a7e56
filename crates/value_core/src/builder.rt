//! A builder whose calls judge what they are given.

ghost use Rattle.std.specs.Prelude.{◌≡◌, [], length, None};
ghost use Rattle.value_core.specs.Begun.{IsBegun};
ghost use Rattle.value_core.specs.Built.{built_text_bytes, finished};
ghost use Rattle.value_core.specs.Refusals.{Finishes, Opens, build_opening_fault, is_complete};
ghost use Rattle.value_core.specs.Refusals.{missing_of, other_fault, wanted_of};
ghost use Rattle.value_core.specs.Walked.{start_of};

use crate::build_fault::BuildFault;
use crate::raw_builder::RawBuilder;
use crate::walk::Walk;
use grammar_core::{Form, MAX_DEPTH, Next, RunKind};
use node_core::Value;
use std::alloc::Allocator;
use std::marker::Model;
use types_core::TypeId;
use widths_core::Checked;

/// A builder whose calls judge: a call that does not fit what is next returns a [`BuildFault`] and
/// changes nothing.
///
/// Each node comes before its children, in the order of their bytes. [`RawBuilder`] has the calls
/// that do not judge.
///
/// # Examples
///
/// A sequence of two words, where type 1 is a sequence of u16:
///
/// ```
/// let mut builder = Builder::new(alloc, &checked, TypeId(1), 64)?;
/// builder.list(2)?;
/// builder.unsigned(7)?;
/// builder.unsigned(8)?;
/// let value = match builder.finish() {
///     Ok(value) => value,
///     Err((fault, _builder)) => return Err(fault)?,
/// };
/// assert_eq!(rt; value.node_count(), 3);
/// ```
#[derive(Drop)]
pub struct Builder<'r, A: Allocator> {
    pub(crate) raw: RawBuilder<'r, A>,
}

impl<'r, A: Allocator> Model for Builder<'r, A> {
    ghost use Rattle.value_core.specs.Built.{Built};

    ghost Value = { Built };

    ghost view = { λ b. b.raw };
}

/// Returns the fault of a call that is not the one for what comes next.
fn other_fault(next: Next) -> BuildFault
    ensures { result ≡ other_fault next }
{
    match next {
        Next::Stop(reason) => reason.into(),
        Next::Finished | Next::Wants(_) => BuildFault::WrongKind,
    }
}

impl<'r, A: Allocator + Clone> Builder<'r, A> {
    /// Creates an empty builder of a value of the type `root`, with this depth limit.
    ///
    /// # Errors
    ///
    /// - `UnknownType` if the registry has no type `root`.
    /// - Else `OutOfRange` if the depth limit is above 1024.
    /// - Else `OutOfMemory` if an allocation fails.
    pub fn new(
        alloc: A,
        checked: &'r Checked,
        root: TypeId,
        depth: u16,
    ) -> Result<Builder<'r, A>, BuildFault>
        ensures { Opens (build_opening_fault checked.now.types root.0 depth) (record {
          ty = root.0;
          walk = start_of checked.now.types root.0 depth;
          entries = [];
          run = None;
          turns = 0;
        }) result }
    {
        if checked.class(root).is_none() {
            return Err(BuildFault::UnknownType);
        }
        if depth > MAX_DEPTH {
            return Err(BuildFault::OutOfRange);
        }
        Ok(Builder {
            raw: RawBuilder::begin(alloc, checked, root, depth)?,
        })
    }
}

impl<'r, A: Allocator> Builder<'r, A> {
    /// Returns the value if no node is missing. It allocates nothing.
    ///
    /// # Errors
    ///
    /// `UnfinishedValue` and the builder, unchanged, if a node is missing.
    pub fn finish(self) -> Result<Value<'r, A>, (BuildFault, Builder<'r, A>)>
        ensures { Finishes (is_complete self.entry) (finished self.entry) self.entry result }
    {
        if !self.walk().is_complete() {
            return Err((BuildFault::UnfinishedValue, self));
        }
        Ok(self.raw.into_value())
    }

    /// Returns the walk through the value, which stands at the first missing node.
    pub fn walk(&self) -> &Walk<'r, A>
        ensures same { result.now ≡ self.now.walk }
        ensures begun { IsBegun self.now }
    {
        self.raw.walk()
    }

    /// Returns the number of nodes, including the open ones. A node takes `NODE_BYTES` bytes of
    /// memory.
    pub fn node_count(&self) -> u64
        ensures count { result ≡ length self.now.entries }
        ensures begun { IsBegun self.now }
    {
        self.raw.node_count()
    }

    /// Returns the number of bytes of all texts and runs of bytes, including those of an open run.
    /// Long integers do not count.
    pub fn text_bytes(&self) -> u64
        ensures count { result ≡ built_text_bytes self.now }
        ensures begun { IsBegun self.now }
    {
        self.raw.text_bytes()
    }

    /// Returns the form of what comes next, for a call that adds a complete node.
    ///
    /// # Errors
    ///
    /// What the walk stops at, and `WrongKind` if nothing is next or a run is open.
    pub(crate) fn wanted(&self) -> Result<Form, BuildFault>
        ensures { result ≡ wanted_of self.now }
    {
        match self.walk().next() {
            Next::Wants(form) if !self.raw.is_run_open() => Ok(form),
            other => Err(other_fault(other)),
        }
    }

    /// Returns the kind of the open run, and how many bytes it still lacks.
    ///
    /// # Errors
    ///
    /// What the walk stops at, and `WrongKind` if no run is open.
    pub(crate) fn missing(&self) -> Result<(RunKind, usize), BuildFault>
        ensures { result ≡ missing_of self.now }
    {
        match (self.walk().next(), self.raw.run_kind()) {
            (Next::Wants(_), Some(kind)) => Ok((kind, self.raw.run_missing())),
            (other, _) => Err(other_fault(other)),
        }
    }
}
