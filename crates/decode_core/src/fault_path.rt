//! Where in a value its bytes are rejected or end.

ghost use Rattle.std.specs.Prelude.{◌≡◌, length, option_map, slice_get};
ghost use Rattle.decode_core.specs.Decoding.{opening_fault};
ghost use Rattle.decode_core.specs.Paths.{FindsPath};
ghost use Rattle.decode_core.specs.Streaming.{query_of};
ghost use Rattle.value_core.specs.OpenNodes.{HasPath, open_path};
ghost use Rattle.value_core.specs.Walked.{next_type};

use crate::decoder::{first_run, within};
use crate::fault::OpenFault;
use count_core::Count;
use machine_core::{Partial, Stopped};
use std::alloc::Allocator;
use std::marker::Model;
use types_core::TypeId;
use value_core::{Limits, PathStep};
use widths_core::Checked;

/// The path to the node at which the bytes of a value are rejected or end.
///
/// A decoder keeps no nodes after an error. This reads the bytes once more and keeps them.
#[derive(Drop)]
pub struct FaultPath<'r, A: Allocator> {
    run: Partial<'r, A>,
}

impl<'r, A: Allocator> Model for FaultPath<'r, A> {
    ghost use Rattle.value_core.specs.Built.{Built};

    ghost Value = { Built };

    ghost view = { λ p. p.run.built };
}

impl<'r, A: Allocator + Clone> FaultPath<'r, A> {
    /// Reads bytes as a decoder of a value of the root's type does, up to the limit of bytes, until
    /// they are rejected or end. Bytes after an error change nothing.
    ///
    /// # Errors
    ///
    /// Those of [`Decoder::new`](crate::Decoder::new), and `OutOfMemory` if a later allocation
    /// fails.
    pub fn find(
        alloc: A,
        checked: &'r Checked,
        root: TypeId,
        limits: Limits,
        bytes: &[u8],
    ) -> Result<FaultPath<'r, A>, OpenFault>
        ensures { FindsPath (opening_fault checked.now.types root.0 limits)
            (query_of checked.now.types root.0 limits) bytes.now result }
    {
        let mut run = first_run(alloc, checked, root, limits)?;
        let mut turns = Count::new();
        let (_, stopped) = run.feed(within(bytes, limits.bytes), &mut turns);
        let path = FaultPath { run };
        // No-op; its postcondition states that the nodes have a path.
        let _ = path.len();
        match stopped {
            Stopped::OutOfMemory(refused) => Err(OpenFault::OutOfMemory(refused)),
            _ => Ok(path),
        }
    }
}

impl<'r, A: Allocator> FaultPath<'r, A> {
    /// Returns the number of steps from the root to the node: its depth, or 0 if the value is
    /// complete.
    pub fn len(&self) -> usize
        ensures len { result ≡ length (open_path self.now) }
        ensures path { HasPath self.now }
    {
        self.run.builder().path_len()
    }

    /// Returns the step from the open node at this depth, where the root has depth 0, or `None` if
    /// there are no more steps.
    pub fn step(&self, depth: usize) -> Option<PathStep>
        ensures { result ≡ slice_get (open_path self.now) depth }
    {
        self.run.builder().path_step(depth)
    }

    /// Returns the type of the node, or `None` if the value is complete.
    pub fn next_type(&self) -> Option<TypeId>
        ensures { option_map (λ t. t.0) result ≡ next_type self.now.walk }
    {
        self.run.builder().walk().next_type()
    }
}
