//! Keepers, which take boxes back and count sessions, so that contracts can name both.

ghost use Rattle.std.specs.Prelude.{ℕ, ⊤};
ghost use Rattle.scaleview_c.specs.Kept.{Adds, AnswersClose, Lends, TakesBack};
ghost use Rattle.scaleview_c.specs.declared.resource.Resource.{Resource as AHeld};
ghost use Rattle.scaleview_c.specs.declared.opened.Opened.{Opened as AnOpened};

use crate::opened::Opened;
use crate::resource::Resource;
use c_answers::{LENT, NO_HANDLE, OK};
use std::sync::atomic::Ordering;

/// A keeper takes boxes back and knows how many sessions a registry has.
// No clause of the library says that a block was freed or what a cell holds. So both are relations
// here, and what the calls do is proved over every keeper. The library uses `Heap`.
pub trait Keeper {
    /// That the registry has this many sessions in this state.
    ghost counts: { Self → AnOpened → ℕ → Type 0 };

    /// That one box, which held this, was given back between these states.
    ghost takes: { Self → AHeld → Self → Type 0 };

    /// Returns how many sessions the registry has.
    fn count(&self, registry: &Opened) -> u64
        ensures { counts self.now registry.now result };

    /// Sets how many sessions the registry has. No other call on it runs at the same time.
    fn set_count(&mut self, registry: &Opened, sessions: u64)
        ensures { counts self.new registry.now sessions };

    /// Adds to the number of sessions of the registry, modulo 2^64, in one step.
    fn add(&mut self, registry: &Opened, sessions: u64)
        ensures { Adds counts self.old registry.now sessions self.new };

    /// Subtracts from the number of sessions of the registry, modulo 2^64, in one step.
    fn subtract(&mut self, registry: &Opened, sessions: u64)
        ensures { Adds counts self.new registry.now sessions self.old };

    /// Takes the box back: drops what it holds, and frees its memory.
    fn take(&mut self, held: Box<Resource>)
        ensures { takes self.old held.value self.new };
}

/// The heap of all boxes, and the atomic numbers in which registries count their sessions.
#[derive(Drop)]
pub struct Heap {}

impl Keeper for Heap {
    ghost counts = { λ _ _ _. ⊤ };

    ghost takes = { λ _ _ _. ⊤ };

    fn count(&self, registry: &Opened) -> u64 {
        registry.sessions.load(Ordering::Acquire)
    }

    fn set_count(&mut self, registry: &Opened, sessions: u64) {
        registry.sessions.store(sessions, Ordering::Release);
    }

    fn add(&mut self, registry: &Opened, sessions: u64) {
        registry.sessions.fetch_add(sessions, Ordering::AcqRel);
    }

    fn subtract(&mut self, registry: &Opened, sessions: u64) {
        registry.sessions.fetch_sub(sessions, Ordering::AcqRel);
    }

    fn take(&mut self, held: Box<Resource>) {
        drop(held);
    }
}

/// Counts one session more.
pub(crate) fn lend<K: Keeper>(keeper: &mut K, registry: &Opened)
    ensures { Lends K.counts keeper.old registry.now keeper.new }
{
    keeper.add(registry, 1);
}

/// Counts one session less.
pub(crate) fn take_back<K: Keeper>(keeper: &mut K, registry: &Opened)
    ensures { TakesBack K.counts keeper.old registry.now keeper.new }
{
    keeper.subtract(registry, 1);
}

/// Returns the code of closing a registry: `LENT` exactly if it has a session.
pub(crate) fn close_code<K: Keeper>(keeper: &K, held: &Resource) -> u32
    ensures { AnswersClose K.counts keeper.now held.now result }
{
    match held {
        Resource::Registry(opened) => { if keeper.count(opened) > 0 { LENT } else { OK } }
        Resource::Session(_) => NO_HANDLE,
    }
}
