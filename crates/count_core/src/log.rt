//! A log that takes no bytes.

ghost use Rattle.std.specs.Prelude.{◌≡◌, List, [], ◌∷◌, ℕ};
ghost use base.Fml.{ftrue};

use std::fmt;
use std::marker::{Model, PhantomData};

/// A log for contracts of the numbers of what was looked at, the newest first. It takes no bytes at
/// run time.
///
/// It begins empty, and only `add` changes it. If things can be read only by a method that adds to
/// a log, a contract can bound how often each of them is read.
pub struct Log {
    marker: PhantomData<()>,
    /// The numbers of what was looked at, the newest first.
    pub ghost entries: { List ℕ },
}

impl Model for Log {
    ghost also_owns = { λ _. ftrue };
}

impl Drop for Log {
    fn drop(self) {
        let Self { marker: _ } = self;
    }
}

impl fmt::Debug for Log {
    fn fmt<W: fmt::Write>(&self, f: &mut fmt::Formatter<W>) -> fmt::Result {
        f.write_str("Log")
    }
}

impl Log {
    /// Creates an empty log. It takes no memory.
    pub fn new() -> Log
        ensures { result.entries ≡ [] }
    {
        Log {
            marker: PhantomData,
        }
    }

    /// Adds a number to the log. It does nothing at run time.
    pub fn add(&mut self, _number: u32)
        ensures { self.new.entries ≡ _number ∷ self.old.entries }
    {}
}

const _: () = prove!(size_of::<Log>() == 0);
