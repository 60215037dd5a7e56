//! A count that takes no bytes.

ghost use Rattle.std.specs.Prelude.{◌≡◌, ℕ, ◌+◌};
ghost use base.Fml.{ftrue};

use std::marker::{Model, PhantomData};

/// A count for contracts of how often something was done. It takes no bytes at run time.
///
/// It begins at 0, and only `tick` changes it. A loop whose turns are counted calls `tick` in each
/// of them, and its contract states how far the count rises. A loop that takes more turns, such as
/// one for each element that a length claims, then has no proof.
pub struct Count {
    marker: PhantomData<()>,
    /// The number of calls of `tick`.
    pub ghost so_far: { ℕ },
}

impl Model for Count {
    ghost also_owns = { λ _. ftrue };
}

impl Drop for Count {
    fn drop(self) {
        let Self { marker: _ } = self;
    }
}

impl Count {
    /// Creates a count of 0. It takes no memory.
    pub fn new() -> Count
        ensures { result.so_far ≡ 0 }
    {
        Count {
            marker: PhantomData,
        }
    }

    /// Adds one to the count. It does nothing at run time.
    pub fn tick(&mut self)
        ensures { self.new.so_far ≡ self.old.so_far + 1 }
    {}
}

const _: () = prove!(size_of::<Count>() == 0);
