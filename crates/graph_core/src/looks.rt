//! The looks that were taken at a registry while it was checked.

ghost use Rattle.std.specs.Prelude.{◌≡◌, []};

use count_core::Log;

/// The looks that were taken at a registry while it was checked, in logs that take no bytes.
///
/// Only a graph creates these logs and adds to them.
#[derive(Debug, Drop)]
pub struct Looks {
    /// The positions of the types whose definitions were looked at.
    pub(crate) opened: Log,
    /// The positions that the references looked at in definitions refer to.
    pub(crate) read: Log,
    /// The numbers of the references that were looked at in lists.
    pub(crate) listed: Log,
}

impl Looks {
    /// Creates the logs, before any look.
    pub(crate) fn new() -> Looks
        ensures opened { result.opened.entries ≡ [] }
        ensures read { result.read.entries ≡ [] }
        ensures listed { result.listed.entries ≡ [] }
    {
        Looks {
            opened: Log::new(),
            read: Log::new(),
            listed: Log::new(),
        }
    }
}

const _: () = prove!(size_of::<Looks>() == 0);
