//! Why the names of metadata are not found.

ghost use Rattle.std.specs.Prelude.{◌≡◌};
ghost use Rattle.chain_core.specs.declared.fault.NamesFault.TheVariants.{OutOfMemory, TooLarge};

use graph_core::TooMany;
use growth_core::Refused;

/// Why the names of metadata are not found, or their types not made.
#[derive(Clone, Copy, Debug, PartialEq, Eq)]
pub enum NamesFault {
    /// There are more types, fields or bytes of a name than numbers of 32 bits.
    TooLarge(TooMany),
    /// An allocation failed.
    OutOfMemory(Refused),
}

impl From<Refused> for NamesFault {
    ghost from_gives = { λ refused fault. fault ≡ OutOfMemory refused };

    fn from(refused: Refused) -> NamesFault {
        NamesFault::OutOfMemory(refused)
    }
}

impl From<TooMany> for NamesFault {
    ghost from_gives = { λ many fault. fault ≡ TooLarge many };

    fn from(many: TooMany) -> NamesFault {
        NamesFault::TooLarge(many)
    }
}
