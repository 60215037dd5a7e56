//! Why a registry is rejected.

ghost use Rattle.std.specs.Prelude.{◌≡◌};
ghost use Rattle.graph_core.specs.declared.fault.CheckFault.TheVariants.{OutOfMemory, TooLarge};

use crate::too_many::TooMany;
use growth_core::Refused;
use types_core::TypeId;

/// The reason why a registry is rejected.
#[derive(Clone, Copy, Debug, PartialEq, Eq)]
pub enum CheckFault {
    /// The type `from` refers to the type `to`, which is not in the registry.
    UnknownType { from: TypeId, to: TypeId },
    /// There are more references, or more types and arms, than numbers of 32 bits.
    TooLarge(TooMany),
    /// An allocation failed.
    OutOfMemory(Refused),
}

impl From<Refused> for CheckFault {
    ghost from_gives = { λ refused fault. fault ≡ OutOfMemory refused };

    fn from(refused: Refused) -> Self {
        CheckFault::OutOfMemory(refused)
    }
}

impl From<TooMany> for CheckFault {
    ghost from_gives = { λ many fault. fault ≡ TooLarge many };

    fn from(many: TooMany) -> Self {
        CheckFault::TooLarge(many)
    }
}
