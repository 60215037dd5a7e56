//! Why the linking of types stopped.

ghost use Rattle.std.specs.Prelude.{◌≡◌};
ghost use Rattle.graph_core.specs.Stops.{fault_in};
ghost use Rattle.graph_core.specs.declared.link_stop.LinkStop.TheVariants.{Memory, TooMany};

use crate::fault::CheckFault;
use crate::too_many::TooMany;
use growth_core::Refused;
use types_core::TypeId;

/// The reason why the linking of a type stopped.
#[derive(Clone, Copy)]
pub enum LinkStop {
    /// An allocation failed.
    Memory(Refused),
    /// There are more references or counters than numbers for them.
    TooMany(TooMany),
    /// A reference is to this id, which is not a position of the registry.
    Unknown(u32),
}

impl LinkStop {
    /// Returns the fault of the type at this position for this reason.
    pub fn in_type(self, position: u32) -> CheckFault
        ensures { result ≡ fault_in position self }
    {
        match self {
            LinkStop::Memory(refused) => CheckFault::OutOfMemory(refused),
            LinkStop::TooMany(many) => CheckFault::TooLarge(many),
            LinkStop::Unknown(to) => CheckFault::UnknownType {
                from: TypeId(position),
                to: TypeId(to),
            },
        }
    }
}

impl From<Refused> for LinkStop {
    ghost from_gives = { λ refused stop. stop ≡ Memory refused };

    fn from(refused: Refused) -> Self {
        LinkStop::Memory(refused)
    }
}

impl From<TooMany> for LinkStop {
    ghost from_gives = { λ many stop. stop ≡ TooMany many };

    fn from(many: TooMany) -> Self {
        LinkStop::TooMany(many)
    }
}
