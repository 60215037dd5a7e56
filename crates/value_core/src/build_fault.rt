//! Why a builder rejects a call.

ghost use Rattle.std.specs.Prelude.{◌≡◌};
ghost use Rattle.value_core.specs.Refusals.{build_fault_of};

use grammar_core::StopReason;
use growth_core::Refused;

/// Why a builder rejects a call, which changes nothing. If several apply, an adding call reports
/// the first of this list, and `new` an unknown type before a depth limit outside its range.
#[derive(Clone, Copy, Debug, PartialEq, Eq)]
pub enum BuildFault {
    /// The next node would stand deeper than the limit.
    TooDeep,
    /// The next type has no finite value.
    NoFiniteValue,
    /// The next type is a bit sequence that isn't read.
    BitSequence,
    /// The next type is a compact that wraps no unsigned integer.
    BadCompact,
    /// The call is not the one for the next type, or nothing is next.
    WrongKind,
    /// The number, the length or the depth limit is outside its range.
    OutOfRange,
    /// No arm has the index.
    NoSuchVariant,
    /// The registry has no type of the id.
    UnknownType,
    /// A node is still missing.
    UnfinishedValue,
    /// The bytes of a text are not UTF-8.
    BadText {
        /// The length of the longest valid front, in bytes.
        valid: u64,
    },
    /// An allocation failed.
    OutOfMemory(Refused),
}

impl From<StopReason> for BuildFault {
    ghost from_gives = { λ f r. r ≡ build_fault_of f };

    fn from(reason: StopReason) -> BuildFault {
        match reason {
            StopReason::TooDeep => BuildFault::TooDeep,
            StopReason::NoFiniteValue => BuildFault::NoFiniteValue,
            StopReason::BitSequence => BuildFault::BitSequence,
            StopReason::BadCompact => BuildFault::BadCompact,
        }
    }
}

impl From<Refused> for BuildFault {
    ghost use Rattle.std.specs.Prelude.{◌≡◌};
    ghost use Rattle.value_core.specs.declared.build_fault.BuildFault.TheVariants.{OutOfMemory};

    ghost from_gives = { λ refused fault. fault ≡ OutOfMemory refused };

    fn from(refused: Refused) -> BuildFault {
        BuildFault::OutOfMemory(refused)
    }
}
