//! Why bytes hold no registry, or no value of one of its types.

ghost use Rattle.std.specs.Prelude.{◌≡◌};
ghost use Rattle.scale_calls.specs.Refused.{check_refusal, opening_refusal};
ghost use Rattle.scale_calls.specs.Refused.{registry_refusal, value_refusal};
ghost use Rattle.scale_calls.specs.declared.refusal.ValueRefusal.TheVariants.{Memory};

use decode_core::{DecodeFault, DecodeReason, OpenFault};
use graph_core::TooMany;
use growth_core::Refused;
use registry_core::{RegistryFault, RegistryReason};
use thiserror::Error;
use widths_core::CheckFault;

/// A reference of the type `from` to the type `to`, which the registry lacks.
#[derive(Clone, Copy, Debug, PartialEq, Eq, Error)]
#[error("UnknownType {to} in type {from}")]
pub struct UnknownReference {
    pub from: u32,
    pub to: u32,
}

/// Why bytes hold no checked registry.
#[derive(Clone, Copy, Debug, PartialEq, Eq)]
pub enum RegistryRefusal {
    /// The first fault of the bytes.
    Fault(RegistryFault),
    /// Bytes follow the registry, which ends at this place.
    TrailingBytes(u64),
    /// A type refers to one that the registry lacks.
    Check(UnknownReference),
    /// There are more references, or more types and arms, than numbers of 32 bits.
    TooLarge(TooMany),
    /// An allocation failed.
    Memory(Refused),
}

impl From<RegistryFault> for RegistryRefusal {
    ghost from_gives = { λ f r. r ≡ registry_refusal f };

    fn from(fault: RegistryFault) -> RegistryRefusal {
        match fault.reason {
            RegistryReason::OutOfMemory(refused) => RegistryRefusal::Memory(refused),
            _ => RegistryRefusal::Fault(fault),
        }
    }
}

impl From<CheckFault> for RegistryRefusal {
    ghost from_gives = { λ f r. r ≡ check_refusal f };

    fn from(fault: CheckFault) -> RegistryRefusal {
        match fault {
            CheckFault::UnknownType { from, to } => RegistryRefusal::Check(UnknownReference {
                from: from.0,
                to: to.0,
            }),
            CheckFault::TooLarge(many) => RegistryRefusal::TooLarge(many),
            CheckFault::OutOfMemory(refused) => RegistryRefusal::Memory(refused),
        }
    }
}

/// Why complete bytes are no value of a type of the registry.
#[derive(Clone, Copy, Debug, PartialEq, Eq)]
pub enum ValueRefusal {
    /// The registry has no type at the position.
    UnknownType,
    /// The depth limit is above 1024, or the limit of bytes above 2^40.
    LimitOutOfRange,
    /// The first fault of the bytes.
    Fault(DecodeFault),
    /// Bytes follow the value, which ends at this place.
    TrailingBytes(u64),
    /// An allocation failed.
    Memory(Refused),
}

impl From<OpenFault> for ValueRefusal {
    ghost from_gives = { λ f r. r ≡ opening_refusal f };

    fn from(fault: OpenFault) -> ValueRefusal {
        match fault {
            OpenFault::UnknownType => ValueRefusal::UnknownType,
            OpenFault::LimitOutOfRange => ValueRefusal::LimitOutOfRange,
            OpenFault::OutOfMemory(refused) => ValueRefusal::Memory(refused),
        }
    }
}

impl From<DecodeFault> for ValueRefusal {
    ghost from_gives = { λ f r. r ≡ value_refusal f };

    fn from(fault: DecodeFault) -> ValueRefusal {
        match fault.reason {
            DecodeReason::OutOfMemory(refused) => ValueRefusal::Memory(refused),
            _ => ValueRefusal::Fault(fault),
        }
    }
}

impl From<Refused> for ValueRefusal {
    ghost from_gives = { λ refused r. r ≡ Memory refused };

    fn from(refused: Refused) -> ValueRefusal {
        ValueRefusal::Memory(refused)
    }
}
