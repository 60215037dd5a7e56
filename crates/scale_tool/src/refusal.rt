//! Why the command has no answer: the refusal of a job, which determines the line on standard error
//! and the exit status.

ghost use Rattle.std.specs.Prelude.{◌≡◌, IfNone, IfSome};
ghost use Rattle.scale_tool.specs.Refused.{IsRejected, refusal_of_hex, refusal_of_metadata};
ghost use Rattle.scale_tool.specs.Refused.{refusal_of_reason, refusal_of_registry, status_of};
ghost use Rattle.scale_tool.specs.Reported.{refusal_line};
ghost use Rattle.scale_tool.specs.declared.refusal.Refusal.TheVariants.{Memory};

use command_line::Device;
use decode_core::DecodeFault;
use graph_core::TooMany;
use growth_core::Refused;
use hex_text::{HexFault, HexRefusal};
use registry_core::{RegistryFault, RegistryReason};
use scale_calls::{MetadataRefusal, RegistryRefusal, UnknownReference};

/// Why there is no answer.
#[derive(Clone, Copy)]
pub(crate) enum Refusal {
    /// The first fault of the registry's bytes.
    Registry(RegistryFault),
    /// Bytes follow the registry, which ends at this place.
    TrailingRegistry(u64),
    /// A type refers to one that the registry lacks.
    Check(UnknownReference),
    /// The first fault of what follows the registry in metadata.
    Rest(DecodeFault),
    /// What follows the registry refers, at a place, to a type that the registry lacks.
    UnknownReference { ty: u32, at: u64 },
    /// The registry has no type at the position.
    UnknownType(u32),
    /// The metadata has no such name.
    UnknownName,
    /// The metadata has no bytes for the name.
    NoBytes,
    /// The value's file should hold digits, and does not.
    Hex(HexFault),
    /// The first fault of the value's bytes.
    Value(DecodeFault),
    /// Bytes follow the value, which ends at this place.
    TrailingValue(u64),
    /// A read of the registry failed.
    RegistryDevice,
    /// A read of the value failed.
    ValueDevice,
    /// A write of the answer failed.
    OutputDevice,
    /// There are more types, references or names than numbers of 32 bits.
    TooLarge(TooMany),
    /// An allocation failed.
    Memory(Refused),
}

impl Refusal {
    /// Returns the exit status: 1 for the input, 3 for a device, 4 for what is too large or for
    /// a failed allocation.
    pub(crate) fn status(self) -> u8
        ensures { result ≡ status_of self }
    {
        match self {
            Refusal::RegistryDevice | Refusal::ValueDevice | Refusal::OutputDevice => 3,
            Refusal::TooLarge(_) | Refusal::Memory(_) => 4,
            _ => 1,
        }
    }

    /// Returns the line of a device, of what is too large or of a failed allocation, which needs no
    /// memory. It is the same for every name.
    pub(crate) fn fixed_line(self, name: &str) -> Option<&'static str>
        ensures line { IfSome result (λ line. line.now ≡ refusal_line name.now self) }
        ensures none { IfNone result (IsRejected self) }
    {
        match self {
            Refusal::RegistryDevice => Some(Device::Registry.line()),
            Refusal::ValueDevice => Some(Device::Value.line()),
            Refusal::OutputDevice => Some(Device::Output.line()),
            Refusal::TooLarge(_) => Some("scaleview: registry: TooLarge\n"),
            Refusal::Memory(_) => Some("scaleview: memory\n"),
            _ => None,
        }
    }
}

impl From<RegistryRefusal> for Refusal {
    ghost from_gives = { λ f r. r ≡ refusal_of_registry f };

    fn from(refusal: RegistryRefusal) -> Refusal {
        match refusal {
            RegistryRefusal::Fault(fault) => Refusal::Registry(fault),
            RegistryRefusal::TrailingBytes(at) => Refusal::TrailingRegistry(at),
            RegistryRefusal::Check(unknown) => Refusal::Check(unknown),
            RegistryRefusal::TooLarge(many) => Refusal::TooLarge(many),
            RegistryRefusal::Memory(refused) => Refusal::Memory(refused),
        }
    }
}

/// Returns the refusal of a fault of metadata's registry; a failed allocation is no fault of the
/// bytes.
fn of_fault(fault: RegistryFault) -> Refusal
    ensures { result ≡ refusal_of_reason fault.reason fault }
{
    // `open_metadata` returns `Memory` for it, but its contract does not say so.
    match fault.reason {
        RegistryReason::OutOfMemory(refused) => Refusal::Memory(refused),
        _ => Refusal::Registry(fault),
    }
}

impl From<MetadataRefusal> for Refusal {
    ghost from_gives = { λ f r. r ≡ refusal_of_metadata f };

    fn from(refusal: MetadataRefusal) -> Refusal {
        match refusal {
            MetadataRefusal::Registry(fault) => of_fault(fault),
            MetadataRefusal::Rest(fault) => Refusal::Rest(fault),
            MetadataRefusal::TrailingBytes(at) => Refusal::TrailingRegistry(at),
            MetadataRefusal::UnknownReference { ty, at } => Refusal::UnknownReference { ty, at },
            MetadataRefusal::Check(unknown) => Refusal::Check(unknown),
            MetadataRefusal::TooLarge(many) => Refusal::TooLarge(many),
            MetadataRefusal::Memory(refused) => Refusal::Memory(refused),
        }
    }
}

impl From<HexRefusal> for Refusal {
    ghost from_gives = { λ f r. r ≡ refusal_of_hex f };

    fn from(refusal: HexRefusal) -> Refusal {
        match refusal {
            HexRefusal::Fault(fault) => Refusal::Hex(fault),
            HexRefusal::Memory(refused) => Refusal::Memory(refused),
        }
    }
}

impl From<Refused> for Refusal {
    ghost from_gives = { λ refused r. r ≡ Memory refused };

    fn from(refused: Refused) -> Refusal {
        Refusal::Memory(refused)
    }
}
