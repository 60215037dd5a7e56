//! Why a part of a registry was not read.

ghost use Rattle.std.specs.Prelude.{◌≡◌, ◌≢◌, ◌≤◌, length, drop};
ghost use Rattle.registry_core.specs.Gives.{IsFaultAt, IsWithin, fault_of};
ghost use Rattle.registry_core.specs.Reading.{registry_reason_of};
ghost use Rattle.registry_core.specs.declared.reading.read_stop.ReadStop.TheVariants.{Memory};

use crate::fault::{RegistryFault, RegistryReason};
use growth_core::Refused;
use scale_core::{Fault, Reason};

/// The reason why a part was not read.
#[derive(Drop)]
pub(crate) enum ReadStop<'a> {
    /// An allocation failed.
    Memory(Refused),
    /// The first error, and the bytes from its place on.
    Fault(RegistryReason, &'a [u8]),
}

/// Returns the registry's reason for an error in a length, an id or a text.
///
/// These are never rejected as a boolean, a character or a bit sequence.
fn registry_reason(reason: Reason) -> RegistryReason
    requires { (reason ≢ Reason.BadBool) × (reason ≢ Reason.BadChar)
        × (reason ≢ Reason.UnusedBits) }
    ensures { result ≡ registry_reason_of reason }
{
    match reason {
        Reason::Truncated => RegistryReason::Truncated,
        Reason::BadUtf8 => RegistryReason::BadUtf8,
        Reason::CompactNotShortest => RegistryReason::CompactNotShortest,
        Reason::CompactTooLarge => RegistryReason::CompactTooLarge,
        Reason::BadBool | Reason::BadChar | Reason::UnusedBits => unreachable!(),
    }
}

impl<'a> ReadStop<'a> {
    /// Returns the stop for an error in a length, an id or a text at the start of these bytes.
    pub(crate) fn at_fault(fault: Fault, bytes: &'a [u8]) -> ReadStop<'a>
        requires within { fault.at ≤ length bytes.now }
        requires reason { (fault.reason ≢ Reason.BadBool) × (fault.reason ≢ Reason.BadChar)
            × (fault.reason ≢ Reason.UnusedBits) }
        ensures { IsFaultAt (registry_reason_of fault.reason) (drop fault.at bytes.now) result }
    {
        let left = &bytes[fault.at as usize..];
        ReadStop::Fault(registry_reason(fault.reason), left)
    }

    /// Returns the error and its place, for a reading of these bytes that stopped.
    pub(crate) fn into_fault(self, bytes: &[u8]) -> RegistryFault
        requires { IsWithin bytes.now self }
        ensures { result ≡ fault_of (length bytes.now) self.entry }
    {
        match self {
            ReadStop::Memory(refused) => RegistryFault {
                reason: RegistryReason::OutOfMemory(refused),
                at: 0,
            },
            ReadStop::Fault(reason, left) => RegistryFault {
                reason,
                at: (bytes.len() - left.len()) as u64,
            },
        }
    }
}

impl From<Refused> for ReadStop<'_> {
    ghost from_gives = { λ refused stop. stop ≡ Memory refused };

    fn from(refused: Refused) -> Self {
        ReadStop::Memory(refused)
    }
}
