//! Why the bytes of a registry are rejected, and where.

use growth_core::Refused;
use std::error::Error;
use std::fmt;

/// The reason why the bytes of a registry are rejected. Its text is its name.
#[derive(Clone, Copy, Debug, PartialEq, Eq)]
pub enum RegistryReason {
    /// The bytes end before the registry does.
    Truncated,
    /// A complete text is not UTF-8.
    BadUtf8,
    /// A length or an id has a longer form than its value needs.
    CompactNotShortest,
    /// A length or an id is above 4294967295, or its first byte claims more than the four bytes of
    /// a u32, as `07` does.
    ///
    /// Such a first byte is rejected whatever follows it, also for a smaller value, and if nothing
    /// follows. `07` with five `00` after it is `CompactTooLarge`, not `CompactNotShortest`.
    CompactTooLarge,
    /// The byte of an option is neither `00` nor `01`.
    BadOption,
    /// The byte of a definition is above `07`.
    BadDefinition,
    /// The byte of a primitive is above `0e`.
    BadPrimitive,
    /// The id of a type is not its position.
    IdOutOfPlace,
    /// One of the first four bytes of metadata is not that of `meta`.
    NotMetadata,
    /// The version of the metadata is neither 14 nor 15.
    WrongVersion,
    /// An allocation failed.
    OutOfMemory(Refused),
}

impl fmt::Display for RegistryReason {
    ghost use Rattle.std.specs.Prelude.{Some};
    ghost use Rattle.registry_core.specs.Names.{registry_reason_name};

    ghost output = { λ reason. Some (registry_reason_name reason) };

    fn fmt<W: fmt::Write>(&self, f: &mut fmt::Formatter<W>) -> fmt::Result {
        f.write_str(match self {
            RegistryReason::Truncated => "Truncated",
            RegistryReason::BadUtf8 => "BadUtf8",
            RegistryReason::CompactNotShortest => "CompactNotShortest",
            RegistryReason::CompactTooLarge => "CompactTooLarge",
            RegistryReason::BadOption => "BadOption",
            RegistryReason::BadDefinition => "BadDefinition",
            RegistryReason::BadPrimitive => "BadPrimitive",
            RegistryReason::IdOutOfPlace => "IdOutOfPlace",
            RegistryReason::NotMetadata => "NotMetadata",
            RegistryReason::WrongVersion => "WrongVersion",
            RegistryReason::OutOfMemory(_) => "OutOfMemory",
        })
    }
}

impl Error for RegistryReason {}

/// An error: its reason, and its place in bytes from the start of the input. Its text is `REASON at
/// PLACE`.
#[derive(Clone, Copy, Debug, PartialEq, Eq)]
pub struct RegistryFault {
    pub reason: RegistryReason,
    pub at: u64,
}

impl fmt::Display for RegistryFault {
    ghost use Rattle.std.specs.Prelude.{Some};
    ghost use Rattle.registry_core.specs.Names.{registry_fault_text};

    ghost output = { λ fault. Some (registry_fault_text fault) };

    fn fmt<W: fmt::Write>(&self, f: &mut fmt::Formatter<W>) -> fmt::Result {
        let RegistryFault { reason, at } = self;
        write!(f, "{reason} at {at}")
    }
}

impl Error for RegistryFault {}
