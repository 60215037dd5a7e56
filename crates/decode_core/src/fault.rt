//! Why a value is rejected, and where.

ghost use Rattle.std.specs.Prelude.{◌≡◌};

use growth_core::Refused;
use machine_core::DecodeReason;
use std::{error, fmt};

/// The error of a value: its reason, and its place in bytes from the value's start. It is printed
/// as `REASON at PLACE`.
#[derive(Clone, Copy, Debug, PartialEq, Eq)]
pub struct DecodeFault {
    pub reason: DecodeReason,
    pub at: u64,
}

impl fmt::Display for DecodeFault {
    ghost use Rattle.std.specs.Prelude.{Some};
    ghost use Rattle.decode_core.specs.Names.{fault_text};

    ghost output = { λ fault. Some (fault_text fault) };

    fn fmt<W: fmt::Write>(&self, f: &mut fmt::Formatter<W>) -> fmt::Result {
        let DecodeFault { reason, at } = self;
        write!(f, "{reason} at {at}")
    }
}

impl error::Error for DecodeFault {}

/// Why no decoder is made. It is printed as its name.
#[derive(Clone, Copy, Debug, PartialEq, Eq)]
pub enum OpenFault {
    /// The id is no position of the registry.
    UnknownType,
    /// The depth limit is above 1024, or the limit of bytes above 1099511627776.
    LimitOutOfRange,
    /// An allocation failed.
    OutOfMemory(Refused),
}

impl fmt::Display for OpenFault {
    ghost use Rattle.std.specs.Prelude.{Some};
    ghost use Rattle.decode_core.specs.Names.{open_fault_name};

    ghost output = { λ fault. Some (open_fault_name fault) };

    fn fmt<W: fmt::Write>(&self, f: &mut fmt::Formatter<W>) -> fmt::Result {
        f.write_str(match self {
            OpenFault::UnknownType => "UnknownType",
            OpenFault::LimitOutOfRange => "LimitOutOfRange",
            OpenFault::OutOfMemory(_) => "OutOfMemory",
        })
    }
}

impl error::Error for OpenFault {}

impl From<Refused> for OpenFault {
    ghost use Rattle.std.specs.Prelude.{◌≡◌};
    ghost use Rattle.decode_core.specs.declared.fault.OpenFault.TheVariants.{OutOfMemory};

    ghost from_gives = { λ refused fault. fault ≡ OutOfMemory refused };

    fn from(refused: Refused) -> OpenFault {
        OpenFault::OutOfMemory(refused)
    }
}
