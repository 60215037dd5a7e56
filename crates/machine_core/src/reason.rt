//! Why a value is rejected.

ghost use Rattle.std.specs.Prelude.{◌≡◌};
ghost use Rattle.grammar_core.specs.Reading.{basic};
ghost use Rattle.machine_core.specs.Reasons.{reason_of, stop_refusal};

use growth_core::Refused;
use scale_core::Reason;
use std::error::Error;
use std::fmt;
use value_core::StopReason;

/// Why the bytes of a value are rejected. Its text is its name.
#[derive(Clone, Copy, Debug, PartialEq, Eq)]
pub enum DecodeReason {
    /// The bytes end before the value does.
    Truncated,
    /// A boolean's byte is neither `00` nor `01`.
    BadBool,
    /// Four bytes that spell no Unicode scalar value.
    BadChar,
    /// A complete text that is not UTF-8.
    BadUtf8,
    /// A compact integer or a length in a longer form than its value needs.
    CompactNotShortest,
    /// A compact integer or a length above its target's range. A first byte that names more bytes
    /// than the target has is rejected alone, such as `07` for an integer of 32 bits.
    CompactTooLarge,
    /// No arm of the variant has the index.
    NoSuchVariant,
    /// A part of the value stands deeper than the limit.
    TooDeep,
    /// A part has a type without a finite value.
    NoFiniteValue,
    /// A part is a bit sequence that is not allowed, or whose words are not known.
    BitSequence,
    /// A part is a compact that wraps no unsigned integer.
    BadCompact,
    /// The value goes on after the limit of bytes.
    TooLong,
    /// An allocation failed.
    OutOfMemory(Refused),
    /// A bit of a bit sequence's last word is 1 but stands for none.
    UnusedBits,
}

impl fmt::Display for DecodeReason {
    ghost use Rattle.std.specs.Prelude.{Some};
    ghost use Rattle.machine_core.specs.Reasons.{reason_name};

    ghost output = { λ reason. Some (reason_name reason) };

    fn fmt<W: fmt::Write>(&self, f: &mut fmt::Formatter<W>) -> fmt::Result {
        f.write_str(match self {
            DecodeReason::Truncated => "Truncated",
            DecodeReason::BadBool => "BadBool",
            DecodeReason::BadChar => "BadChar",
            DecodeReason::BadUtf8 => "BadUtf8",
            DecodeReason::CompactNotShortest => "CompactNotShortest",
            DecodeReason::CompactTooLarge => "CompactTooLarge",
            DecodeReason::NoSuchVariant => "NoSuchVariant",
            DecodeReason::TooDeep => "TooDeep",
            DecodeReason::NoFiniteValue => "NoFiniteValue",
            DecodeReason::BitSequence => "BitSequence",
            DecodeReason::BadCompact => "BadCompact",
            DecodeReason::TooLong => "TooLong",
            DecodeReason::OutOfMemory(_) => "OutOfMemory",
            DecodeReason::UnusedBits => "UnusedBits",
        })
    }
}

impl Error for DecodeReason {}

impl From<Reason> for DecodeReason {
    ghost from_gives = { λ f r. r ≡ reason_of (basic f) };

    fn from(reason: Reason) -> DecodeReason {
        match reason {
            Reason::Truncated => DecodeReason::Truncated,
            Reason::BadBool => DecodeReason::BadBool,
            Reason::BadChar => DecodeReason::BadChar,
            Reason::BadUtf8 => DecodeReason::BadUtf8,
            Reason::CompactNotShortest => DecodeReason::CompactNotShortest,
            Reason::CompactTooLarge => DecodeReason::CompactTooLarge,
            Reason::UnusedBits => DecodeReason::UnusedBits,
        }
    }
}

impl From<StopReason> for DecodeReason {
    ghost use Rattle.std.specs.Prelude.{◌≡◌};
    ghost use Rattle.machine_core.specs.Reasons.{reason_of, stop_refusal};

    ghost from_gives = { λ f r. r ≡ reason_of (stop_refusal f) };

    fn from(reason: StopReason) -> DecodeReason {
        match reason {
            StopReason::TooDeep => DecodeReason::TooDeep,
            StopReason::NoFiniteValue => DecodeReason::NoFiniteValue,
            StopReason::BitSequence => DecodeReason::BitSequence,
            StopReason::BadCompact => DecodeReason::BadCompact,
        }
    }
}
