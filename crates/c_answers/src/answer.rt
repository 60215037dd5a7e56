//! Answers as numbers, for callers that have no enums. The numbers are those of
//! `clients/c/scaleview.h`, and never change.

ghost use Rattle.std.specs.Prelude.{◌≡◌};
ghost use Rattle.c_answers.specs.Codes.{count_answer, metadata_answer, opened_answer, plain};
ghost use Rattle.c_answers.specs.Codes.{progress_answer, refused};
ghost use Rattle.c_answers.specs.Codes.{registry_answer, registry_code, text_answer};
ghost use Rattle.c_answers.specs.Codes.{opening_code, record_code, records_answer};
ghost use Rattle.c_answers.specs.Codes.{value_answer, value_code};

use decode_core::{DecodeReason, Progress};
use growth_core::Refused;
use record_core::RecordFault;
use registry_core::{RegistryReason, Version};
use scale_calls::{MetadataRefusal, RegistryRefusal, ValueRefusal};
use value_core::BuildFault;

/// The call succeeded.
pub const OK: u32 = 0;
/// The piece was taken, and the value is incomplete.
pub const MORE: u32 = 1;
/// The text does not fit.
pub const NO_ROOM: u32 = 2;
/// An allocation failed. Only [`memory_code`] hands it out.
const MEMORY: u32 = 3;
/// A session of the registry is not freed yet.
pub const LENT: u32 = 4;
/// The handle is null, or of the other kind.
pub const NO_HANDLE: u32 = 5;
/// The handle that is to be set is not null.
pub const TAKEN: u32 = 6;
/// The registry has no type at the position.
pub const UNKNOWN_TYPE: u32 = 201;
/// A limit is out of range.
pub const LIMIT_OUT_OF_RANGE: u32 = 202;
/// The type has no such part.
pub const UNKNOWN_PART: u32 = 203;
/// The metadata has no such name.
pub const UNKNOWN_NAME: u32 = 204;
/// The metadata has no bytes for the name.
pub const NO_BYTES: u32 = 205;

/// What a call reports: its code, and numbers, which are 0 unless the code gives them a meaning.
#[repr(C)]
#[derive(Clone, Copy, Debug, PartialEq, Eq)]
pub struct Answer {
    pub code: u32,
    /// The position of the type that has an unknown reference, that metadata refers to, or that a
    /// name stands for; or the version of metadata.
    pub from: u32,
    /// The place of a refusal in bytes, the position of a rejected record, where a registry ends or
    /// an opaque value begins, the number of bytes of a pool, or whether a name has bytes.
    pub at: u64,
    /// The number of bytes of a text, of types, of records, or of bytes of a piece that belong to
    /// the value.
    pub length: u64,
}

/// Returns the code of a failed allocation, of which the caller has the evidence.
fn memory_code(_refused: Refused) -> u32
    ensures { result ≡ 3 }
{
    MEMORY
}

fn registry_code(reason: RegistryReason) -> u32
    ensures { result ≡ registry_code reason }
{
    match reason {
        RegistryReason::Truncated => 101,
        RegistryReason::BadUtf8 => 102,
        RegistryReason::CompactNotShortest => 103,
        RegistryReason::CompactTooLarge => 104,
        RegistryReason::BadOption => 105,
        RegistryReason::BadDefinition => 106,
        RegistryReason::BadPrimitive => 107,
        RegistryReason::IdOutOfPlace => 108,
        RegistryReason::NotMetadata => 109,
        RegistryReason::WrongVersion => 110,
        RegistryReason::OutOfMemory(refused) => memory_code(refused),
    }
}

fn value_code(reason: DecodeReason) -> u32
    ensures { result ≡ value_code reason }
{
    match reason {
        DecodeReason::Truncated => 301,
        DecodeReason::BadBool => 302,
        DecodeReason::BadChar => 303,
        DecodeReason::BadUtf8 => 304,
        DecodeReason::CompactNotShortest => 305,
        DecodeReason::CompactTooLarge => 306,
        DecodeReason::NoSuchVariant => 307,
        DecodeReason::TooDeep => 308,
        DecodeReason::NoFiniteValue => 309,
        DecodeReason::BitSequence => 310,
        DecodeReason::BadCompact => 311,
        DecodeReason::TooLong => 312,
        DecodeReason::OutOfMemory(refused) => memory_code(refused),
        DecodeReason::UnusedBits => 314,
    }
}

fn record_code(reason: BuildFault) -> u32
    ensures { result ≡ record_code reason }
{
    match reason {
        BuildFault::TooDeep => 401,
        BuildFault::NoFiniteValue => 402,
        BuildFault::BitSequence => 403,
        BuildFault::BadCompact => 404,
        BuildFault::WrongKind => 405,
        BuildFault::OutOfRange => 406,
        BuildFault::NoSuchVariant => 407,
        BuildFault::UnfinishedValue => 408,
        BuildFault::BadText { .. } => 409,
        BuildFault::UnknownType => UNKNOWN_TYPE,
        BuildFault::OutOfMemory(refused) => memory_code(refused),
    }
}

/// Returns the code that says why no value of a type can be begun.
fn opening_code(reason: BuildFault) -> u32
    ensures { result ≡ opening_code reason }
{
    match reason {
        BuildFault::OutOfRange => LIMIT_OUT_OF_RANGE,
        _ => record_code(reason),
    }
}

impl Answer {
    /// Returns an answer of a code alone.
    pub fn plain(code: u32) -> Answer
        ensures { result ≡ plain code }
    {
        Answer {
            code,
            from: 0,
            at: 0,
            length: 0,
        }
    }

    /// Returns an answer of a code and a length.
    pub fn counted(code: u32, length: u64) -> Answer
        ensures { result ≡ count_answer code length }
    {
        Answer {
            code,
            from: 0,
            at: 0,
            length,
        }
    }

    /// Returns the answer of a text of `len` bytes and memory for `room` bytes: it was written, or
    /// does not fit.
    pub fn of_text(len: usize, room: usize) -> Answer
        ensures { result ≡ text_answer len room }
    {
        Answer::counted(if len <= room { OK } else { NO_ROOM }, len as u64)
    }

    /// Returns the answer of an open registry of this many types, which ends at a place.
    pub fn of_opened(version: Option<Version>, end: usize, types: usize) -> Answer
        ensures { result ≡ opened_answer version end types }
    {
        Answer {
            code: OK,
            from: match version {
                Some(version) => u32::from(version.number()),
                None => 0,
            },
            at: end as u64,
            length: types as u64,
        }
    }

    /// Returns the answer of a failed allocation.
    pub fn of_refused(refused: Refused) -> Answer
        ensures { result ≡ plain 3 }
    {
        Answer::plain(memory_code(refused))
    }

    /// Returns the answer of a refusal at a place.
    fn refused(code: u32, at: u64) -> Answer
        ensures { result ≡ refused code at }
    {
        Answer {
            code,
            from: 0,
            at,
            length: 0,
        }
    }

    /// Returns the answer that says why there is no registry.
    pub fn of_registry(refusal: RegistryRefusal) -> Answer
        ensures { result ≡ registry_answer refusal }
    {
        match refusal {
            RegistryRefusal::Fault(fault) => Answer::refused(registry_code(fault.reason), fault.at),
            RegistryRefusal::TrailingBytes(at) => Answer::refused(111, at),
            RegistryRefusal::Check(unknown) => Answer {
                code: 112,
                from: unknown.from,
                at: unknown.to as u64,
                length: 0,
            },
            RegistryRefusal::TooLarge(_) => Answer::plain(114),
            RegistryRefusal::Memory(refused) => Answer::of_refused(refused),
        }
    }

    /// Returns the answer that says why there is no metadata.
    pub fn of_metadata(refusal: MetadataRefusal) -> Answer
        ensures { result ≡ metadata_answer refusal }
    {
        match refusal {
            MetadataRefusal::Registry(fault) => Answer::of_registry(RegistryRefusal::Fault(fault)),
            MetadataRefusal::Rest(fault) => Answer::of_value(ValueRefusal::Fault(fault)),
            MetadataRefusal::TrailingBytes(at) => {
                Answer::of_registry(RegistryRefusal::TrailingBytes(at))
            }
            MetadataRefusal::UnknownReference { ty, at } => Answer {
                code: 113,
                from: ty,
                at,
                length: 0,
            },
            MetadataRefusal::Check(unknown) => {
                Answer::of_registry(RegistryRefusal::Check(unknown))
            }
            MetadataRefusal::TooLarge(many) => {
                Answer::of_registry(RegistryRefusal::TooLarge(many))
            }
            MetadataRefusal::Memory(refused) => Answer::of_refused(refused),
        }
    }

    /// Returns the answer that says why there is no value.
    pub fn of_value(refusal: ValueRefusal) -> Answer
        ensures { result ≡ value_answer refusal }
    {
        match refusal {
            ValueRefusal::UnknownType => Answer::plain(UNKNOWN_TYPE),
            ValueRefusal::LimitOutOfRange => Answer::plain(LIMIT_OUT_OF_RANGE),
            ValueRefusal::Fault(fault) => Answer::refused(value_code(fault.reason), fault.at),
            ValueRefusal::TrailingBytes(at) => Answer::refused(313, at),
            ValueRefusal::Memory(refused) => Answer::of_refused(refused),
        }
    }

    /// Returns the answer that says why records are no value.
    pub fn of_records(fault: RecordFault) -> Answer
        ensures { result ≡ records_answer fault }
    {
        match fault {
            RecordFault::Open(reason) => Answer::plain(opening_code(reason)),
            RecordFault::Record(_, BuildFault::OutOfMemory(refused)) => Answer::of_refused(refused),
            RecordFault::Record(at, reason) => Answer::refused(record_code(reason), at as u64),
        }
    }

    /// Returns the answer that says how far a value is.
    pub fn of_progress(progress: Progress) -> Answer
        ensures { result ≡ progress_answer progress }
    {
        match progress {
            Progress::More => Answer::plain(MORE),
            Progress::Done { used } => Answer::counted(OK, used),
        }
    }
}
