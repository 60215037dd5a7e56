//! What the command is asked to do.

use limits_core::Limits;

/// Which type a value has.
#[derive(Debug, PartialEq, Eq, Drop)]
pub enum Wanted {
    /// The type at this position of the registry.
    Id(u32),
    /// The type that the chain's metadata names so.
    Name(String),
}

/// Where a value's bytes are.
#[derive(Clone, Copy, Debug, PartialEq, Eq)]
pub enum ValueSource {
    /// In VALUEFILE, as they are.
    Raw,
    /// In VALUEFILE, as hexadecimal digits.
    Hex,
    /// In the metadata, which has them for the name.
    Metadata,
}

/// The job of showing one value as JSON.
#[derive(Debug, PartialEq, Eq, Drop)]
pub struct DecodeJob {
    /// The value's type.
    pub wanted: Wanted,
    /// Where the value's bytes are.
    pub source: ValueSource,
    /// Whether `--metadata` is given: the registry follows the prefix of metadata. With a name,
    /// FILE is metadata anyway.
    pub metadata: bool,
    /// Whether bit sequences are read.
    pub bits: bool,
    /// Whether `--opaque` is given: the value follows its length in bytes.
    pub opaque: bool,
    /// The greatest depth of a part of the value, at most 1024, and the greatest number of its
    /// bytes, at most 2^40.
    pub limits: Limits,
    /// The budget in bytes for the value and its text, if there is one.
    pub memory: Option<u64>,
}

/// A job of the command. Its files are opened by the caller.
#[derive(Debug, PartialEq, Eq, Drop)]
pub enum Job {
    /// Shows one line for each type of the registry. No value is read.
    Types {
        /// Whether the registry follows the prefix of metadata.
        metadata: bool,
    },
    /// Shows one line for each name that the chain's metadata gives to a type. No value is read.
    Names,
    /// Shows a value as JSON.
    Decode(DecodeJob),
}
