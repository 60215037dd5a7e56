//! Why bytes are rejected, and where.

use thiserror::Error;

/// The reason why bytes are rejected. Its text is its name.
#[derive(Clone, Copy, Debug, PartialEq, Eq, Error)]
pub enum Reason {
    /// The bytes end before the value does.
    #[error("Truncated")]
    Truncated,
    /// The byte of a boolean is neither `00` nor `01`.
    #[error("BadBool")]
    BadBool,
    /// Four bytes are not a Unicode scalar value.
    #[error("BadChar")]
    BadChar,
    /// A complete text is not UTF-8.
    #[error("BadUtf8")]
    BadUtf8,
    /// A compact integer has a longer mode than its value needs.
    #[error("CompactNotShortest")]
    CompactNotShortest,
    /// A compact integer is above the range of its target.
    #[error("CompactTooLarge")]
    CompactTooLarge,
    /// A bit of a bit sequence's last word is 1 but stands for none. No call of this crate reports
    /// it.
    #[error("UnusedBits")]
    UnusedBits,
}

/// An error: its reason, and its place in bytes from the start of the input. Its text is `REASON at
/// PLACE`.
#[derive(Clone, Copy, Debug, PartialEq, Eq, Error)]
#[error("{reason} at {at}")]
pub struct Fault {
    pub reason: Reason,
    pub at: u64,
}
