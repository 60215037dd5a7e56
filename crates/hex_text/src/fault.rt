//! Why a text of hexadecimal digits holds no bytes.

use growth_core::Refused;

/// What is wrong with a text of hexadecimal digits, and where in the text.
#[derive(Clone, Copy, Debug, PartialEq, Eq)]
pub enum HexFault {
    /// The number of digits is odd. The place is their end.
    Odd(u64),
    /// A byte that is no digit.
    Bad(u64),
}

/// Why a text of hexadecimal digits gives no bytes.
#[derive(Clone, Copy, Debug, PartialEq, Eq)]
pub enum HexRefusal {
    /// The text is not that of any bytes.
    Fault(HexFault),
    /// An allocation failed.
    Memory(Refused),
}
