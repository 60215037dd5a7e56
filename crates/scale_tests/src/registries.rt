//! The registries that tests use, as encoded bytes.

use std::alloc::{AllocError, Global};

/// Type 0 is a char.
pub const CHARACTER: &[u8] = b"\x04\x00\x00\x00\x05\x01\x00";

/// Type 0 is a str.
pub const TEXT: &[u8] = b"\x04\x00\x00\x00\x05\x02\x00";

/// Type 0 is a u8.
pub const U8: &[u8] = b"\x04\x00\x00\x00\x05\x03\x00";

/// Type 0 is a u16.
pub const U16: &[u8] = b"\x04\x00\x00\x00\x05\x04\x00";

/// Type 0 is a u64.
pub const U64: &[u8] = b"\x04\x00\x00\x00\x05\x06\x00";

/// Type 0 is a u128.
pub const U128: &[u8] = b"\x04\x00\x00\x00\x05\x07\x00";

/// Type 0 is a u256.
pub const WIDE: &[u8] = b"\x04\x00\x00\x00\x05\x08\x00";

/// Type 0 is an i64.
pub const I64: &[u8] = b"\x04\x00\x00\x00\x05\x0c\x00";

/// Type 0 is an i128.
pub const I128: &[u8] = b"\x04\x00\x00\x00\x05\x0d\x00";

/// Type 1 is a compact of a u128.
pub const COMPACT_U128: &[u8] = b"\x08\x00\x00\x00\x05\x07\x00\x04\x00\x00\x06\x00\x00";

/// Type 1 is a compact of a bool, type 0.
pub const COMPACT_OF_A_BOOL: &[u8] = b"\x08\x00\x00\x00\x05\x00\x00\x04\x00\x00\x06\x00\x00";

/// A u8, the empty tuple, and as type 2 a sequence of empty tuples.
pub const UNITS: &[u8] =
    b"\x0c\x00\x00\x00\x05\x03\x00\x04\x00\x00\x04\x00\x00\x08\x00\x00\x02\x04\x00";

/// Type 2 is a sequence of sequences of empty tuples.
pub const UNITS_IN_UNITS: &[u8] =
    b"\x0c\x00\x00\x00\x04\x00\x00\x04\x00\x00\x02\x00\x00\x08\x00\x00\x02\x04\x00";

/// Type 1 is a sequence of u8, type 0.
pub const BYTES: &[u8] = b"\x08\x00\x00\x00\x05\x03\x00\x04\x00\x00\x02\x00\x00";

/// Type 1 is a sequence of u16.
pub const WORDS: &[u8] = b"\x08\x00\x00\x00\x05\x04\x00\x04\x00\x00\x02\x00\x00";

/// A u32, an option of it, and as type 2 a sequence of options.
pub const OPTIONS: &[u8] =
    b"\x0c\x00\x00\x00\x05\x05\x00\x04\x04\x18Option\x04\x04T\x01\x00\x01\x08\x10None\x00\x00\x00\x10Some\x04\x00\x00\x01\x04T\x00\x01\x00\x00\x08\x00\x00\x02\x04\x00";

/// A u8, a u16, a sequence of u16, and as type 3 a tuple of the sequence and a u8.
pub const WORDS_AND_A_BYTE: &[u8] =
    b"\x10\x00\x00\x00\x05\x03\x00\x04\x00\x00\x05\x04\x00\x08\x00\x00\x02\x04\x00\x0c\x00\x00\x04\x08\x08\x00\x00";

/// Type 1 is a tuple of two str.
pub const TWO_TEXTS: &[u8] = b"\x08\x00\x00\x00\x05\x02\x00\x04\x00\x00\x04\x08\x00\x00\x00";

/// Type 2 is an array of three u8, and type 3 a tuple of a text and that array.
pub const TEXT_AND_BYTES: &[u8] =
    b"\x10\x00\x00\x00\x05\x03\x00\x04\x00\x00\x05\x02\x00\x08\x00\x00\x03\x03\x00\x00\x00\x00\x00\x0c\x00\x00\x04\x08\x04\x08\x00";

/// Type 1 is an array of 10000 u8.
pub const TEN_THOUSAND_BYTES: &[u8] =
    b"\x08\x00\x00\x00\x05\x03\x00\x04\x00\x00\x03\x10\x27\x00\x00\x00\x00";

/// Type 1 is an array of 4294967295 u8.
pub const LONG_ARRAY: &[u8] =
    b"\x08\x00\x00\x00\x05\x03\x00\x04\x00\x00\x03\xff\xff\xff\xff\x00\x00";

/// Type 1 is an array of 4294967295 u16.
pub const LONG_ARRAY_OF_WORDS: &[u8] =
    b"\x08\x00\x00\x00\x05\x04\x00\x04\x00\x00\x03\xff\xff\xff\xff\x00\x00";

/// Type 1 is an array of 2147483648 u16.
pub const HUGE_ARRAY_OF_WORDS: &[u8] =
    b"\x08\x00\x00\x00\x05\x04\x00\x04\x00\x00\x03\x00\x00\x00\x80\x00\x00";

/// A u8, the empty tuple, and as type 2 a tuple of two empty tuples and the u8.
pub const TWO_UNITS_AND_A_BYTE: &[u8] =
    b"\x0c\x00\x00\x00\x05\x03\x00\x04\x00\x00\x04\x00\x00\x08\x00\x00\x04\x0c\x04\x04\x00\x00";

/// A u32, and as type 1 an option of it.
pub const OPTION: &[u8] =
    b"\x08\x00\x00\x00\x05\x05\x00\x04\x04\x18Option\x04\x04T\x01\x00\x01\x08\x10None\x00\x00\x00\x10Some\x04\x00\x00\x01\x04T\x00\x01\x00\x00";

/// A bit sequence, and as type 1 a variant of A, and of B with a bit sequence.
pub const BITS_IN_AN_ARM: &[u8] =
    b"\x08\x00\x00\x00\x07\x00\x00\x00\x04\x00\x00\x01\x08\x04A\x00\x00\x00\x04B\x04\x00\x00\x00\x00\x01\x00\x00";

/// Type 0 is a variant of End, and of Next with a field of type 0.
pub const CHAIN: &[u8] =
    b"\x04\x00\x00\x00\x01\x08\x0cEnd\x00\x00\x00\x10Next\x04\x00\x00\x00\x00\x01\x00\x00";

/// Type 1 is a variant of A and B, both with index 3. B has a u8.
pub const SHADOWED_ARM: &[u8] =
    b"\x08\x00\x00\x00\x05\x03\x00\x04\x00\x00\x01\x08\x04A\x00\x03\x00\x04B\x04\x00\x00\x00\x00\x03\x00\x00";

/// Type 5 is a tuple of a str, a sequence of sequences of u8, a variant like that of [`CHAIN`], and
/// a str.
pub const NESTED: &[u8] =
    b"\x18\x00\x00\x00\x05\x03\x00\x04\x00\x00\x05\x02\x00\x08\x00\x00\x02\x00\x00\x0c\x00\x00\x02\x08\x00\x10\x00\x00\x01\x08\x0cEnd\x00\x00\x00\x10Next\x04\x00\x10\x00\x00\x01\x00\x00\x14\x00\x00\x04\x10\x04\x0c\x10\x04\x00";

/// Returns the registry of the empty tuple and of 40 tuples, each of the one before it twice. A
/// value of the last takes no bytes, but would have 2^40 parts if it were expanded.
///
/// # Errors
///
/// `AllocError` if an allocation fails.
pub fn nested_pairs(alloc: Global) -> Result<Vec<u8>, AllocError> {
    let mut bytes = Vec::from_slice(alloc, b"\xa4\x00\x00\x00\x04\x00\x00")?;
    'types: for before in 0..40u8 {
        let (id, member) = (4 * (before + 1), 4 * before);
        bytes.extend_from_slice(&[id, 0, 0, 4, 8, member, member, 0])?;
    }
    Ok(bytes)
}
