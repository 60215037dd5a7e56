//! Rows that tests run over failing devices, and the default limits. All other rows are data of
//! `vectors`.

use crate::registries::{BITS_IN_AN_ARM, NESTED, OPTION, TWO_UNITS_AND_A_BYTE, U16};
use value_core::Limits;

/// Bytes that are read as one value of a type, within [`AMPLE`].
#[derive(Clone, Copy)]
pub struct Row {
    pub name: &'static str,
    pub registry: &'static [u8],
    pub ty: u32,
    pub bytes: &'static [u8],
    /// The value's JSON, or empty if the bytes are rejected.
    pub json: &'static str,
    /// The error as it is printed, or empty if the bytes are one value.
    pub refusal: &'static str,
}

/// The default limits: a depth of 64, and 16 MiB.
pub const AMPLE: Limits = Limits {
    depth: 64,
    bytes: 16_777_216,
};

/// The rows.
pub const ROWS: [Row; 6] = [
    Row {
        name: "texts, runs and arms",
        registry: NESTED,
        ty: 5,
        bytes: b"\x08ab\x0c\x04\x01\x08\x02\x03\x00\x01\x01\x01\x00\x10\xc3\xa9\xc3\xa9",
        json: "[\"ab\",[\"0x01\",\"0x0203\",\"0x\"],{\"Next\":[{\"Next\":[{\"Next\":[{\"End\":[]}]}]}]},\"\u{e9}\u{e9}\"]",
        refusal: "",
    },
    Row {
        name: "two units and a byte",
        registry: TWO_UNITS_AND_A_BYTE,
        ty: 2,
        bytes: b"\x2a",
        json: "[null,null,42]",
        refusal: "",
    },
    Row {
        name: "an option that is cut",
        registry: OPTION,
        ty: 1,
        bytes: b"\x01\x2a\x00",
        json: "",
        refusal: "Truncated at 3",
    },
    Row {
        name: "an index of no arm",
        registry: OPTION,
        ty: 1,
        bytes: b"\x02",
        json: "",
        refusal: "NoSuchVariant at 0",
    },
    Row {
        name: "an arm with a bit sequence",
        registry: BITS_IN_AN_ARM,
        ty: 1,
        bytes: b"\x01",
        json: "",
        refusal: "BitSequence at 1",
    },
    Row {
        name: "a u16 and a byte after it",
        registry: U16,
        ty: 0,
        bytes: b"\x2a\x00\xff",
        json: "",
        refusal: "TrailingBytes at 2",
    },
];
