//! What a node of a value is, as callers see it.

/// What a node of a value is.
#[derive(Clone, Copy, Debug, PartialEq, Eq)]
pub enum What {
    /// The one value of a type that takes no bytes.
    Empty,
    /// A boolean.
    Bool(bool),
    /// A character.
    Char(char),
    /// A text; [`NodeRef::text`](crate::NodeRef::text) returns it.
    Text,
    /// A sequence or an array of u8; [`NodeRef::bytes`](crate::NodeRef::bytes) returns it.
    Bytes,
    /// A u8, u16, u32, u64 or u128.
    Unsigned(u128),
    /// An i8, i16, i32, i64 or i128.
    Signed(i128),
    /// A u256 or an i256, in little-endian order.
    Wide([u8; 32]),
    /// A compact integer.
    Compact(u128),
    /// A composite or a tuple; its fields or members are the node's children.
    Fields,
    /// A variant; the fields of its arm are the node's children.
    Arm {
        /// The position of the arm in the list of arms, which is not its index.
        position: u32,
    },
    /// An array or a sequence of a type other than u8; its elements are the node's children.
    List,
    /// A sequence of this many elements that take no bytes.
    Count(u32),
    /// A bit sequence of this many bits; [`NodeRef::words`](crate::NodeRef::words) returns the
    /// bytes of its words, and [`BitForm`](types_core::BitForm) in its type's definition says where
    /// each bit stands in them.
    Bits(u32),
}
