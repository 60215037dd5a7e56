//! References from one type to another.

/// The position of a type in its registry, counted from 0.
#[derive(Clone, Copy, Debug, PartialEq, Eq)]
pub struct TypeId(pub u32);
