//! The primitive types.

ghost use Rattle.std.specs.Prelude.{◌≡◌, slice_get};

use crate::kind::{IntegerWidth, PrimitiveKind, Signedness};

/// A primitive type (scale-info, `TypeDefPrimitive`). The variants are in the order of their bytes,
/// from 0.
#[derive(Clone, Copy, Debug, PartialEq, Eq)]
pub enum Primitive {
    /// A boolean.
    Bool,
    /// A Unicode scalar value.
    Char,
    /// A text.
    Str,
    U8,
    U16,
    U32,
    U64,
    U128,
    U256,
    I8,
    I16,
    I32,
    I64,
    I128,
    I256,
}

impl Primitive {
    ghost use Rattle.types_core.specs.Bytes.{primitives, primitive_byte};
    ghost use Rattle.types_core.specs.Kinds.{kind_of};

    /// Returns the kind of this primitive.
    pub fn kind(self) -> PrimitiveKind
        ensures { result ≡ kind_of self }
    {
        match self {
            Primitive::Bool => PrimitiveKind::Bool,
            Primitive::Char => PrimitiveKind::Char,
            Primitive::Str => PrimitiveKind::Str,
            Primitive::U8 => PrimitiveKind::Unsigned(IntegerWidth::Bits8),
            Primitive::U16 => PrimitiveKind::Unsigned(IntegerWidth::Bits16),
            Primitive::U32 => PrimitiveKind::Unsigned(IntegerWidth::Bits32),
            Primitive::U64 => PrimitiveKind::Unsigned(IntegerWidth::Bits64),
            Primitive::U128 => PrimitiveKind::Unsigned(IntegerWidth::Bits128),
            Primitive::U256 => PrimitiveKind::Wide(Signedness::Unsigned),
            Primitive::I8 => PrimitiveKind::Signed(IntegerWidth::Bits8),
            Primitive::I16 => PrimitiveKind::Signed(IntegerWidth::Bits16),
            Primitive::I32 => PrimitiveKind::Signed(IntegerWidth::Bits32),
            Primitive::I64 => PrimitiveKind::Signed(IntegerWidth::Bits64),
            Primitive::I128 => PrimitiveKind::Signed(IntegerWidth::Bits128),
            Primitive::I256 => PrimitiveKind::Wide(Signedness::Signed),
        }
    }

    /// Returns the primitive with this byte, or `None` if the byte is above `0e`.
    pub fn from_byte(byte: u8) -> Option<Primitive>
        ensures { result ≡ slice_get primitives byte }
    {
        match byte {
            0 => Some(Primitive::Bool),
            1 => Some(Primitive::Char),
            2 => Some(Primitive::Str),
            3 => Some(Primitive::U8),
            4 => Some(Primitive::U16),
            5 => Some(Primitive::U32),
            6 => Some(Primitive::U64),
            7 => Some(Primitive::U128),
            8 => Some(Primitive::U256),
            9 => Some(Primitive::I8),
            10 => Some(Primitive::I16),
            11 => Some(Primitive::I32),
            12 => Some(Primitive::I64),
            13 => Some(Primitive::I128),
            14 => Some(Primitive::I256),
            _ => None,
        }
    }

    /// Returns the byte of this primitive.
    pub fn to_byte(self) -> u8
        ensures { result ≡ primitive_byte self }
    {
        self as u8
    }
}
