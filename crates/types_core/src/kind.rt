//! The kinds of primitive types, and the widths of their integers.

ghost use Rattle.std.specs.Prelude.{◌≡◌, ◌≤◌};

/// The width of an integer, in bits, at most 128 (SCALE codec specification, fixed-width integers).
#[derive(Clone, Copy, Debug, PartialEq, Eq)]
pub enum IntegerWidth {
    Bits8,
    Bits16,
    Bits32,
    Bits64,
    Bits128,
}

impl IntegerWidth {
    ghost use Rattle.types_core.specs.Kinds.{width_bytes};

    /// Returns the number of bytes of an integer of this width.
    pub fn bytes(self) -> usize
        ensures exact { result ≡ width_bytes self }
        ensures some { 1 ≤ result }
        ensures bound { result ≤ 16 }
    {
        match self {
            IntegerWidth::Bits8 => 1,
            IntegerWidth::Bits16 => 2,
            IntegerWidth::Bits32 => 4,
            IntegerWidth::Bits64 => 8,
            IntegerWidth::Bits128 => 16,
        }
    }
}

/// The signedness of an integer type.
#[derive(Clone, Copy, Debug, PartialEq, Eq)]
pub enum Signedness {
    /// It has no numbers below 0.
    Unsigned,
    /// It has numbers below 0, in two's complement.
    Signed,
}

/// The kind of a primitive type: what its values are and how their bytes are read (SCALE codec
/// specification).
#[derive(Clone, Copy, Debug, PartialEq, Eq)]
pub enum PrimitiveKind {
    /// A boolean: one byte.
    Bool,
    /// A Unicode scalar value: four bytes.
    Char,
    /// A text: its length in bytes as a compact integer, and then its UTF-8.
    Str,
    /// An unsigned integer of at most 128 bits.
    Unsigned(IntegerWidth),
    /// A signed integer of at most 128 bits, in two's complement.
    Signed(IntegerWidth),
    /// An integer of 256 bits: 32 bytes, which are kept unchanged.
    Wide(Signedness),
}
