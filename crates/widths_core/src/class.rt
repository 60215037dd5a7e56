//! How many bytes the values of a type take.

ghost use Rattle.std.specs.Prelude.{◌≡◌};

/// How many bytes the values of a type take.
#[derive(Clone, Copy, Debug, PartialEq, Eq)]
pub enum Class {
    /// The type has no finite value: it is a variant without arms, each of its values would contain
    /// another of the same type, or each would contain a value of such a type, in every arm that
    /// its index can reach.
    NoValue,
    /// The type has one value, of no bytes.
    Empty,
    /// The type has values, and they take bytes. Bit sequences, and compacts over no unsigned
    /// integer, are also of this class.
    Sized,
}

impl Class {
    ghost use Rattle.widths_core.specs.ClassTables.{has_value};

    /// Returns whether a type of this class has a value.
    pub(crate) fn has_value(self) -> bool
        ensures { result ≡ has_value self }
    {
        !matches!(self, Class::NoValue)
    }
}
