//! How a value stands in its file.

ghost use Rattle.std.specs.Prelude.{◌≡◌};
ghost use Rattle.scale_tool.specs.Values.{is_gathered};

use value_core::Limits;

/// The form of a value in its file.
#[derive(Clone, Copy)]
pub(crate) struct Form {
    /// Whether the file holds the hexadecimal digits of its bytes.
    pub(crate) hex: bool,
    /// Whether the value follows its length in bytes.
    pub(crate) opaque: bool,
}

impl Form {
    /// Returns whether all bytes of the file are read before the value is decoded.
    pub(crate) fn is_gathered(self) -> bool
        ensures { result ≡ is_gathered self }
    {
        self.hex || self.opaque
    }
}

/// A value to be read.
#[derive(Clone, Copy)]
pub(crate) struct ValueJob {
    /// The position of its type.
    pub(crate) id: u32,
    pub(crate) limits: Limits,
    pub(crate) form: Form,
}
