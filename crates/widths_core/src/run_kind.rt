//! The kinds of bytes that one node of a value holds as they stand.

ghost use Rattle.std.specs.Prelude.{◌≡◌, ◌<◌, ◌^◌};

use types_core::BitForm;

/// The kind of the bytes that one node of a value holds as they stand: a text, or a run of the
/// primitive u8 itself. Values of a wrapper around u8 are separate nodes (SCALE codec, "Types").
#[derive(Clone, Copy, Debug, PartialEq, Eq)]
pub enum RunKind {
    /// A text: a compact length, then that many bytes of UTF-8.
    Text,
    /// A sequence of u8: a compact length, then that many bytes.
    Bytes,
    /// An array of u8: this many bytes, at least one, without a length before them.
    ByteArray(u32),
    /// A bit sequence: its number of bits as a compact integer, then the words that hold them.
    Bits(BitForm),
}

impl RunKind {
    ghost use Rattle.widths_core.specs.RunBytes.{run_bytes};

    /// Returns how many bytes a run of this length has: as many, or those of the words of so many
    /// bits.
    #[inline(always)]
    pub fn bytes(self, len: u32) -> usize
        ensures exact { result ≡ run_bytes self len }
        ensures bound { result < 2 ^ 32 }
    {
        match self {
            RunKind::Bits(form) => form.bytes(len),
            RunKind::Text | RunKind::Bytes | RunKind::ByteArray(_) => len as usize,
        }
    }
}
