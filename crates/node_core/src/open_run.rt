//! A text or a run of bytes whose bytes come in pieces.

ghost use Rattle.std.specs.Prelude.{◌≡◌};
ghost use Rattle.node_core.specs.Leaves.{run_content};

use crate::node::Content;
use widths_core::RunKind;

/// A text or a run of bytes whose bytes come in pieces.
#[derive(Clone, Copy)]
pub struct OpenRun {
    /// Its kind.
    pub kind: RunKind,
    /// The position of its first byte in the pool.
    pub start: usize,
    /// Its length when complete: the number of its bytes, or of its bits.
    pub len: u32,
}

impl OpenRun {
    /// Returns the content of the node that the complete run is.
    pub fn content(self) -> Content
        ensures { result ≡ run_content self }
    {
        let OpenRun { kind, start, len } = self;
        match kind {
            RunKind::Text => Content::Text { start, len },
            RunKind::Bytes | RunKind::ByteArray(_) => Content::Bytes { start, len },
            RunKind::Bits(form) => Content::Bits {
                unused: form.unused(len),
                len: form.bytes(len) as u32,
                start,
            },
        }
    }
}
