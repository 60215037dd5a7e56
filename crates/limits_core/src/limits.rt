//! How deep a value may be, and how many bytes it may take.

ghost use Rattle.std.specs.Prelude.{◌≡◌};

/// The greatest depth limit that is accepted.
pub const MAX_DEPTH: u16 = 1024;

/// The limits on a value of untrusted bytes (this project's own; the SCALE codec sets none).
#[derive(Clone, Copy, Debug, PartialEq, Eq)]
pub struct Limits {
    /// The greatest depth of a node, from 0 to 1024. The root has depth 0, and a part one more than
    /// the node around it. Builders and decoders reject a greater limit when they are created.
    pub depth: u16,
    /// The greatest number of bytes of a complete value, from 0 to 2^40 (1099511627776). Decoders
    /// reject a greater limit when they are created.
    pub bytes: u64,
}

impl Limits {
    /// Returns a depth of 64 and 16777216 bytes (16 MiB).
    pub fn default_limits() -> Limits
        ensures { result ≡ record { depth = 64; bytes = 16777216 } }
    {
        Limits {
            depth: 64,
            bytes: 16_777_216,
        }
    }
}
