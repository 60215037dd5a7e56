//! What came of a turn.

use crate::reason::DecodeReason;
use growth_core::Refused;

/// Why no turn follows.
#[derive(Clone, Copy, Debug, PartialEq, Eq)]
pub enum Stopped {
    /// The value is complete.
    Finished,
    /// The next node needs a byte that is not there.
    Wants,
    /// An allocation failed.
    OutOfMemory(Refused),
    /// The next node is rejected.
    Refused {
        /// How many bytes before this turn belong to the node.
        held: usize,
        reason: DecodeReason,
        /// The place in bytes, from the node's first one.
        at: u64,
        /// How many bytes of the node decide it.
        len: usize,
    },
}

/// The outcome of a turn on a node that may lie whole in the piece.
// It is small, since one is made for each node.
#[derive(Clone, Copy, Debug, PartialEq, Eq)]
pub(crate) enum Tried {
    /// The node was added; it took so many bytes of the piece.
    Added(usize),
    /// Nothing changed: the node needs a turn of another kind.
    Untouched,
    /// An allocation failed, and nothing changed.
    OutOfMemory(Refused),
}
