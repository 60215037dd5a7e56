//! A node of a value, as it is kept.

ghost use Rattle.std.specs.Prelude.{◌≡◌};
ghost use Rattle.node_core.specs.Shown.{size_shown, closed_as};

use types_core::TypeId;

/// The number of bytes of memory that a node of a value or a builder takes.
///
/// Beside its nodes a value holds the bytes of its texts and runs of bytes, 32 for each 256-bit
/// integer, and 16 for every other integer above 64 bits. A vector that grows has capacity for half
/// as much again, or for at most four times as much if an open list or run is expected to need it.
pub const NODE_BYTES: usize = 24;

const _: () = prove!(size_of::<Node>() == NODE_BYTES);

/// The content of a node, with its number if that fits 64 bits. Texts, runs of bytes and longer
/// integers lie in the pool at `start`; integers there are little-endian, in 16 bytes, or 32 if
/// wide.
///
/// `size` is the number of nodes of the subtree, and 0 while the node is open.
// Fields of four bytes come before those of eight, so they share a word with the tag.
#[derive(Clone, Copy)]
pub enum Content {
    /// The one value of a type that takes no bytes.
    Empty,
    /// A boolean.
    Bool(bool),
    /// A character.
    Char(char),
    /// A sequence of this many elements that take no bytes.
    Count(u32),
    /// A text of this many bytes.
    Text { len: u32, start: usize },
    /// A sequence or an array of this many u8.
    Bytes { len: u32, start: usize },
    /// A bit sequence in words of this many bytes, of whose bits so many are unused.
    Bits { unused: u8, len: u32, start: usize },
    /// An unsigned integer.
    Unsigned(u64),
    /// A compact integer.
    Compact(u64),
    /// A signed integer.
    Signed(i64),
    /// An unsigned integer of more than 64 bits.
    LongUnsigned { start: usize },
    /// A compact integer of more than 64 bits.
    LongCompact { start: usize },
    /// A signed integer of more than 64 bits.
    LongSigned { start: usize },
    /// An integer of 256 bits.
    Wide { start: usize },
    /// A composite or a tuple.
    Fields { size: usize },
    /// A variant, with the position of its arm.
    Arm { position: u32, size: usize },
    /// An array or a sequence of a type other than u8.
    List { size: usize },
}

/// A node, as it is kept.
#[derive(Clone, Copy)]
pub struct Node {
    /// Its type.
    pub ty: TypeId,
    /// How many children it has.
    pub children: u32,
    /// What it is.
    pub content: Content,
}

impl Content {
    /// Returns the number of nodes of the subtree: 1 for a leaf, and 0 for an open node.
    #[inline(always)]
    pub(crate) fn size(&self) -> usize
        ensures { result ≡ size_shown self.now }
    {
        match *self {
            Content::Fields { size } | Content::Arm { size, .. } | Content::List { size } => size,
            _ => 1,
        }
    }

    /// Sets the number of nodes of the subtree. A leaf is unchanged.
    pub fn close(&mut self, nodes: usize)
        ensures { self.new ≡ closed_as self.old nodes }
    {
        match self {
            Content::Fields { size } => *size = nodes,
            Content::Arm { size, .. } => *size = nodes,
            Content::List { size } => *size = nodes,
            _ => {}
        }
    }
}
