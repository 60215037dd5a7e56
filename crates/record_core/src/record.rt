//! A node of a value as numbers.

ghost use Rattle.std.specs.Prelude.{◌≡◌, ◌%◌, ◌/◌, ◌^◌};
ghost use Rattle.node_core.specs.Shown.{IsInPool, cell_shown};
ghost use Rattle.record_core.specs.Records.{number_of, record_of};
ghost use Rattle.record_core.specs.Replayed.{has_only_own, is_leaf};

use node_core::{Content, Node, bit_count, long_at};
use types_core::TypeId;

/// The kind of the one value of a type that takes no bytes.
pub const EMPTY: u32 = 0;
/// The kind of a boolean, 0 or 1 in `low`.
pub const BOOL: u32 = 1;
/// The kind of a character, whose code point is `low`.
pub const CHAR: u32 = 2;
/// The kind of an unsigned integer of at most 128 bits, whose halves are `low` and `high`.
pub const UNSIGNED: u32 = 3;
/// The kind of a signed integer, whose halves are `low` and `high`, in 128 bits of two's
/// complement.
pub const SIGNED: u32 = 4;
/// The kind of a compact integer, whose halves are `low` and `high`.
pub const COMPACT: u32 = 5;
/// The kind of a sequence of elements that take no bytes, as many as `low`.
pub const COUNT: u32 = 6;
/// The kind of a text: `high` bytes of UTF-8 from position `low` of the pool on.
pub const TEXT: u32 = 7;
/// The kind of a sequence or an array of u8: `high` bytes from position `low` of the pool on.
pub const BYTES: u32 = 8;
/// The kind of a 256-bit integer: 32 bytes, in little-endian order, from position `low` of the pool
/// on.
pub const WIDE: u32 = 9;
/// The kind of a composite or a tuple.
pub const FIELDS: u32 = 10;
/// The kind of a variant; the position of its arm is `arm`.
pub const ARM: u32 = 11;
/// The kind of an array or a sequence of another type than u8.
pub const LIST: u32 = 12;
/// The kind of a bit sequence: `high` bits, whose words begin at position `low` of the pool. Its
/// type says how many bytes they have, and where each bit stands in them.
pub const BITS: u32 = 13;

/// A node of a value as numbers, without pointers. Numbers that its kind doesn't use are 0.
#[repr(C)]
#[derive(Clone, Copy, Debug, PartialEq, Eq)]
pub struct Record {
    /// What the node is: one of the kinds, such as [`TEXT`].
    pub kind: u32,
    /// The position of its type in the registry.
    pub ty: u32,
    /// How many children it has. They follow it, each with its own subtree.
    pub children: u32,
    /// The position of a variant's arm in the list of arms.
    pub arm: u32,
    /// The low half of a number, or where its bytes begin in the pool. If the node is a composite,
    /// a tuple, a variant or a list, how many nodes its subtree has, with itself.
    pub low: u64,
    /// The high half of a number, how many bytes it has in the pool, or how many bits it has.
    pub high: u64,
}

const _: () = prove!(size_of::<Record>() == 32);

/// One more than the greatest number that a half holds.
const HALF: u128 = 1 << 64;

/// Returns the record of a node without children.
#[inline(always)]
fn leaf(kind: u32, ty: TypeId, low: u64, high: u64) -> Record
    ensures { result ≡ record {
      kind = kind;
      ty = ty.0;
      children = 0;
      arm = 0;
      low = low;
      high = high;
    } }
{
    Record {
        kind,
        ty: ty.0,
        children: 0,
        arm: 0,
        low,
        high,
    }
}

/// Returns the record of a number.
#[inline(always)]
fn integer(kind: u32, ty: TypeId, number: u128) -> Record
    ensures { result ≡ record {
      kind = kind;
      ty = ty.0;
      children = 0;
      arm = 0;
      low = number % 2 ^ 64;
      high = number / 2 ^ 64;
    } }
{
    leaf(kind, ty, (number % HALF) as u64, (number / HALF) as u64)
}

/// Returns the record of a node with children, whose subtree has `size` nodes.
#[inline(always)]
fn branch(kind: u32, node: &Node, arm: u32, size: usize) -> Record
    ensures { result ≡ record {
      kind = kind;
      ty = node.now.ty.0;
      children = node.now.children;
      arm = arm;
      low = size;
      high = 0;
    } }
{
    Record {
        kind,
        ty: node.ty.0,
        children: node.children,
        arm,
        low: size as u64,
        high: 0,
    }
}

impl Record {
    /// Creates the record of a node whose bytes begin at `at` in the pool that goes with the
    /// records. `pool` is the one that goes with the nodes.
    #[inline(always)]
    pub(crate) fn of_node(node: &Node, pool: &[u8], at: u64) -> Record
        requires { IsInPool pool.now node.now.content }
        ensures { result ≡ record_of at (cell_shown pool.now node.now) }
    {
        let ty = node.ty;
        match node.content {
            Content::Empty => leaf(EMPTY, ty, 0, 0),
            Content::Bool(x) => leaf(BOOL, ty, u64::from(x), 0),
            Content::Char(x) => leaf(CHAR, ty, u64::from(u32::from(x)), 0),
            Content::Count(count) => leaf(COUNT, ty, u64::from(count), 0),
            Content::Unsigned(x) => leaf(UNSIGNED, ty, x, 0),
            Content::Compact(x) => leaf(COMPACT, ty, x, 0),
            Content::Signed(x) => integer(SIGNED, ty, i128::from(x).cast_unsigned()),
            Content::LongUnsigned { start } => integer(UNSIGNED, ty, long_at(pool, start)),
            Content::LongCompact { start } => integer(COMPACT, ty, long_at(pool, start)),
            Content::LongSigned { start } => integer(SIGNED, ty, long_at(pool, start)),
            Content::Text { len, .. } => leaf(TEXT, ty, at, u64::from(len)),
            Content::Bytes { len, .. } => leaf(BYTES, ty, at, u64::from(len)),
            Content::Wide { .. } => leaf(WIDE, ty, at, 32),
            Content::Bits { unused, len, .. } => {
                leaf(BITS, ty, at, u64::from(bit_count(unused, len)))
            }
            Content::Fields { size } => branch(FIELDS, node, 0, size),
            Content::Arm { position, size } => branch(ARM, node, position, size),
            Content::List { size } => branch(LIST, node, 0, size),
        }
    }

    /// Returns the number whose halves the record has.
    pub(crate) fn number(&self) -> u128
        ensures { result ≡ number_of self.now }
    {
        u128::from(self.low) + HALF * u128::from(self.high)
    }

    /// Returns whether the node has neither children nor an arm.
    fn is_leaf(&self) -> bool
        ensures { result ≡ is_leaf self.now }
    {
        self.children == 0 && self.arm == 0
    }

    /// Returns whether every number is 0 that the kind gives no meaning. Of a kind that there is
    /// not, no number is looked at.
    pub(crate) fn has_only_own(&self) -> bool
        ensures { result ≡ has_only_own self.now }
    {
        match self.kind {
            EMPTY => self.is_leaf() && self.low == 0 && self.high == 0,
            BOOL | CHAR | COUNT => self.is_leaf() && self.high == 0,
            UNSIGNED | SIGNED | COMPACT | TEXT | BYTES | WIDE | BITS => self.is_leaf(),
            FIELDS | LIST => self.arm == 0 && self.high == 0,
            ARM => self.high == 0,
            _ => true,
        }
    }
}
