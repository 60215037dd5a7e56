//! A node without children, before it is added to a value.

ghost use Rattle.std.specs.Prelude.{◌≡◌, ◌<◌, ◌^◌, FitsSigned, IfOk, IfErr, SomeIff};
ghost use Rattle.std.specs.Int.{w64};
ghost use Rattle.node_core.specs.Leaves.{leaf_text_bytes, FitsLeaf, IsLeafKept};

use crate::node::Content;
use crate::pool::{put_long, put_run};
use growth_core::{GrowVec, Refused};
use std::alloc::Allocator;

/// A node without children, before it is added to a value.
#[derive(Clone, Copy)]
pub enum Leaf<'b> {
    /// The one value of a type that takes no bytes.
    Empty,
    /// A boolean.
    Bool(bool),
    /// A character.
    Char(char),
    /// A text, as UTF-8, fewer than 2^32 bytes.
    Text(&'b [u8]),
    /// The bytes of a sequence or an array of u8, fewer than 2^32.
    Bytes(&'b [u8]),
    /// A bit sequence: the number of bits, and the bytes of their words.
    Bits(u32, &'b [u8]),
    /// An unsigned integer of at most sixteen bytes.
    Unsigned(u128),
    /// A signed integer of at most sixteen bytes.
    Signed(i128),
    /// A 256-bit integer, as 32 bytes in little-endian order.
    Wide(&'b [u8]),
    /// A compact integer.
    Compact(u128),
    /// A sequence of this many elements that take no bytes.
    Count(u32),
}

/// Returns the number in 64 bits, if it fits.
#[inline(always)]
fn short(number: u128) -> Option<u64>
    ensures { SomeIff result (number < 2 ^ 64) number }
{
    if number <= u128::from(u64::MAX) {
        Some(number as u64)
    } else {
        None
    }
}

/// Returns the number in 64 bits, if it fits.
fn short_signed(number: i128) -> Option<i64>
    ensures { SomeIff result (FitsSigned w64 number) number }
{
    if i128::from(i64::MIN) <= number && number <= i128::from(i64::MAX) {
        Some(number as i64)
    } else {
        None
    }
}

/// Appends a signed integer to the pool unless it fits 64 bits, and returns the content of its
/// node.
#[inline(always)]
fn keep_signed<A: Allocator>(number: i128, pool: &mut GrowVec<u8, A>) -> Result<Content, Refused>
    requires { FitsLeaf (Leaf.Signed number) }
    ensures ok { IfOk result (λ content. IsLeafKept (Leaf.Signed number)
        pool.old.list.items pool.new.list.items content) }
    ensures err { IfErr result (λ _. pool.new.list.items ≡ pool.old.list.items) }
{
    match short_signed(number) {
        Some(number) => Ok(Content::Signed(number)),
        None => Ok(Content::LongSigned {
            start: put_long(pool, number.cast_unsigned())?,
        }),
    }
}

/// Appends the words of bits to the pool, and returns the content of their node.
// A call of its own: with its steps in `keep`, the loops over elements are too long to be inlined.
fn keep_bits<A: Allocator>(
    count: u32,
    bytes: &[u8],
    pool: &mut GrowVec<u8, A>,
) -> Result<Content, Refused>
    requires { FitsLeaf (Leaf.Bits count bytes) }
    ensures ok { IfOk result (λ content. IsLeafKept (Leaf.Bits count bytes.entry)
        pool.old.list.items pool.new.list.items content) }
    ensures err { IfErr result (λ _. pool.new.list.items ≡ pool.old.list.items) }
{
    let start = pool.as_slice().len();
    let len = put_run(pool, bytes)?;
    let unused = (8 * u64::from(len)).saturating_sub(u64::from(count)) as u8;
    Ok(Content::Bits { unused, len, start })
}

impl<'b> Leaf<'b> {
    /// Returns the number of bytes of a text, a run of bytes or the words of bits, and 0 for
    /// another leaf.
    #[inline(always)]
    pub fn text_len(self) -> usize
        ensures { result ≡ leaf_text_bytes self.entry }
    {
        match self {
            Leaf::Text(bytes) | Leaf::Bytes(bytes) | Leaf::Bits(_, bytes) => bytes.len(),
            _ => 0,
        }
    }

    /// Appends what does not fit a node to the pool, and returns the content of the node.
    ///
    /// # Errors
    ///
    /// If an allocation fails; the pool is unchanged.
    #[inline(always)]
    pub fn keep<A: Allocator>(self, pool: &mut GrowVec<u8, A>) -> Result<Content, Refused>
        requires { FitsLeaf self }
        ensures ok { IfOk result (λ content.
            IsLeafKept self.entry pool.old.list.items pool.new.list.items content) }
        ensures err { IfErr result (λ _. pool.new.list.items ≡ pool.old.list.items) }
    {
        let start = pool.as_slice().len();
        match self {
            Leaf::Empty => Ok(Content::Empty),
            Leaf::Bool(x) => Ok(Content::Bool(x)),
            Leaf::Char(x) => Ok(Content::Char(x)),
            Leaf::Count(x) => Ok(Content::Count(x)),
            Leaf::Text(bytes) => {
                let len = put_run(pool, bytes)?;
                Ok(Content::Text { start, len })
            }
            Leaf::Bytes(bytes) => {
                let len = put_run(pool, bytes)?;
                Ok(Content::Bytes { start, len })
            }
            Leaf::Bits(count, bytes) => keep_bits(count, bytes, pool),
            Leaf::Wide(bytes) => {
                put_run(pool, bytes)?;
                Ok(Content::Wide { start })
            }
            Leaf::Unsigned(x) => match short(x) {
                Some(x) => Ok(Content::Unsigned(x)),
                None => Ok(Content::LongUnsigned {
                    start: put_long(pool, x)?,
                }),
            },
            Leaf::Compact(x) => match short(x) {
                Some(x) => Ok(Content::Compact(x)),
                None => Ok(Content::LongCompact {
                    start: put_long(pool, x)?,
                }),
            },
            Leaf::Signed(x) => keep_signed(x, pool),
        }
    }
}
