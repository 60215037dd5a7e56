//! The growth rule of vectors: for how many elements a full vector reserves capacity.

ghost use Rattle.std.specs.Prelude.{◌≡◌, ◌<◌, ◌≤◌, ◌+◌, ◌-◌, ◌^◌, max, OnOk, OnErr};
ghost use Rattle.std.specs.Prelude.{vec_len, vec_capacity};
ghost use Rattle.growth_core.specs.Growth.{ahead, ahead_of_end};

use crate::refused::Refused;
use std::alloc::Allocator;

/// The number of elements for which a vector reserves capacity at first.
pub const FIRST: usize = 16;

/// The number of elements from which a vector grows by a quarter; below it, a vector grows by half.
const LONG: usize = 64 * 1024;

/// Returns the most elements for which a vector of this length reserves capacity at once.
fn most_ahead(len: usize) -> usize
    ensures { result ≡ ahead_of_end len (2 ^ 64 - 1) }
{
    len.saturating_mul(3).max(FIRST)
}

/// Returns for how many further elements a full vector of this length reserves capacity.
fn ahead(len: usize, expected: Option<usize>) -> usize
    ensures { result ≡ ahead len expected }
{
    match expected {
        Some(expected) => expected.min(most_ahead(len)).max(len / 8),
        None if len < LONG => (len / 2).max(FIRST),
        None => len / 4,
    }
}

/// Reserves capacity for `more` further elements, and for `ahead` if those don't fit.
fn reserve<T, A: Allocator>(list: &mut Vec<T, A>, more: usize, ahead: usize) -> Result<(), Refused>
    ensures items { list.new.items ≡ list.old.items }
    ensures kept { vec_capacity list.old ≤ vec_capacity list.new }
    ensures room { OnOk result (vec_len list.new + more ≤ vec_capacity list.new) }
    ensures most { vec_capacity list.new
        ≤ max (vec_capacity list.old) (vec_len list.old + max more ahead) }
    ensures least { vec_capacity list.old < vec_capacity list.new →
        vec_len list.old + max more ahead ≤ vec_capacity list.new }
    ensures err { OnErr result (vec_capacity list.new ≡ vec_capacity list.old) }
    ensures full { OnErr result (vec_capacity list.old < vec_len list.old + more) }
{
    if more <= list.capacity() - list.len() {
        return Ok(());
    }
    match list.reserve_exact(more.max(ahead)) {
        Ok(()) => Ok(()),
        Err(_) => Err(Refused::new()),
    }
}

/// Reserves capacity for `more` further elements.
///
/// If the vector has to grow for them, it also reserves for some of the `expected` elements that
/// follow. If nothing is known of these, it reserves for a part of its length. The vector keeps its
/// elements.
///
/// # Errors
///
/// `Refused` if the allocation fails; the vector is unchanged then.
#[cold]
#[inline(never)]
pub fn make_room<T, A: Allocator>(
    list: &mut Vec<T, A>,
    more: usize,
    expected: Option<usize>,
) -> Result<(), Refused>
    ensures items { list.new.items ≡ list.old.items }
    ensures kept { vec_capacity list.old ≤ vec_capacity list.new }
    ensures room { OnOk result (vec_len list.new + more ≤ vec_capacity list.new) }
    // To what is needed, or to the length and what the rule says, and to no other capacity.
    ensures most { vec_capacity list.new ≤ max (vec_capacity list.old)
        (vec_len list.old + max more (ahead (vec_len list.old) expected)) }
    ensures least { vec_capacity list.old < vec_capacity list.new →
        vec_len list.old + max more (ahead (vec_len list.old) expected) ≤ vec_capacity list.new }
    ensures full { OnErr result (vec_capacity list.old < vec_len list.old + more) }
{
    reserve(list, more, ahead(list.len(), expected))
}

/// Reserves capacity for some of the `expected` further elements, if they do not all fit.
///
/// The vector keeps its elements.
///
/// # Errors
///
/// `Refused` if the allocation fails; the vector is unchanged then.
#[cold]
#[inline(never)]
pub fn make_room_ahead<T, A: Allocator>(
    list: &mut Vec<T, A>,
    expected: usize,
) -> Result<(), Refused>
    ensures items { list.new.items ≡ list.old.items }
    ensures kept { vec_capacity list.old ≤ vec_capacity list.new }
    ensures most { vec_capacity list.new ≤ max (vec_capacity list.old)
        (vec_len list.old + ahead (vec_len list.old) (Some expected)) }
    ensures least { vec_capacity list.old < vec_capacity list.new →
        vec_len list.old + ahead (vec_len list.old) (Some expected) ≤ vec_capacity list.new }
{
    let further = ahead(list.len(), Some(expected));
    reserve(list, further, further)
}

/// Reserves capacity for the next element of a vector that will have at most `end`: for those that
/// are left, up to three times its length or 16.
///
/// # Errors
///
/// `Refused` if the allocation fails; the vector is unchanged then.
pub fn make_room_to_end<T, A: Allocator>(list: &mut Vec<T, A>, end: usize) -> Result<(), Refused>
    ensures items { list.new.items ≡ list.old.items }
    ensures kept { vec_capacity list.old ≤ vec_capacity list.new }
    ensures room { OnOk result (vec_len list.new + 1 ≤ vec_capacity list.new) }
    ensures most { vec_capacity list.new ≤ max (vec_capacity list.old)
        (vec_len list.old + max 1 (ahead_of_end (vec_len list.old) (end - vec_len list.old))) }
    ensures least { vec_capacity list.old < vec_capacity list.new → vec_len list.old
        + max 1 (ahead_of_end (vec_len list.old) (end - vec_len list.old))
        ≤ vec_capacity list.new }
{
    let len = list.len();
    let further = end.saturating_sub(len).min(most_ahead(len));
    reserve(list, 1, further)
}
