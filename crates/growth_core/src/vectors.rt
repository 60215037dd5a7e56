//! Calls of `Vec` that may allocate, with the growth rule and the evidence of a failure.

ghost use Rattle.std.specs.Prelude.{◌≡◌, ◌<◌, ◌≤◌, ◌+◌, ◌++◌, ◌∷◌, [], is_ok, if◌then◌else◌};
ghost use Rattle.std.specs.Prelude.{OnErr, OnOk, IfOk, IsOk, max, None, insert, length, replicate};
ghost use Rattle.std.specs.Prelude.{vec_len, vec_capacity};
ghost use Rattle.growth_core.specs.Growth.{ahead};

use crate::growth::make_room;
use crate::refused::{Refused, reported};
use std::alloc::Allocator;

/// Creates an empty vector with capacity for this many elements, and no more.
///
/// # Errors
///
/// `Refused` if the allocation fails.
pub fn with_capacity<T, A: Allocator>(alloc: A, capacity: usize) -> Result<Vec<T, A>, Refused>
    ensures items { IfOk result (λ list. list.items ≡ []) }
    ensures len { IfOk result (λ list. vec_len list ≡ 0) }
    ensures capacity { IfOk result (λ list. vec_capacity list ≡ capacity) }
    ensures succeeds { capacity ≡ 0 → IsOk result }
{
    reported(Vec::with_capacity(alloc, capacity))
}

/// Creates a vector of copies of an element.
///
/// # Errors
///
/// `Refused` if the allocation fails.
pub fn filled<T: Copy, A: Allocator>(alloc: A, value: T, count: usize) -> Result<Vec<T, A>, Refused>
    ensures items { IfOk result (λ list. ((x : T) → T.is_clone value x → x ≡ value) →
        list.items ≡ replicate count value) }
    ensures len { IfOk result (λ list. vec_len list ≡ count) }
{
    reported(Vec::from_elem(alloc, value, count))
}

/// Appends an element.
///
/// # Errors
///
/// `Refused` if the allocation fails; the vector keeps its elements.
#[inline(always)]
pub fn push<T: Drop, A: Allocator>(list: &mut Vec<T, A>, value: T) -> Result<(), Refused>
    ensures items { list.new.items
        ≡ (if is_ok result then list.old.items ++ value ∷ [] else list.old.items) }
    ensures len { vec_len list.new
        ≡ (if is_ok result then vec_len list.old + 1 else vec_len list.old) }
    ensures kept { vec_capacity list.old ≤ vec_capacity list.new }
    ensures most { vec_capacity list.new ≤ max (vec_capacity list.old)
        (vec_len list.old + max 1 (ahead (vec_len list.old) None)) }
    ensures succeeds { vec_len list.old < vec_capacity list.old → IsOk result }
{
    if list.capacity() <= list.len() {
        make_room(list, 1, None)?;
    }
    list.push_reserved(value);
    Ok(())
}

/// Inserts an element at a position, and moves those from there on by one.
///
/// # Errors
///
/// `Refused` if the allocation fails; the vector keeps its elements.
pub fn insert<T: Drop, A: Allocator>(
    list: &mut Vec<T, A>,
    at: usize,
    value: T,
) -> Result<(), Refused>
    requires { at ≤ vec_len list.old }
    ensures ok { OnOk result (list.new.items ≡ insert list.old.items at value) }
    ensures err { OnErr result (list.new.items ≡ list.old.items) }
    ensures succeeds { vec_len list.old < vec_capacity list.old → IsOk result }
{
    if list.capacity() <= list.len() {
        make_room(list, 1, None)?;
    }
    reported(list.insert(at, value))
}

/// Appends copies of elements.
///
/// # Errors
///
/// `Refused` if the allocation fails; the vector keeps its elements.
// The standard library doesn't specify the capacity after `Vec::extend_from_slice`, so the rule is
// kept by what is reserved before it.
#[inline(always)]
pub fn extend_from_slice<T: Copy, A: Allocator>(
    list: &mut Vec<T, A>,
    values: &[T],
) -> Result<(), Refused>
    ensures items { list.new.items
        ≡ (if is_ok result then list.old.items ++ values.now else list.old.items) }
    ensures kept { vec_capacity list.old ≤ vec_capacity list.new }
    ensures succeeds { vec_len list.old + length values.now ≤ vec_capacity list.old →
        IsOk result }
{
    if list.capacity() - list.len() < values.len() {
        make_room(list, values.len(), None)?;
    }
    reported(list.extend_from_slice(values))
}

/// Moves the elements of another vector to the end.
///
/// # Errors
///
/// `Refused` if the allocation fails; both vectors keep their elements.
pub fn append<T, A: Allocator>(list: &mut Vec<T, A>, other: &mut Vec<T, A>) -> Result<(), Refused>
    ensures ok { OnOk result ((list.new.items ≡ list.old.items ++ other.old.items)
        × (other.new.items ≡ [])) }
    ensures err { OnErr result ((list.new.items ≡ list.old.items)
        × (other.new.items ≡ other.old.items)) }
{
    make_room(list, other.len(), None)?;
    reported(list.append(other))
}
