//! A vector whose capacity follows the growth rule.

ghost use Rattle.std.specs.Prelude.{◌≡◌, ◌≤◌, ◌<◌, ◌+◌, ◌++◌, ◌∷◌, [], ◌==◌, ◌↔◌, length, max};
ghost use Rattle.std.specs.Prelude.{true, false, OnOk, OnErr, IsOk, IsSome, Some, slice_get};
ghost use Rattle.std.specs.Prelude.{slice_set, option_to_list, vec_len, vec_capacity};
ghost use Rattle.growth_core.specs.Growth.{ahead};

use crate::growth::{make_room, make_room_ahead};
use crate::refused::Refused;
use crate::vectors::extend_from_slice;
use std::alloc::Allocator;

/// The greatest number of elements that one call of [`GrowVec::make_room`] may ask for.
pub const FEW_ELEMENTS: usize = 64;

/// A growable list whose capacity follows one rule. No call reserves capacity at will.
#[derive(Drop)]
pub struct GrowVec<T, A: Allocator> {
    list: Vec<T, A>,
}

impl<T, A: Allocator> GrowVec<T, A> {
    /// Creates an empty list. It allocates nothing.
    pub fn new(alloc: A) -> GrowVec<T, A>
        ensures items { result.list.items ≡ [] }
        ensures len { vec_len result.list ≡ 0 }
    {
        GrowVec {
            list: Vec::new(alloc),
        }
    }

    /// Returns the number of elements.
    #[inline(always)]
    pub fn len(&self) -> usize
        ensures { result ≡ vec_len self.now.list }
    {
        self.list.len()
    }

    /// Returns whether there are no elements.
    #[inline(always)]
    pub fn is_empty(&self) -> bool
        ensures { result ≡ (vec_len self.now.list == 0) }
    {
        self.list.is_empty()
    }

    /// Returns the elements.
    #[inline(always)]
    pub fn as_slice(&self) -> &[T]
        ensures value { result.now ≡ self.now.list.items }
        ensures len { length result.now ≡ vec_len self.now.list }
    {
        self.list.as_slice()
    }

    /// Returns whether `more` further elements fit without an allocation.
    #[inline(always)]
    pub fn has_room(&self, more: usize) -> bool
        ensures yes { result ≡ true → vec_len self.now.list + more ≤ vec_capacity self.now.list }
        ensures no { result ≡ false → vec_capacity self.now.list < vec_len self.now.list + more }
    {
        more <= self.list.capacity() - self.list.len()
    }

    /// Reserves capacity for `more` further elements, at most [`FEW_ELEMENTS`].
    ///
    /// If the list has to grow for them, it also reserves for some of those that are expected to
    /// follow ([`make_room`]).
    ///
    /// # Errors
    ///
    /// `Refused` if the allocation fails; the list is unchanged then.
    #[inline(always)]
    pub fn make_room(&mut self, more: usize, expected: Option<usize>) -> Result<(), Refused>
        requires few { more ≤ FEW_ELEMENTS }
        ensures items { self.new.list.items ≡ self.old.list.items }
        ensures room { OnOk result
            (vec_len self.new.list + more ≤ vec_capacity self.new.list) }
        ensures most { vec_capacity self.new.list ≤ max (vec_capacity self.old.list)
            (vec_len self.old.list + max more (ahead (vec_len self.old.list) expected)) }
        ensures least { vec_capacity self.old.list < vec_capacity self.new.list →
            vec_len self.old.list + max more (ahead (vec_len self.old.list) expected)
            ≤ vec_capacity self.new.list }
    {
        if self.has_room(more) {
            return Ok(());
        }
        make_room(&mut self.list, more, expected)
    }

    /// Reserves capacity for some of the elements that are expected, if they do not all fit.
    ///
    /// # Errors
    ///
    /// `Refused` if the allocation fails; the list is unchanged then.
    pub fn make_room_ahead(&mut self, expected: usize) -> Result<(), Refused>
        ensures items { self.new.list.items ≡ self.old.list.items }
        ensures most { vec_capacity self.new.list ≤ max (vec_capacity self.old.list)
            (vec_len self.old.list + ahead (vec_len self.old.list) (Some expected)) }
        ensures least { vec_capacity self.old.list < vec_capacity self.new.list →
            vec_len self.old.list + ahead (vec_len self.old.list) (Some expected)
            ≤ vec_capacity self.new.list }
    {
        make_room_ahead(&mut self.list, expected)
    }

    /// Appends an element for which there is capacity.
    #[inline(always)]
    pub fn push_reserved(&mut self, value: T)
        requires { vec_len self.old.list < vec_capacity self.old.list }
        ensures items { self.new.list.items ≡ self.old.list.items ++ value ∷ [] }
        ensures len { vec_len self.new.list ≡ vec_len self.old.list + 1 }
        ensures capacity { vec_capacity self.new.list ≡ vec_capacity self.old.list }
    {
        self.list.push_reserved(value);
    }

    /// Removes the last element and returns it, or `None` if there is none.
    #[inline(always)]
    pub fn pop(&mut self) -> Option<T>
        ensures items { self.old.list.items ≡ self.new.list.items ++ option_to_list result }
        ensures variant { IsSome result ↔ (0 < vec_len self.old.list) }
        ensures len { vec_len self.new.list + length (option_to_list result)
            ≡ vec_len self.old.list }
        ensures capacity { vec_capacity self.new.list ≡ vec_capacity self.old.list }
    {
        self.list.pop()
    }
}

impl<T: Copy, A: Allocator> GrowVec<T, A> {
    /// Returns the element at a position.
    #[inline(always)]
    pub fn get(&self, at: usize) -> T
        requires { at < length self.now.list.items }
        ensures { slice_get self.now.list.items at ≡ Some result }
    {
        self.list[at]
    }

    /// Replaces the element at a position.
    #[inline(always)]
    pub fn replace(&mut self, at: usize, value: T)
        requires { at < length self.old.list.items }
        ensures items { self.new.list.items ≡ slice_set self.old.list.items at value }
        ensures capacity { vec_capacity self.new.list ≡ vec_capacity self.old.list }
    {
        self.list[at] = value;
    }

    /// Appends elements. If the list has to grow for them, it also reserves for some of those that
    /// are expected to follow.
    ///
    /// # Errors
    ///
    /// `Refused` if the allocation fails; the list keeps its elements.
    #[inline(always)]
    pub fn extend_from_slice(
        &mut self,
        values: &[T],
        expected: Option<usize>,
    ) -> Result<(), Refused>
        ensures ok { OnOk result (self.new.list.items ≡ self.old.list.items ++ values.now) }
        ensures err { OnErr result (self.new.list.items ≡ self.old.list.items) }
        ensures capacity { vec_capacity self.old.list ≤ vec_capacity self.new.list }
        ensures succeeds { vec_len self.old.list + length values.now ≤ vec_capacity self.old.list →
            IsOk result }
    {
        if !self.has_room(values.len()) {
            make_room(&mut self.list, values.len(), expected)?;
        }
        extend_from_slice(&mut self.list, values)
    }
}
