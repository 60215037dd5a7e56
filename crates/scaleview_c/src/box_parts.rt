//! A box taken apart into its pointer and its allocator, and put together again.

ghost use Rattle.std.specs.Prelude.{◌≡◌};
ghost use Rattle.std_alloc.specs.Box.Ownership.{box_owns};

use std::alloc::Allocator;
use std::marker::Model;

/// The parts of a box. Their owner owns what the box holds, and may free its block.
pub struct BoxParts<T, A: Allocator> {
    pub(crate) at: *mut T,
    pub(crate) alloc: A,
    pub ghost held: { T },
}

impl<T, A: Allocator> Model for BoxParts<T, A> {
    ghost also_owns = { λ parts. box_owns (A.dealloc_token parts.alloc) T.row parts.at parts.held };
}

/// Takes a box apart.
pub(crate) fn take_apart<T: Drop, A: Allocator>(whole: Box<T, A>) -> BoxParts<T, A>
    ensures { result.held ≡ whole.value }
{
    let (at, alloc) = Box::into_raw_with_allocator(whole);
    BoxParts { at, alloc }
}

/// Puts a box together from its parts.
pub(crate) fn put_together<T: Drop, A: Allocator>(parts: BoxParts<T, A>) -> Box<T, A>
    ensures { result.value ≡ parts.held }
{
    let BoxParts { at, alloc } = parts;
    unsafe { Box::from_raw(alloc, at) }
}
