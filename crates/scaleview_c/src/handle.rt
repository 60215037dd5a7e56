//! Handles: pointers that C keeps.

ghost use Rattle.std.specs.Prelude.{◌≡◌, Option, Some, None, MatchOption};
ghost use Rattle.std.specs.Coded.{codes};
ghost use Rattle.grammar_core.specs.Preorder.{tree_code};
ghost use Rattle.scaleview_c.specs.declared.resource.Resource.{Resource as AHeld};

use crate::box_parts::{BoxParts, put_together, take_apart};
use crate::resource::Resource;
use std::alloc::Global;
use std::marker::Model;
use std::ptr;

/// A box behind one pointer whose type C does not see, or null.
#[repr(C)]
#[derive(Drop)]
pub struct Handle {
    at: *mut u8,
    pub ghost value: { Option AHeld } by { Prim.hlevel (codes, tree_code) },
}

impl Model for Handle {
    ghost use Rattle.scaleview_c.specs.contracts.resource.Resource.{the_row};
    ghost use Rattle.scaleview_c.specs.Owned.{owned};

    ghost also_owns = { λ h. owned the_row h.at h.value };
}

impl Handle {
    /// Returns a handle of the pointer, without its type.
    pub fn of(parts: BoxParts<Resource, Global>) -> Handle
        ensures { result.value ≡ Some parts.held }
    {
        let BoxParts { at, alloc: _ } = parts;
        Handle { at: at as *mut u8 }
    }

    /// Returns the pointer with its type, or `None` if it is null.
    pub fn into_parts(self, alloc: Global) -> Option<BoxParts<Resource, Global>>
        ensures { MatchOption result (self.value ≡ None) (λ parts. self.value ≡ Some parts.held) }
    {
        let Handle { at } = self;
        if at.is_null() {
            None
        } else {
            Some(BoxParts {
                at: at as *mut Resource,
                alloc,
            })
        }
    }

    /// Returns the null handle.
    pub fn none() -> Handle
        ensures { result.value ≡ None }
    {
        Handle {
            at: ptr::null_mut(),
        }
    }
}

/// Returns the box behind a handle, or `None` if it is null.
pub(crate) fn held_by(alloc: Global, handle: Handle) -> Option<Box<Resource>>
    ensures { MatchOption result (handle.value ≡ None) (λ held. handle.value ≡ Some held.value) }
{
    let parts = handle.into_parts(alloc)?;
    Some(put_together(parts))
}

/// Returns a handle of a box.
pub(crate) fn handle_of(held: Box<Resource>) -> Handle
    ensures { result.value ≡ Some held.value }
{
    Handle::of(take_apart(held))
}
