//! Handles that C lends for a call.

ghost use Rattle.std.specs.Prelude.{◌≡◌, Option, Some, None, MatchOption};
ghost use Rattle.std.specs.Coded.{codes};
ghost use Rattle.grammar_core.specs.Preorder.{tree_code};
ghost use Rattle.scaleview_c.specs.declared.resource.Resource.{Resource as AHeld};

use crate::resource::Resource;
use std::marker::Model;

/// A borrowed handle: what its box holds, or null. C frees the box only once nothing borrows it.
#[repr(C)]
#[derive(Drop)]
pub struct Lent {
    at: *mut u8,
    pub ghost value: { Option AHeld } by { Prim.hlevel (codes, tree_code) },
}

impl Model for Lent {
    ghost use Rattle.scaleview_c.specs.contracts.resource.Resource.{the_row};
    ghost use Rattle.scaleview_c.specs.Owned.{lent};

    ghost also_owns = { λ l. lent the_row l.at l.value };
}

impl Lent {
    /// Returns what the box holds, or `None` if the pointer is null.
    pub fn get(self) -> Option<&'static Resource>
        ensures { MatchOption result (self.value ≡ None) (λ held. self.value ≡ Some held.now) }
    {
        let Lent { at } = self;
        if at.is_null() {
            return None;
        }
        unsafe { Some(&*(at as *mut Resource)) }
    }
}
