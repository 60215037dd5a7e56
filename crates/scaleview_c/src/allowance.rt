//! The memory that C allows a call or a session, and the budget of exactly that.

ghost use Rattle.std.specs.Prelude.{◌≡◌, IfOk};
ghost use Rattle.json_core.specs.Json.{json_text};
ghost use Rattle.scaleview_c.specs.Calls.{WritesUnlessMemory, call_bytes};

use budget_core::Budget;
use c_answers::Answer;
use growth_core::{Refused, clone_of};
use json_core::json_to_slice;
use std::alloc::Global;
use value_core::Value;

/// How many bytes the library may hold at once for a value and its text, where 0 stands for no
/// budget.
// It is the argument `memory`. The field is private and nothing here makes one, so only C does.
#[repr(C)]
#[derive(Clone, Copy)]
pub struct Allowance {
    bytes: u64,
}

/// The budget that a call or a session allocates in. Only [`Allowance::budget`] makes one.
// A function that is passed this and no `Global` can allocate in no other budget.
#[derive(Drop)]
pub struct CallBudget {
    /// Its clones allocate in the budget.
    pub(crate) alloc: Budget<Global>,
    /// For the orders of keys, which don't count.
    heap: Global,
}

impl Allowance {
    /// Creates the budget of exactly this many bytes.
    ///
    /// # Errors
    ///
    /// `Refused` if the allocation of its count fails.
    pub fn budget(self, alloc: Global) -> Result<CallBudget, Refused>
        ensures { IfOk result (λ budget. call_bytes budget ≡ self.bytes) }
    {
        Ok(CallBudget {
            alloc: Budget::new(alloc, self.bytes)?,
            heap: alloc,
        })
    }
}

impl CallBudget {
    /// Writes the JSON of a value to the front of `out`, if it fits, by way of a text in the
    /// budget. If an allocation fails, it reports that, and `out` is unchanged.
    pub(crate) fn put_json(&self, value: &Value<'_, Budget<Global>>, out: &mut [u8]) -> Answer
        ensures { WritesUnlessMemory (json_text value.now) out.old out.new result }
    {
        let room = out.len();
        let text_alloc = match clone_of(&self.alloc) {
            Ok(alloc) => alloc,
            Err(refused) => return Answer::of_refused(refused),
        };
        match json_to_slice(self.heap, text_alloc, value, out) {
            Ok(len) => Answer::of_text(len, room),
            Err(refused) => Answer::of_refused(refused),
        }
    }
}
