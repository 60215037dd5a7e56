//! Clones that may allocate, with the evidence of a failure.

ghost use Rattle.std.specs.Prelude.{IfOk};

use crate::refused::{Refused, reported};

/// Clones a value.
///
/// # Errors
///
/// `Refused` if an allocation fails.
pub fn clone_of<T: Clone>(value: &T) -> Result<T, Refused>
    ensures { IfOk result (λ copy. T.is_clone value.now copy) }
{
    reported(value.clone())
}
