//! The evidence that an allocation failed.

ghost use Rattle.std.specs.Prelude.{◌≡◌, Ok, IfOk, IsOk};

use std::alloc::AllocError;

/// An allocator refused a request.
///
/// Only a failed allocation makes one: in this crate, or where a library reports it ([`reported`],
/// [`Refused::of_library`]). An error that carries it has no other cause.
#[derive(Clone, Copy, Debug, PartialEq, Eq)]
pub struct Refused {
    only_here: (),
}

impl Refused {
    /// Returns the evidence. The caller has just seen an allocator refuse a request.
    pub(crate) fn new() -> Refused {
        Refused { only_here: () }
    }

    /// Returns the evidence of a failed allocation that a library has just reported by an error of
    /// its own. No other caller makes one.
    pub fn of_library() -> Refused {
        Refused::new()
    }
}

impl From<Refused> for AllocError {
    fn from(_refused: Refused) -> AllocError {
        AllocError
    }
}

/// Returns the outcome of a call of a library, whose error reports a failed allocation.
///
/// The outcome is passed on as the library returned it; no other caller makes one.
///
/// # Errors
///
/// `Refused` if the library reported a failed allocation.
pub fn reported<T, E: Into<AllocError>>(outcome: Result<T, E>) -> Result<T, Refused>
    ensures ok { IfOk result (λ value. outcome ≡ Ok value) }
    ensures succeeds { IsOk outcome → IsOk result }
{
    match outcome {
        Ok(value) => Ok(value),
        Err(error) => {
            let _error: AllocError = error.into();
            Err(Refused::new())
        }
    }
}
