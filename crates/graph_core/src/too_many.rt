//! The evidence that something has no number of 32 bits.

ghost use Rattle.std.specs.Prelude.{◌≡◌, ◌≤◌, ◌^◌, IfOk, OnErr};

/// There are more references, counters, arms or parts than numbers of 32 bits.
///
/// Only [`number`] and the sizes of a registry make one, where a number didn't fit.
#[derive(Clone, Copy, Debug, PartialEq, Eq)]
pub struct TooMany {
    only_here: (),
}

impl TooMany {
    /// Returns the evidence. The caller has just met a number that didn't fit.
    pub(crate) fn new() -> TooMany {
        TooMany { only_here: () }
    }
}

/// Returns the number in four bytes.
///
/// # Errors
///
/// `TooMany` if it is above 4294967295.
pub fn number(value: usize) -> Result<u32, TooMany>
    ensures same { IfOk result (λ n. n ≡ value) }
    ensures large { OnErr result (2 ^ 32 ≤ value) }
{
    match u32::try_from(value) {
        Ok(number) => Ok(number),
        Err(_) => Err(TooMany::new()),
    }
}
