//! Why the answer to a row is wrong.

use crate::way::Way;
use growth_core::Refused;
use std::alloc::{AllocError, Global};
use std::fmt;
use std::fmt::{Debug, Display};

/// Why the answer to a row is wrong.
#[derive(Debug, Drop)]
pub(crate) enum Wrong {
    /// An allocation failed.
    Memory,
    /// A column that cannot be read, with what it should hold.
    Column(&'static str),
    /// A call that fails and should not.
    Call(&'static str),
    /// An answer that differs from the row's, in words.
    Answer(String),
}

impl From<AllocError> for Wrong {
    fn from(_error: AllocError) -> Wrong {
        Wrong::Memory
    }
}

impl From<Refused> for Wrong {
    fn from(_refused: Refused) -> Wrong {
        Wrong::Memory
    }
}

impl Display for Wrong {
    fn fmt<W: fmt::Write>(&self, f: &mut fmt::Formatter<W>) -> fmt::Result {
        match self {
            Wrong::Memory => write!(f, "out of memory"),
            Wrong::Column(wanted) => write!(f, "a column is not {wanted}"),
            Wrong::Call(call) => write!(f, "{call} is refused"),
            Wrong::Answer(text) => write!(f, "{text}"),
        }
    }
}

/// Returns the error of an answer that differs.
pub(crate) fn differing(
    alloc: Global,
    way: Way,
    wanted: &str,
    found: &str,
) -> Result<Wrong, AllocError> {
    let text = format!(in alloc; "{way:?}: {found}, not {wanted}")?;
    Ok(Wrong::Answer(text))
}

/// Compares two texts.
pub(crate) fn check_text(alloc: Global, way: Way, wanted: &str, found: &str) -> Result<(), Wrong> {
    if wanted == found {
        Ok(())
    } else {
        Err(differing(alloc, way, wanted, found)?)
    }
}

/// Compares two answers, and formats them if they differ.
pub(crate) fn check_same<T: Debug + PartialEq + Drop>(
    alloc: Global,
    way: Way,
    wanted: T,
    found: T,
) -> Result<(), Wrong> {
    if wanted == found {
        return Ok(());
    }
    let wanted = format!(in alloc; "{wanted:?}")?;
    let found = format!(in alloc; "{found:?}")?;
    Err(differing(alloc, way, &wanted, &found)?)
}

/// Compares two runs of bytes.
pub(crate) fn check_bytes(
    alloc: Global,
    way: Way,
    wanted: &[u8],
    found: &[u8],
) -> Result<(), Wrong> {
    if wanted == found {
        return Ok(());
    }
    let wanted = hex::encode(alloc, wanted)?;
    let found = hex::encode(alloc, found)?;
    Err(differing(alloc, way, &wanted, &found)?)
}
