//! The comparisons that tests use. They are functions, because the expansion of a macro is proved
//! again in every test.

use std::alloc::Global;
use std::fmt::{Debug, Display};
use std::process::Abort;

/// Stops the test if the two differ.
pub(crate) fn same<T: PartialEq + Debug + Drop>(rt: &impl Abort, found: T, wanted: T) {
    assert_eq!(rt; found, wanted);
}

/// Stops the test if the fault is not printed as this line.
pub(crate) fn printed_as(rt: &impl Abort, alloc: Global, fault: impl Display + Drop, line: &str) {
    let printed = format!(in alloc; "{fault}").expect(rt, "memory");
    same(rt, printed.as_str(), line);
}
