//! For crates: an allocator that bounds how many bytes are allocated at once.
#![tactic(auto)]

mod budget;

pub use budget::Budget;
