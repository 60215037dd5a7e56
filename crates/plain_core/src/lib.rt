//! For crates: whether a text stands in JSON as it is.
#![tactic(auto)]

mod plain;

pub use plain::{Escapes, is_plain, is_plain_16};
