//! For crates: the limits on a value of untrusted bytes. value_core offers them to users.
#![tactic(auto)]

mod limits;

pub use limits::{Limits, MAX_DEPTH};
