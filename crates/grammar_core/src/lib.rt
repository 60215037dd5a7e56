//! For crates: the grammar of values, its laws, and what a value of a type begins with.
#![tactic(auto)]

mod form;
pub mod laws;

pub use form::{Form, Next, StopReason, next_of_step};
pub use limits_core::{Limits, MAX_DEPTH};
pub use widths_core::RunKind;
