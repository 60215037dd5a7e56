//! For users: a value as JSON, as a tree of `serde_json`, as text, and as text in a sink or in
//! memory.
#![tactic(auto)]

mod bits;
mod defined;
mod fields;
mod hexadecimal;
mod integer_json;
mod integers;
pub mod laws;
mod nodes;
mod placed;
mod printing;
mod writing;

pub use nodes::to_json;
pub use placed::json_to_slice;
pub use printing::{PrintFault, json_text, print};
