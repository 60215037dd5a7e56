//! For crates: a writer of JSON text, token by token.
#![tactic(auto)]

mod digits;
mod output;
mod places;
mod strings;

pub use output::Output;
pub use plain_core::{Escapes, is_plain};
pub use strings::{place_hex_text, place_quoted};
