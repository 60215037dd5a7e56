//! For crates: bytes as a text of hexadecimal digits.
#![tactic(auto)]

mod fault;
pub mod laws;
mod reading;

pub use fault::{HexFault, HexRefusal};
pub use reading::hex_bytes;
