//! For users: a streaming decoder, which turns bytes in any pieces, or all bytes of a reader, into
//! a value of a type, or into an error with its reason and place.
#![tactic(auto)]

mod decoder;
mod fault;
mod fault_path;
pub mod laws;
mod stream;

pub use decoder::{Decoder, Progress};
pub use fault::{DecodeFault, OpenFault};
pub use fault_path::FaultPath;
pub use machine_core::DecodeReason;
pub use stream::{StreamFault, decode_all};
pub use value_core::PathStep;
