//! For crates: a value in progress, which takes bytes turn by turn, and nodes that lie complete in
//! a piece at once.
#![tactic(auto)]

mod fast_tier;
mod feeding;
mod general_turn;
mod node;
mod partial;
mod reason;
mod turned;

pub use partial::Partial;
pub use reason::DecodeReason;
pub use turned::Stopped;
