//! For crates: counts and logs for contracts, which take no bytes at run time.
#![tactic(auto)]

mod counting;
mod log;

pub use counting::Count;
pub use log::Log;
