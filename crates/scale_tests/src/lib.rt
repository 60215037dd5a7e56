//! Helpers that the tests of several crates share: registries, rows with their answers, a builder's
//! calls as data, and devices and an allocator that fail.
#![tactic(auto)]

pub mod builders;
pub mod building;
pub mod paced;
pub mod rationed;
pub mod registries;
pub mod rows;
pub mod stuttering;
