//! Helpers that tests of decoders and of the command share: the calls that decode and show values,
//! and jobs and runs of the command over memory.
#![tactic(auto)]

pub mod calls;
pub mod jobs;
pub mod lines;
pub mod ran;
pub mod words;
