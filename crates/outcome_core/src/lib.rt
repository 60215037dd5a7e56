//! For crates: what a decoder answers for all the bytes that it was fed, as definitions and laws.
//! decode_core offers the laws to users.
#![tactic(auto)]

pub mod laws;
