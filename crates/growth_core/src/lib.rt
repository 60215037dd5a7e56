//! For crates: vectors whose capacity is bounded by what they hold and grows in proportion to it.
#![tactic(auto)]

mod clones;
mod grow_vec;
mod growth;
mod refused;
mod strings;
mod vectors;

pub use clones::clone_of;
pub use grow_vec::GrowVec;
pub use growth::{FIRST, make_room, make_room_ahead, make_room_to_end};
pub use refused::{Refused, reported};
pub use strings::{push_char, push_str, shared_from, string_from};
pub use vectors::{append, extend_from_slice, filled, insert, push, with_capacity};
