//! For crates: what a call of the library for C reports, as numbers, and the names of its codes.
#![tactic(auto)]

mod answer;
mod reasons;

pub use answer::{
    Answer, LENT, LIMIT_OUT_OF_RANGE, MORE, NO_BYTES, NO_HANDLE, NO_ROOM, OK, TAKEN, UNKNOWN_NAME,
    UNKNOWN_PART, UNKNOWN_TYPE,
};
pub use reasons::code_name;
