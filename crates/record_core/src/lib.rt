//! For crates: values as records, numbers in the order of the nodes beside a pool of bytes.
#![tactic(auto)]

pub mod laws;
mod record;
mod replaying;
mod writing;

pub use record::{
    ARM, BITS, BOOL, BYTES, CHAR, COMPACT, COUNT, EMPTY, FIELDS, LIST, Record, SIGNED, TEXT,
    UNSIGNED, WIDE,
};
pub use replaying::{RecordFault, value_of_records};
pub use writing::{Room, write_records};
