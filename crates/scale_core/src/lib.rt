//! For users: the elements of the SCALE codec: fixed-width and compact integers, booleans,
//! characters and texts.
//!
//! Each value has one encoding, and no other is accepted. [`Source`] and [`Sink`] wrap a reader and
//! a writer, and report whether a call on them failed.
#![tactic(auto)]

mod boolean;
mod character;
mod compact;
mod device;
mod fault;
mod integer;
pub mod laws;
mod sending;
mod sink;
mod source;
mod text;

pub use boolean::{read_bool, write_bool};
pub use character::{read_char, write_char};
pub use compact::{Target, compact_len, put_compact, read_compact, write_compact};
pub use device::{ReadOnce, WriteOnce};
pub use fault::{Fault, Reason};
pub use integer::{
    read_i8, read_i16, read_i32, read_i64, read_i128, read_u8, read_u16, read_u32, read_u64,
    read_u128, read_wide, write_i8, write_i16, write_i32, write_i64, write_i128, write_u8,
    write_u16, write_u32, write_u64, write_u128, write_wide,
};
pub use sending::{WriteFault, send};
pub use sink::{Sink, SinkFault};
pub use source::{Source, SourceFault};
pub use text::{read_text, write_text};
