//! For users: the command `scaleview` without files and process, its engine over readers and
//! writers, and its command line.
#![tactic(auto)]

mod engine;
mod form;
mod gathering;
mod lines;
mod named;
mod opaque;
mod parts;
mod refusal;
mod registry;
mod text;
mod value;

pub use command_line::{
    DecodeJob, Device, Job, JobFault, ValueSource, Wanted, explain, job, unopened,
};
pub use engine::run;
pub use hex_text::laws;
