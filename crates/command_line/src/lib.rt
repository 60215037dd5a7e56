//! For crates: the command line of `scaleview`, the job that its words name, and what is reported
//! if no job begins.
#![tactic(auto)]

mod commands;
mod device;
mod early_exit;
mod jobs;
mod matches;
mod names;
mod task;

pub use device::Device;
pub use early_exit::{explain, unopened};
pub use jobs::{JobFault, job};
pub use names::is_name;
pub use task::{DecodeJob, Job, ValueSource, Wanted};
