//! For users: the analysis of a registry, that its references are known, which types have values,
//! which take no bytes, what a compact integer stands for, and how many parts a value has at most.
#![tactic(auto)]

mod analysis;
mod checked;
mod class;
mod counter;
pub mod laws;
mod linking;
mod rows;
mod run_kind;
mod settling;
mod type_step;

pub use checked::Checked;
pub use class::Class;
pub use graph_core::CheckFault;
pub use run_kind::RunKind;
pub use type_step::{ArmStep, TypeStep};
