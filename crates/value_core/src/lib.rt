//! For users: values of the types of a registry, built node by node, looked at, and written.
#![tactic(auto)]

mod adding_calls;
mod appending;
mod build_fault;
mod builder;
mod open_nodes;
mod opening;
mod raw_builder;
mod run_calls;
mod walk;

pub use build_fault::BuildFault;
pub use builder::Builder;
pub use grammar_core::{Form, Limits, Next, RunKind, StopReason, laws};
pub use node_core::{Children, Leaf, NODE_BYTES, NodeRef, Value, What, WriteFault, encode, send};
pub use open_nodes::PathStep;
pub use raw_builder::RawBuilder;
pub use walk::Walk;
