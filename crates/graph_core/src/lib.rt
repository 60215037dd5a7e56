//! For crates: the types of a registry as a graph, the references of each type, and the lists of
//! references to each type.
//!
//! A graph logs each look at its registry. A look is one access to a definition or to a reference.
#![tactic(auto)]

mod cursor;
mod definition;
mod examined;
mod fault;
mod graph;
mod link_stop;
mod looks;
mod references;
mod sizes;
mod too_many;

pub use definition::Definition;
pub use examined::Examined;
pub use fault::CheckFault;
pub use graph::{Graph, Link};
pub use link_stop::LinkStop;
pub use looks::Looks;
pub use references::{Reference, first_unknown};
pub use sizes::{Sizes, sizes_of};
pub use too_many::{TooMany, number};
