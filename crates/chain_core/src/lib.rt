//! For crates: the names of a chain's metadata, and the types of extrinsics, keys and parameters.
#![tactic(auto)]

mod distinct;
mod extrinsics;
mod fault;
mod finding;
mod keys;
mod listing;
mod names;
mod needs;
mod own_references;
mod parts;
mod rest;
mod synthetic;
mod thing;
mod unknown;

pub use extrinsics::ExtrinsicTypes;
pub use fault::NamesFault;
pub use finding::after_front;
pub use keys::{HashLength, KeyPart};
pub use listing::list_things;
pub use names::{NamedType, Names};
pub use own_references::unknown_in_types;
pub use rest::{REFERENCE, rest_root, rest_types};
pub use synthetic::synthetic_types;
pub use thing::{Meaning, Path, Section, Thing};
pub use unknown::{UnknownInRest, unknown_in_rest};
