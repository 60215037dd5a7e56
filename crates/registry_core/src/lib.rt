//! For users: type registries of scale-info in their portable form.
//!
//! A registry is read from bytes, with the first error and its place, and written in its one
//! encoding.
#![tactic(auto)]

mod fault;
pub mod laws;
mod reading;
mod version;
mod writing;

pub use fault::{RegistryFault, RegistryReason};
pub use reading::{read_metadata, read_registry};
pub use types_core::{
    Arm, BitForm, BitOrder, Field, Fields, IntegerWidth, Items, Keys, Name, Param, Primitive,
    PrimitiveKind, Registry, Signedness, Text, TypeDef, TypeId, TypeInfo,
};
pub use version::Version;
pub use writing::write_registry;
