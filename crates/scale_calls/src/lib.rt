//! For crates: what callers do with complete bytes, as to open a registry, to show and describe its
//! types, and to turn a value into JSON. It knows no files, processes or pointers.
#![tactic(auto)]

mod annotations;
mod describing;
mod lines;
mod metadata;
mod names;
mod opaque;
mod refusal;
mod registry;
mod value;

pub use annotations::{Subject, docs_line, type_name, type_param};
pub use describing::{
    Part, PartRefusal, arm_field, find_type, type_arm, type_definition, type_part, type_path,
};
pub use lines::{push_type_lines, type_line, version_line};
pub use metadata::{MetadataRefusal, NamedMetadata, open_metadata};
pub use names::push_name_lines;
pub use opaque::opaque_start;
pub use refusal::{RegistryRefusal, UnknownReference, ValueRefusal};
pub use registry::{OpenOptions, OpenedRegistry, open_registry};
pub use value::{read_value, value_text};
