//! For crates: the types of a registry (scale-info's portable form), as they are kept.
//! registry_core offers them to users.
#![tactic(auto)]

mod bits;
mod definition;
mod fields;
mod items;
mod keys;
mod kind;
mod name;
mod primitive;
mod registry;
mod text;
mod type_id;
mod type_info;

pub use bits::{BitForm, BitOrder};
pub use definition::{Arm, Field, TypeDef};
pub use fields::Fields;
pub use items::Items;
pub use keys::Keys;
pub use kind::{IntegerWidth, PrimitiveKind, Signedness};
pub use name::Name;
pub use primitive::Primitive;
pub use registry::Registry;
pub use text::Text;
pub use type_id::TypeId;
pub use type_info::{Param, TypeInfo};
