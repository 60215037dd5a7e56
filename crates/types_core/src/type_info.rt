//! A type of a registry.

use crate::definition::TypeDef;
use crate::items::Items;
use crate::text::Text;
use crate::type_id::TypeId;

/// A parameter of a generic type (scale-info, `TypeParameter`).
#[derive(Debug, Drop)]
pub struct Param {
    pub name: Text,
    /// The type that is substituted for it, if there is one.
    pub ty: Option<TypeId>,
}

/// A type: its name, its parameters, its definition and its documentation (scale-info, `Type`).
#[derive(Debug, Drop)]
pub struct TypeInfo {
    /// The modules around it and its own name; empty for a type without a name, such as a tuple.
    pub path: Items<Text>,
    pub params: Items<Param>,
    pub shape: TypeDef,
    /// Its documentation, one text for each line.
    pub docs: Items<Text>,
}
