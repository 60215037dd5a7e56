//! The definitions of types.

use crate::bits::BitForm;
use crate::fields::Fields;
use crate::items::Items;
use crate::name::Name;
use crate::primitive::Primitive;
use crate::text::Text;
use crate::type_id::TypeId;

/// A field of a composite type or of an arm (scale-info, `Field`).
#[derive(Debug, Drop)]
pub struct Field {
    /// Its name. A field of a tuple struct has none.
    pub name: Option<Name>,
    /// The type of its values.
    pub ty: TypeId,
    /// The type's name as written in the source, if it was kept.
    pub type_name: Option<Text>,
    /// Its documentation, one text for each line.
    pub docs: Items<Text>,
}

/// An arm of a variant type (scale-info, `Variant`).
#[derive(Debug, Drop)]
pub struct Arm {
    pub name: Name,
    pub fields: Fields,
    /// The first byte of every value of this arm. Two arms may have the same index.
    pub index: u8,
    /// Its documentation, one text for each line.
    pub docs: Items<Text>,
}

/// The definition of a type (scale-info, `TypeDef`).
#[derive(Debug, Drop)]
pub enum TypeDef {
    /// A value of each field, in order.
    Composite(Fields),
    /// A value of one of the arms.
    Variant(Items<Arm>),
    /// Any number of values of one type.
    Sequence(TypeId),
    /// This many values of one type.
    Array(u32, TypeId),
    /// A value of each type, in order.
    Tuple(Items<TypeId>),
    /// A value of a primitive type.
    Primitive(Primitive),
    /// An unsigned integer in its compact form.
    Compact(TypeId),
    /// Bits, stored in words of the type `store` in the order that `order` names.
    BitSequence {
        store: TypeId,
        order: TypeId,
        /// How the bits are read, if they are allowed and known. A registry that was read has none.
        form: Option<BitForm>,
    },
}
