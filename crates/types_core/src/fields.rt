//! A list of fields that contracts see as its elements.

ghost use Rattle.std.specs.Prelude.{◌≡◌, ◌<◌, ◌^◌, length, IfOk};
ghost use Rattle.types_core.specs.Keys.{AreKeys};

use crate::definition::Field;
use crate::keys::{Keys, keys_of};
use growth_core::Refused;
use std::alloc::Global;
use std::marker::Model;

/// The fields of a composite type or of an arm: a `Vec` that contracts see as its elements, with
/// the order of their names.
///
/// The order is found once, when the registry is read. It takes 32 bytes, and 4 a field if the
/// names are out of order.
#[derive(Debug, Drop)]
pub struct Fields {
    fields: Vec<Field>,
    keys: Keys,
}

impl Model for Fields {
    ghost use Rattle.std.specs.Prelude.{List};
    ghost use Rattle.types_core.specs.declared.definition.Field.{Field};
    ghost use Rattle.types_core.specs.Keys.{AreKeys};

    ghost Value = { List Field };

    ghost view = { λ l. l.fields.items };

    ghost invariant = { λ l. AreKeys l.fields.items l.keys };
}

impl Fields {
    /// Creates a list from a `Vec`, and keeps its memory. It finds the order of the names, and
    /// keeps four bytes a field if they are out of order.
    ///
    /// # Errors
    ///
    /// `Refused` if an allocation fails.
    pub fn from_vec(alloc: Global, vec: Vec<Field>) -> Result<Fields, Refused>
        requires { length vec.items < 2 ^ 32 }
        ensures { IfOk result (λ fields. fields ≡ vec.items) }
    {
        let keys = keys_of(alloc, vec.as_slice())?;
        Ok(Fields { fields: vec, keys })
    }

    /// Returns the fields, in order.
    pub fn as_slice(&self) -> &[Field]
        ensures { result.now ≡ self.now }
    {
        self.fields.as_slice()
    }

    /// Returns the number of fields.
    pub fn len(&self) -> usize
        ensures { result ≡ length self.now }
    {
        self.fields.len()
    }

    /// Returns how the values of the fields are shown.
    #[inline(always)]
    pub fn keys(&self) -> &Keys
        ensures { AreKeys self.now result.now }
    {
        &self.keys
    }
}
