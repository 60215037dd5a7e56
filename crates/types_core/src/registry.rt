//! A registry of types.

ghost use Rattle.std.specs.Prelude.{◌≡◌};

use crate::bits::bit_form;
use crate::definition::TypeDef;
use crate::type_info::TypeInfo;
use std::marker::Model;

/// The types of a registry, each at the position that is its id (scale-info, `PortableRegistry`).
///
/// Every registry has an encoding: a list has at most 4294967295 elements, and a text at most
/// 4294967295 bytes, which are UTF-8.
#[derive(Debug, Drop)]
pub struct Registry {
    types: Vec<TypeInfo>,
}

impl Model for Registry {
    ghost use Rattle.std.specs.Prelude.{List};
    ghost use Rattle.types_core.specs.declared.type_info.TypeInfo.{TypeInfo};

    ghost Value = { List TypeInfo };

    ghost use Rattle.types_core.specs.Fits.{FitsRegistry};

    ghost view = { λ r. r.types.items };

    ghost invariant = { λ r. FitsRegistry r.types.items };
}

impl Registry {
    ghost use Rattle.types_core.specs.Bits.{with_bits};
    ghost use Rattle.types_core.specs.Fits.{FitsRegistry};

    /// Creates a registry of types that have an encoding.
    pub fn from_types(types: Vec<TypeInfo>) -> Registry
        requires { FitsRegistry types.items }
        ensures { result ≡ types.items }
    {
        Registry { types }
    }

    /// Allows bits: every bit sequence is read whose `store` is u8, u16, u32 or u64 itself and
    /// whose `order` is a composite without fields, with a path that ends with `Lsb0` or `Msb0`.
    /// Values of all others stay rejected.
    #[tactic(auto, using(crate::proofs::BitsAllowed::all_done))]
    pub fn with_bits(self) -> Registry
        ensures { result ≡ with_bits self }
    {
        let Registry { mut types } = self;
        'types: for at in 0..types.len() {
            let TypeDef::BitSequence { store, order, .. } = &types[at].shape else {
                continue 'types;
            };
            let (store, order) = (*store, *order);
            let form = bit_form(types.as_slice(), store, order);
            types[at].shape = TypeDef::BitSequence { store, order, form };
        }
        Registry { types }
    }

    /// Returns the types as a `Vec`: the one that the registry was created from, or an equal one.
    pub fn into_types(self) -> Vec<TypeInfo>
        ensures same { result.items ≡ self }
        ensures fits { FitsRegistry result.items }
    {
        let Registry { types } = self;
        types
    }

    /// Returns the types in order. The type at position i has the id i.
    pub fn types(&self) -> &[TypeInfo]
        ensures same { result.now ≡ self.now }
        ensures fits { FitsRegistry self.now }
    {
        self.types.as_slice()
    }
}
