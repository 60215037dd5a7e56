//! How the values of fields are shown, found from their names.

ghost use Rattle.std.specs.Prelude.{◌≡◌, ◌<◌, ◌^◌, ◌≤◌, ◌↔◌, [], Some, length, option_map};
ghost use Rattle.std.specs.Prelude.{IfOk, IsTrue};
ghost use Rattle.std.specs.List.{range_with_len};
ghost use Rattle.types_core.specs.Keys.{AreKeys, key_order, order_from, positions_of};

use crate::definition::Field;
use growth_core::{Refused, extend_from_slice, push, reported, with_capacity};
use std::alloc::Global;
use std::collections::BTreeMap;

/// How the values of fields are shown.
#[derive(Debug, Drop)]
pub enum Keys {
    /// As an array, because there is no field, one has no name, or two have the same.
    Unnamed,
    /// As an object, whose names are in the order of their bytes.
    InOrder,
    /// As an object: the positions of the fields in the order of their names' bytes.
    Sorted(Vec<u32>),
}

/// Returns the positions of fields in the order of their names' bytes, if each has a name and all
/// names differ. It inserts the names into a map: a look-up for each field.
fn order_of(alloc: Global, fields: &[Field]) -> Result<Option<Vec<u32>>, Refused>
    requires { length fields.now < 2 ^ 32 }
    ensures { IfOk result (λ found. option_map (λ v. v.items) found
        ≡ option_map positions_of (order_from fields.now 0 [])) }
{
    let mut positions = BTreeMap::new(alloc);
    'fields: for (position, field) in fields.iter().enumerate() {
        let Some(name) = &field.name else {
            return Ok(None);
        };
        if reported(positions.insert(name.as_str(), position as u32))?.is_some() {
            return Ok(None);
        }
    }
    let mut order = with_capacity(alloc, fields.len())?;
    'names: for (_, position) in positions {
        push(&mut order, position)?;
    }
    Ok(Some(order))
}

/// Returns whether each entry is its own index.
fn counts_up(order: &[u32]) -> bool
    ensures { IsTrue result ↔ (order.now ≡ range_with_len 0 (length order.now)) }
{
    'places: for (place, position) in order.iter().enumerate() {
        if *position as usize != place {
            return false;
        }
    }
    true
}

/// Returns how the values of fields with this order are shown. It allocates only if the names are
/// out of order.
fn keys_in(alloc: Global, fields: &[Field], order: &[u32]) -> Result<Keys, Refused>
    requires { key_order fields.now ≡ Some order.now }
    ensures { IfOk result (λ keys. AreKeys fields.now keys) }
{
    if counts_up(order) {
        return Ok(Keys::InOrder);
    }
    let mut kept = with_capacity(alloc, order.len())?;
    extend_from_slice(&mut kept, order)?;
    Ok(Keys::Sorted(kept))
}

/// Returns how the values of the fields are shown.
pub(crate) fn keys_of(alloc: Global, fields: &[Field]) -> Result<Keys, Refused>
    requires { length fields.now < 2 ^ 32 }
    ensures { IfOk result (λ keys. AreKeys fields.now keys) }
{
    if fields.is_empty() {
        return Ok(Keys::Unnamed);
    }
    match order_of(alloc, fields)? {
        Some(order) => keys_in(alloc, fields, order.as_slice()),
        None => Ok(Keys::Unnamed),
    }
}
