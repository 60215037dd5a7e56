//! The types of a registry, in order.
//!
//! A function that reads a part returns it with the bytes after it.

ghost use Rattle.registry_core.specs.Gives.{Gives};
ghost use Rattle.registry_core.specs.Reading.{param_at, params_at, type_info_at, id_at, types_at};

use super::atoms::{length_of, optional_type_id_of, text_of, texts_of};
use super::definitions::definition_of;
use super::lists::append;
use super::read_stop::ReadStop;
use crate::fault::RegistryReason;
use std::alloc::Global;
use types_core::{Items, Param, TypeInfo};

/// Reads a parameter.
///
/// # Errors
///
/// The first error in the parameter, or `Memory` if an allocation fails.
#[tactic(auto, unfolding(crate::specs::Reading::param_at))]
fn param_of(alloc: Global, bytes: &[u8]) -> Result<(Param, &[u8]), ReadStop<'_>>
    ensures { Gives (λ x. (x.0, x.1.now)) result (param_at bytes.now) }
{
    let (name, rest) = text_of(alloc, bytes)?;
    let (ty, rest) = optional_type_id_of(rest)?;
    Ok((Param { name, ty }, rest))
}

/// Reads parameters: their number, and each in turn.
///
/// # Errors
///
/// The first error in them, or `Memory` if an allocation fails.
#[tactic(auto, unfolding(crate::specs::Reading::params_at))]
fn params_of(alloc: Global, bytes: &[u8]) -> Result<(Items<Param>, &[u8]), ReadStop<'_>>
    ensures { Gives (λ x. (x.0, x.1.now)) result (params_at bytes.now) }
{
    let (count, mut rest) = length_of(bytes)?;
    let mut params = Vec::new(alloc);
    'params: for _ in 0..count {
        let (param, after) = param_of(alloc, rest)?;
        append(&mut params, count, param)?;
        rest = after;
    }
    Ok((Items::from_vec(params), rest))
}

/// Reads a type, after its id.
///
/// # Errors
///
/// The first error in the type, or `Memory` if an allocation fails.
#[tactic(auto, unfolding(crate::specs::Reading::type_info_at))]
fn type_info_of(alloc: Global, bytes: &[u8]) -> Result<(TypeInfo, &[u8]), ReadStop<'_>>
    ensures { Gives (λ x. (x.0, x.1.now)) result (type_info_at bytes.now) }
{
    let (path, rest) = texts_of(alloc, bytes)?;
    let (params, rest) = params_of(alloc, rest)?;
    let (shape, rest) = definition_of(alloc, rest)?;
    let (docs, rest) = texts_of(alloc, rest)?;
    let info = TypeInfo {
        path,
        params,
        shape,
        docs,
    };
    Ok((info, rest))
}

/// Reads the id of the type at this position, and returns the bytes after it.
///
/// # Errors
///
/// Those of [`length_of`], and `IdOutOfPlace` if the id is not the position.
fn after_id(position: u32, bytes: &[u8]) -> Result<&[u8], ReadStop<'_>>
    ensures { Gives (λ rest. (position, rest.now)) result (id_at position bytes.now) }
{
    let (id, rest) = length_of(bytes)?;
    if id != position {
        return Err(ReadStop::Fault(RegistryReason::IdOutOfPlace, bytes));
    }
    Ok(rest)
}

/// Reads `count` types, each after its id, which is its position.
///
/// # Errors
///
/// The first error in them, or `Memory` if an allocation fails.
pub(crate) fn types_of(
    alloc: Global,
    count: u32,
    bytes: &[u8],
) -> Result<(Vec<TypeInfo>, &[u8]), ReadStop<'_>>
    ensures { Gives (λ x. (x.0.items, x.1.now)) result (types_at count 0 bytes.now) }
{
    let mut types = Vec::new(alloc);
    let mut rest = bytes;
    'types: for position in 0..count {
        let behind = after_id(position, rest)?;
        let (info, after) = type_info_of(alloc, behind)?;
        append(&mut types, count, info)?;
        rest = after;
    }
    Ok((types, rest))
}
