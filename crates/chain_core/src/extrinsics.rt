//! The types that an extrinsic is made of.

ghost use Rattle.std.specs.Prelude.{◌≡◌, length};
ghost use Rattle.chain_core.specs.Extrinsics.{call_type, extrinsic_parameter, extrinsic_types};
ghost use Rattle.chain_core.specs.Extrinsics.{four, known, parameter, parameter_in, part_at};

use crate::parts::{child, reference_at};
use node_core::NodeRef;
use registry_core::{Param, TypeId, TypeInfo, Version};

/// The types that an extrinsic is made of, by position.
#[derive(Clone, Copy, Debug, PartialEq, Eq)]
pub struct ExtrinsicTypes {
    pub address: u32,
    pub call: u32,
    pub signature: u32,
    pub extra: u32,
}

/// Returns a type, if it is a position among this many.
fn known(count: usize, ty: TypeId) -> Option<u32>
    ensures { result ≡ known count ty.0 }
{
    if (ty.0 as usize) < count {
        Some(ty.0)
    } else {
        None
    }
}

/// Returns the type of the first parameter of this name, if it is a position among `count` types.
fn parameter_in(count: usize, params: &[Param], name: &str) -> Option<u32>
    ensures { result ≡ parameter_in count params.now name.now }
{
    'params: for param in params {
        if param.name.as_str() == name {
            return known(count, param.ty?);
        }
    }
    None
}

/// Returns the type of the first parameter of a type that has this name, if it is a position.
fn parameter(own: &[TypeInfo], id: u32, name: &str) -> Option<u32>
    ensures { result ≡ parameter own.now id name.now }
{
    parameter_in(own.len(), own.get(id as usize)?.params.as_slice(), name)
}

/// Returns what the reference at a position of the part at a position stands for.
pub(crate) fn part_at(rest: &NodeRef<'_, '_>, part: usize, position: usize) -> Option<u32>
    ensures { result ≡ part_at part position rest.now }
{
    reference_at(&child(rest, part)?, position)
}

/// Returns the type of a parameter of the type of extrinsics, which version 14 states.
fn extrinsic_parameter(own: &[TypeInfo], rest: &NodeRef<'_, '_>, name: &str) -> Option<u32>
    ensures { result ≡ extrinsic_parameter own.now rest.now name.now }
{
    parameter(own, part_at(rest, 1, 0)?, name)
}

/// Returns the type of calls, if it is known.
pub(crate) fn call_type(version: Version, own: &[TypeInfo], rest: &NodeRef<'_, '_>) -> Option<u32>
    ensures { result ≡ call_type version own.now rest.now }
{
    match version {
        Version::V14 => extrinsic_parameter(own, rest, "Call"),
        Version::V15 => part_at(rest, 4, 0),
    }
}

/// Returns the four types, if all are there.
fn four(
    address: Option<u32>,
    call: Option<u32>,
    signature: Option<u32>,
    extra: Option<u32>,
) -> Option<ExtrinsicTypes>
    ensures { result ≡ four address call signature extra }
{
    Some(ExtrinsicTypes {
        address: address?,
        call: call?,
        signature: signature?,
        extra: extra?,
    })
}

/// Returns the types that an extrinsic is made of, if all are known.
pub(crate) fn extrinsic_types(
    version: Version,
    own: &[TypeInfo],
    rest: &NodeRef<'_, '_>,
) -> Option<ExtrinsicTypes>
    ensures { result ≡ extrinsic_types version own.now rest.now }
{
    match version {
        Version::V14 => four(
            extrinsic_parameter(own, rest, "Address"),
            extrinsic_parameter(own, rest, "Call"),
            extrinsic_parameter(own, rest, "Signature"),
            extrinsic_parameter(own, rest, "Extra"),
        ),
        Version::V15 => four(
            part_at(rest, 1, 1),
            part_at(rest, 1, 2),
            part_at(rest, 1, 3),
            part_at(rest, 1, 4),
        ),
    }
}
