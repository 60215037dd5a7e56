//! The calls that describe a registry's types.

ghost use Rattle.std.specs.Prelude.{◌≡◌};
ghost use Rattle.types_core.specs.Bytes.{primitive_byte};
ghost use Rattle.types_core.specs.Fits.{FitsDefinition};
ghost use Rattle.scale_calls.specs.Describing.{result_map, part_shown};
ghost use Rattle.scaleview_c.specs.Types.{ReportsFirst, ReportsShape, WritesArm, WritesArmField};
ghost use Rattle.scaleview_c.specs.Types.{WritesName, WritesPart, WritesPath, WritesTypePart};
ghost use Rattle.scaleview_c.specs.Types.{class_number, kind_number, part_code, plain_shape};
ghost use Rattle.scaleview_c.specs.Types.{shape_numbers};

use crate::lent::Lent;
use crate::resource::Resource;
use crate::text::put;
use c_answers::{Answer, NO_HANDLE, OK, UNKNOWN_PART, UNKNOWN_TYPE};
use registry_core::{Primitive, TypeDef};
use scale_calls::{
    Part, PartRefusal, arm_field, find_type, type_arm, type_definition, type_part, type_path,
};
use std::alloc::Global;
use widths_core::Class;

/// What a type is, as numbers, which are 0 unless the kind gives them a meaning.
#[repr(C)]
#[derive(Clone, Copy, Debug, PartialEq, Eq)]
pub struct TypeShape {
    /// The kind of the definition: 0 composite, 1 variant, 2 sequence, 3 array, 4 tuple,
    /// 5 primitive, 6 compact, 7 bit sequence (scale-info, `TypeDef`).
    pub kind: u32,
    /// The class: 0 without a value, 1 empty, 2 sized.
    pub class: u32,
    /// The byte of a primitive (scale-info, `TypeDefPrimitive`).
    pub primitive: u32,
    /// The position of the type of the elements, of a compact's target, or of a bit sequence's
    /// store.
    pub element: u32,
    /// The position of the type that names the order of a bit sequence.
    pub order: u32,
    /// The number of elements of an array.
    pub length: u32,
    /// The number of fields, members or arms.
    pub parts: u32,
}

/// Returns the number of a class.
fn class_number(class: Class) -> u32
    ensures { result ≡ class_number class }
{
    match class {
        Class::NoValue => 0,
        Class::Empty => 1,
        Class::Sized => 2,
    }
}

/// Returns the number of a definition's kind.
fn kind_number(definition: &TypeDef) -> u32
    ensures { result ≡ kind_number definition.now }
{
    match definition {
        TypeDef::Composite(_) => 0,
        TypeDef::Variant(_) => 1,
        TypeDef::Sequence(_) => 2,
        TypeDef::Array(_, _) => 3,
        TypeDef::Tuple(_) => 4,
        TypeDef::Primitive(_) => 5,
        TypeDef::Compact(_) => 6,
        TypeDef::BitSequence { .. } => 7,
    }
}

/// Returns the number of a primitive.
fn primitive_number(primitive: Primitive) -> u32
    ensures { result ≡ primitive_byte primitive }
{
    primitive as u32
}

/// Returns the code that says why there is no part.
pub(crate) fn part_code(refusal: PartRefusal) -> u32
    ensures { result ≡ part_code refusal }
{
    match refusal {
        PartRefusal::UnknownType => UNKNOWN_TYPE,
        PartRefusal::UnknownPart => UNKNOWN_PART,
    }
}

impl TypeShape {
    /// Returns the numbers of a kind and a class alone.
    fn plain(kind: u32, class: Class) -> TypeShape
        ensures { result ≡ plain_shape kind class }
    {
        TypeShape {
            kind,
            class: class_number(class),
            primitive: 0,
            element: 0,
            order: 0,
            length: 0,
            parts: 0,
        }
    }

    /// Returns the numbers of a type of this class and definition.
    fn of(class: Class, definition: &TypeDef) -> TypeShape
        requires { FitsDefinition definition.now }
        ensures { result ≡ shape_numbers class definition.now }
    {
        let mut shape = TypeShape::plain(kind_number(definition), class);
        match definition {
            TypeDef::Composite(fields) => shape.parts = fields.len() as u32,
            TypeDef::Variant(arms) => shape.parts = arms.len() as u32,
            TypeDef::Sequence(element) => shape.element = element.0,
            TypeDef::Array(length, element) => {
                shape.length = *length;
                shape.element = element.0;
            }
            TypeDef::Tuple(members) => shape.parts = members.len() as u32,
            TypeDef::Primitive(primitive) => shape.primitive = primitive_number(*primitive),
            TypeDef::Compact(target) => shape.element = target.0,
            TypeDef::BitSequence { store, order, .. } => {
                shape.element = store.0;
                shape.order = order.0;
            }
        }
        shape
    }
}

/// Writes a name, and returns the answer with two numbers beside its length.
pub(crate) fn put_name(out: &mut [u8], name: &[u8], from: u32, at: u64) -> Answer
    ensures { WritesName name.now from at out.old out.new result }
{
    Answer {
        from,
        at,
        ..put(out, name)
    }
}

/// Writes the name of a part, or returns the answer that says why there is no part.
fn put_part(out: &mut [u8], part: Result<Part<'_>, PartRefusal>) -> Answer
    ensures { WritesPart (result_map part_shown part.entry) out.old out.new result }
{
    match part {
        Ok(part) => match part.name {
            Some(name) => put_name(out, name.as_bytes(), part.ty, 1),
            None => put_name(out, &[], part.ty, 0),
        },
        Err(refusal) => Answer::plain(part_code(refusal)),
    }
}

/// Reports what the type at a position is.
///
/// # Errors
///
/// `NO_HANDLE` or `UNKNOWN_TYPE`; `shape` is unchanged.
#[unsafe(no_mangle)]
pub extern "C" fn scaleview_type(
    registry: Lent,
    id: u32,
    shape: &mut TypeShape,
    answer: &mut Answer,
) -> u32
    ensures shape { ReportsShape registry.value id shape.old shape.new answer.new }
    ensures code { result ≡ answer.new.code }
{
    *answer = match registry.get() {
        Some(Resource::Registry(opened)) => match type_definition(&opened.checked, id) {
            Some((class, definition)) => {
                *shape = TypeShape::of(class, definition);
                Answer::plain(OK)
            }
            None => Answer::plain(UNKNOWN_TYPE),
        },
        Some(Resource::Session(_)) | None => Answer::plain(NO_HANDLE),
    };
    answer.code
}

/// Writes the name of a composite's field or a tuple's member, and reports its type and whether it
/// has a name.
///
/// # Errors
///
/// `NO_HANDLE`, `UNKNOWN_TYPE`, `UNKNOWN_PART`, or `NO_ROOM` with the same numbers; `out` is
/// unchanged.
#[unsafe(no_mangle)]
pub extern "C" fn scaleview_part(
    registry: Lent,
    id: u32,
    part: u32,
    out: &mut [u8],
    answer: &mut Answer,
) -> u32
    ensures part { WritesTypePart registry.value id part out.old out.new answer.new }
    ensures code { result ≡ answer.new.code }
{
    *answer = match registry.get() {
        Some(Resource::Registry(opened)) => put_part(out, type_part(&opened.checked, id, part)),
        Some(Resource::Session(_)) | None => Answer::plain(NO_HANDLE),
    };
    answer.code
}

/// Writes the name of a variant's arm, and reports its index and its number of fields.
///
/// # Errors
///
/// `NO_HANDLE`, `UNKNOWN_TYPE`, `UNKNOWN_PART`, or `NO_ROOM` with the same numbers; `out` is
/// unchanged.
#[unsafe(no_mangle)]
pub extern "C" fn scaleview_arm(
    registry: Lent,
    id: u32,
    arm: u32,
    out: &mut [u8],
    answer: &mut Answer,
) -> u32
    ensures arm { WritesArm registry.value id arm out.old out.new answer.new }
    ensures code { result ≡ answer.new.code }
{
    *answer = match registry.get() {
        Some(Resource::Registry(opened)) => match type_arm(&opened.checked, id, arm) {
            Ok(arm) => {
                let name = arm.name.as_str().as_bytes();
                put_name(out, name, u32::from(arm.index), arm.fields.len() as u64)
            }
            Err(refusal) => Answer::plain(part_code(refusal)),
        },
        Some(Resource::Session(_)) | None => Answer::plain(NO_HANDLE),
    };
    answer.code
}

/// Writes the name of a field of a variant's arm, and reports its type and whether it has a name.
///
/// # Errors
///
/// `NO_HANDLE`, `UNKNOWN_TYPE`, `UNKNOWN_PART`, or `NO_ROOM` with the same numbers; `out` is
/// unchanged.
#[unsafe(no_mangle)]
pub extern "C" fn scaleview_arm_field(
    registry: Lent,
    id: u32,
    arm: u32,
    field: u32,
    out: &mut [u8],
    answer: &mut Answer,
) -> u32
    ensures field { WritesArmField registry.value id arm field out.old out.new answer.new }
    ensures code { result ≡ answer.new.code }
{
    *answer = match registry.get() {
        Some(Resource::Registry(opened)) => {
            put_part(out, arm_field(&opened.checked, id, arm, field))
        }
        Some(Resource::Session(_)) | None => Answer::plain(NO_HANDLE),
    };
    answer.code
}

/// Writes the path of the type at a position, its segments joined by `::`.
///
/// # Errors
///
/// `NO_HANDLE`, `UNKNOWN_TYPE`, `NO_ROOM` with the path's length, or `MEMORY`; `out` is unchanged.
#[unsafe(no_mangle)]
pub extern "C" fn scaleview_path(
    alloc: Global,
    registry: Lent,
    id: u32,
    out: &mut [u8],
    answer: &mut Answer,
) -> u32
    ensures path { WritesPath registry.value id out.old out.new answer.new }
    ensures code { result ≡ answer.new.code }
{
    *answer = match registry.get() {
        Some(Resource::Registry(opened)) => match type_path(alloc, &opened.checked, id) {
            Ok(Some(path)) => put(out, path.as_bytes()),
            Ok(None) => Answer::plain(UNKNOWN_TYPE),
            Err(refused) => Answer::of_refused(refused),
        },
        Some(Resource::Session(_)) | None => Answer::plain(NO_HANDLE),
    };
    answer.code
}

/// Reports the first position, from `from` on, of a type whose path is these bytes.
///
/// # Errors
///
/// `NO_HANDLE`, or `UNKNOWN_TYPE` if no type from there on has the path.
#[unsafe(no_mangle)]
pub extern "C" fn scaleview_find(registry: Lent, from: u32, path: &[u8], answer: &mut Answer) -> u32
    ensures first { ReportsFirst registry.value from path.now answer.new }
    ensures code { result ≡ answer.new.code }
{
    *answer = match registry.get() {
        Some(Resource::Registry(opened)) => match find_type(&opened.checked, from, path) {
            Some(id) => Answer {
                at: u64::from(id),
                ..Answer::plain(OK)
            },
            None => Answer::plain(UNKNOWN_TYPE),
        },
        Some(Resource::Session(_)) | None => Answer::plain(NO_HANDLE),
    };
    answer.code
}
