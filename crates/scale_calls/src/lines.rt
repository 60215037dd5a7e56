//! The lines that show the types of a registry and its metadata's version.

ghost use Rattle.std.specs.Prelude.{◌≡◌, ◌<◌, ◌++◌, IfOk, IfErr, IsSome, OnOk, option_map};
ghost use Rattle.std.specs.Prelude.{string_bytes};
ghost use Rattle.serde_json.specs.Data.{string};
ghost use Rattle.serde_json.specs.Written.{compact_text};
ghost use Rattle.scale_calls.specs.Lines.{class_name, joined_segments, kind_name, line_of_type};
ghost use Rattle.scale_calls.specs.Lines.{primitive_name, type_line, type_lines, version_line};

use growth_core::{Refused, push_str, reported, string_from};
use registry_core::{Primitive, Text, TypeDef, TypeId, TypeInfo, Version};
use serde_json::Value;
use std::alloc::Global;
use widths_core::{Checked, Class};

/// Returns the name of a class.
fn class_name(class: Class) -> &'static str
    ensures { result.now ≡ class_name class }
{
    match class {
        Class::NoValue => "NoValue",
        Class::Empty => "Empty",
        Class::Sized => "Sized",
    }
}

/// Returns the name of a primitive type, in lower case.
fn primitive_name(primitive: Primitive) -> &'static str
    ensures { result.now ≡ primitive_name primitive }
{
    match primitive {
        Primitive::Bool => "bool",
        Primitive::Char => "char",
        Primitive::Str => "str",
        Primitive::U8 => "u8",
        Primitive::U16 => "u16",
        Primitive::U32 => "u32",
        Primitive::U64 => "u64",
        Primitive::U128 => "u128",
        Primitive::U256 => "u256",
        Primitive::I8 => "i8",
        Primitive::I16 => "i16",
        Primitive::I32 => "i32",
        Primitive::I64 => "i64",
        Primitive::I128 => "i128",
        Primitive::I256 => "i256",
    }
}

/// Returns the kind of a definition, or the name of the primitive type.
fn kind_name(shape: &TypeDef) -> &'static str
    ensures { result.now ≡ kind_name shape.now }
{
    match shape {
        TypeDef::Composite(_) => "composite",
        TypeDef::Variant(_) => "variant",
        TypeDef::Sequence(_) => "sequence",
        TypeDef::Array(_, _) => "array",
        TypeDef::Tuple(_) => "tuple",
        TypeDef::Primitive(primitive) => primitive_name(*primitive),
        TypeDef::Compact(_) => "compact",
        TypeDef::BitSequence { .. } => "bitsequence",
    }
}

/// Joins the segments of a path by `::`.
pub(crate) fn joined(alloc: Global, segments: &[Text]) -> Result<String, Refused>
    ensures { IfOk result (λ path. string_bytes path ≡ joined_segments segments.now) }
{
    let Some((first, others)) = segments.split_first() else {
        return Ok(String::new(alloc));
    };
    let mut path = string_from(alloc, first.as_str())?;
    'segments: for segment in others {
        push_str(&mut path, "::")?;
        push_str(&mut path, segment.as_str())?;
    }
    Ok(path)
}

/// Returns a path as a JSON string.
fn path_text(alloc: Global, segments: &[Text]) -> Result<String, Refused>
    ensures { IfOk result (λ text.
        string_bytes text ≡ compact_text (string (joined_segments segments.now))) }
{
    let path = joined(alloc, segments)?;
    reported(Value::String(path).to_string(alloc))
}

/// Appends the line of a type: its position, class, kind and path, separated by one space.
fn push_line(
    alloc: Global,
    lines: &mut String,
    id: u32,
    class: Class,
    info: &TypeInfo,
) -> Result<(), Refused>
    ensures { OnOk result (string_bytes lines.new
        ≡ string_bytes lines.old ++ line_of_type id class info.now) }
{
    let class = class_name(class);
    let kind = kind_name(&info.shape);
    let path = path_text(alloc, info.path.as_slice())?;
    let line = reported(format!(in alloc; "{id} {class} {kind} {path}\n"))?;
    push_str(lines, line.as_str())
}

/// Appends the lines of all types, in order of position, each with a line feed.
///
/// # Errors
///
/// `Refused` if an allocation fails; the first of the lines may have been appended.
pub fn push_type_lines(alloc: Global, lines: &mut String, checked: &Checked) -> Result<(), Refused>
    ensures { OnOk result (string_bytes lines.new
        ≡ string_bytes lines.old ++ type_lines checked.now.types) }
{
    'types: for (i, info) in checked.registry().types().iter().enumerate() {
        let id = i as u32;
        let class = checked.class(TypeId(id)).unwrap();
        push_line(alloc, lines, id, class, info)?;
    }
    Ok(())
}

/// Returns the line of the type at a position, with a line feed, or `None` if the registry has no
/// such type.
///
/// # Errors
///
/// `Refused` if an allocation fails, which only a type that is there needs.
pub fn type_line(alloc: Global, checked: &Checked, id: u32) -> Result<Option<String>, Refused>
    ensures line { IfOk result
        (λ line. option_map string_bytes line ≡ type_line checked.now.types id) }
    ensures known { IfErr result (λ _. IsSome (type_line checked.now.types id)) }
{
    let Some(class) = checked.class(TypeId(id)) else {
        return Ok(None);
    };
    let Some(info) = checked.registry().types().get(id as usize) else {
        return Ok(None);
    };
    let mut line = String::new(alloc);
    push_line(alloc, &mut line, id, class, info)?;
    Ok(Some(line))
}

/// Returns the line of the metadata's version, with a line feed, or an empty text if there is no
/// version.
///
/// # Errors
///
/// `Refused` if an allocation fails.
pub fn version_line(alloc: Global, version: Option<Version>) -> Result<String, Refused>
    ensures { IfOk result (λ line. string_bytes line ≡ version_line version) }
{
    match version {
        Some(version) => {
            let number = version.number();
            reported(format!(in alloc; "metadata {number}\n"))
        }
        None => Ok(String::new(alloc)),
    }
}
