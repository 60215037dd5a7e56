//! The calls on what a registry says of its types beside their definitions.

ghost use Rattle.std.specs.Prelude.{◌≡◌, option_copied};
ghost use Rattle.scale_calls.specs.Describing.{result_map};
ghost use Rattle.scaleview_c.specs.Annotations.{WritesDocsLine, WritesParam, WritesTypeName};
ghost use Rattle.scaleview_c.specs.Annotations.{DescribesLine, DescribesName, DescribesParam};
ghost use Rattle.scaleview_c.specs.Annotations.{subject_of};

use crate::lent::Lent;
use crate::resource::Resource;
use crate::types::{part_code, put_name};
use c_answers::{Answer, NO_HANDLE};
use registry_core::{Param, Text};
use scale_calls::{PartRefusal, Subject, docs_line, type_name, type_param};

/// The number that stands for no position.
const NONE: u32 = u32::MAX;

/// Returns the subject of the position of an arm and that of a field, where `NONE` stands for none.
fn subject_of(arm: u32, field: u32) -> Subject
    ensures { result ≡ subject_of arm field }
{
    match (arm, field) {
        (NONE, NONE) => Subject::Type,
        (NONE, field) => Subject::Field(field),
        (arm, NONE) => Subject::Arm(arm),
        (arm, field) => Subject::ArmField { arm, field },
    }
}

/// Writes the name of a parameter with its type, or returns the answer that says why there is none.
fn put_param(out: &mut [u8], param: Result<&Param, PartRefusal>) -> Answer
    ensures { DescribesParam (result_map (λ p. p.now) param.entry) out.old out.new result }
{
    match param {
        Ok(param) => {
            let name = param.name.as_str().as_bytes();
            match param.ty {
                Some(ty) => put_name(out, name, ty.0, 1),
                None => put_name(out, name, 0, 0),
            }
        }
        Err(refusal) => Answer::plain(part_code(refusal)),
    }
}

/// Writes the name of a type, or returns the answer that says why there is none.
fn put_type_name(out: &mut [u8], name: Result<Option<&Text>, PartRefusal>) -> Answer
    ensures { DescribesName (result_map option_copied name.entry) out.old out.new result }
{
    match name {
        Ok(Some(name)) => put_name(out, name.as_str().as_bytes(), 0, 1),
        Ok(None) => put_name(out, &[], 0, 0),
        Err(refusal) => Answer::plain(part_code(refusal)),
    }
}

/// Writes a line, or returns the answer that says why there is none.
fn put_line(out: &mut [u8], line: Result<&Text, PartRefusal>) -> Answer
    ensures { DescribesLine (result_map (λ t. t.now) line.entry) out.old out.new result }
{
    match line {
        Ok(line) => put_name(out, line.as_str().as_bytes(), 0, 0),
        Err(refusal) => Answer::plain(part_code(refusal)),
    }
}

/// Writes the name of a type's parameter, and reports the type that stands for it and whether there
/// is one.
///
/// # Errors
///
/// `NO_HANDLE`, `UNKNOWN_TYPE`, `UNKNOWN_PART`, or `NO_ROOM` with the same numbers; `out` is
/// unchanged.
#[unsafe(no_mangle)]
pub extern "C" fn scaleview_param(
    registry: Lent,
    id: u32,
    param: u32,
    out: &mut [u8],
    answer: &mut Answer,
) -> u32
    ensures param { WritesParam registry.value id param out.old out.new answer.new }
    ensures code { result ≡ answer.new.code }
{
    *answer = match registry.get() {
        Some(Resource::Registry(opened)) => put_param(out, type_param(&opened.checked, id, param)),
        Some(Resource::Session(_)) | None => Answer::plain(NO_HANDLE),
    };
    answer.code
}

/// Writes the name of a field's type as the source has it, and reports whether there is one. `arm`
/// is `NONE` for the field of a composite.
///
/// # Errors
///
/// `NO_HANDLE`, `UNKNOWN_TYPE`, `UNKNOWN_PART`, or `NO_ROOM` with the same numbers; `out` is
/// unchanged.
#[unsafe(no_mangle)]
pub extern "C" fn scaleview_type_name(
    registry: Lent,
    id: u32,
    arm: u32,
    field: u32,
    out: &mut [u8],
    answer: &mut Answer,
) -> u32
    ensures name { WritesTypeName registry.value id (subject_of arm field) out.old out.new
        answer.new }
    ensures code { result ≡ answer.new.code }
{
    *answer = match registry.get() {
        Some(Resource::Registry(opened)) => {
            put_type_name(out, type_name(&opened.checked, id, subject_of(arm, field)))
        }
        Some(Resource::Session(_)) | None => Answer::plain(NO_HANDLE),
    };
    answer.code
}

/// Writes a line of the documentation of a type, or of a field or an arm, where `NONE` stands for
/// no arm and no field.
///
/// # Errors
///
/// `NO_HANDLE`, `UNKNOWN_TYPE`, `UNKNOWN_PART` if there is no such part or no such line, or
/// `NO_ROOM` with the same length; `out` is unchanged.
#[unsafe(no_mangle)]
pub extern "C" fn scaleview_docs(
    registry: Lent,
    id: u32,
    arm: u32,
    field: u32,
    line: u32,
    out: &mut [u8],
    answer: &mut Answer,
) -> u32
    ensures line { WritesDocsLine registry.value id (subject_of arm field) line out.old out.new
        answer.new }
    ensures code { result ≡ answer.new.code }
{
    *answer = match registry.get() {
        Some(Resource::Registry(opened)) => {
            let subject = subject_of(arm, field);
            put_line(out, docs_line(&opened.checked, id, subject, line))
        }
        Some(Resource::Session(_)) | None => Answer::plain(NO_HANDLE),
    };
    answer.code
}
