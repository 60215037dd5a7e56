//! Builders: the calls of each row with their answers, what comes next, and the value they build.

use crate::columns::{is_nothing, parsed};
use crate::registries::{Bits, Registries};
use crate::steps::{ACCEPTED, Action, Step, step_of};
use crate::way::Way;
use crate::wrong::{Wrong, check_same, check_text, differing};
use registry_core::TypeId;
use scale_core::Source;
use scale_tests::builders::counts;
use scale_tests::building::{Standing, add, what_stands, written};
use std::alloc::{AllocError, Global};
use test_calls::calls::{all_of, shown};
use value_core::{BuildFault, Builder, Limits, Value};
use widths_core::Checked;

/// The most bytes of a value that is decoded again.
const MOST_BYTES: u64 = 16_777_216;

/// The columns of a row after the registry.
#[derive(Clone, Copy)]
struct Row<'a> {
    ty: u32,
    depth: u16,
    calls: &'a str,
    /// The value's bytes, or why there is none.
    encoding: &'a str,
}

/// Reads the columns of a row.
fn row_of<'a>(columns: &[&'a str]) -> Result<Row<'a>, Wrong> {
    let [_, _, ty, depth, calls, encoding] = columns else {
        return Err(Wrong::Column("one of six"));
    };
    Ok(Row {
        ty: parsed(ty, "a type")?,
        depth: parsed(depth, "a depth")?,
        calls: *calls,
        encoding: *encoding,
    })
}

/// Checks an error of a builder.
fn check_fault(alloc: Global, way: Way, wanted: &str, fault: BuildFault) -> Result<(), Wrong> {
    let line = format!(in alloc; "{fault:?}")?;
    check_text(alloc, way, wanted, &line)
}

/// Makes the call of a step and checks its answer. An error changes nothing.
fn check_call(
    alloc: Global,
    way: Way,
    builder: &mut Builder<'_, Global>,
    step: Step<'_>,
) -> Result<(), Wrong> {
    let bytes = step.bytes(alloc)?;
    let call = step.call(&bytes)?;
    let before = what_stands(builder);
    match add(builder, call) {
        Ok(()) => check_text(alloc, way, step.answer, ACCEPTED),
        Err(fault) => {
            check_fault(alloc, way, step.answer, fault)?;
            check_same(alloc, way, before, what_stands(builder))
        }
    }
}

/// Checks that `finish` fails with this error, and returns the builder, which is unchanged.
fn check_unfinished<'r>(
    alloc: Global,
    way: Way,
    builder: Builder<'r, Global>,
    wanted: &str,
) -> Result<Builder<'r, Global>, Wrong> {
    let before = what_stands(&builder);
    match builder.finish() {
        Ok(_) => Err(differing(alloc, way, wanted, "a value")?),
        Err((fault, builder)) => {
            check_fault(alloc, way, wanted, fault)?;
            check_same(alloc, way, before, what_stands(&builder))?;
            Ok(builder)
        }
    }
}

/// Checks what comes next in the builder, and its depth.
fn check_next(
    alloc: Global,
    way: Way,
    builder: &Builder<'_, Global>,
    wanted: &str,
) -> Result<(), Wrong> {
    let standing = what_stands(builder);
    let line = format!(in alloc; "{:?} {}", standing.next, standing.depth)?;
    check_text(alloc, way, wanted, &line)
}

/// Makes the call of a step, if it has one, and returns the builder after it.
fn check_action<'r>(
    alloc: Global,
    way: Way,
    builder: Builder<'r, Global>,
    step: Step<'_>,
) -> Result<Builder<'r, Global>, Wrong> {
    match step.action()? {
        Action::Look => Ok(builder),
        Action::Finish => check_unfinished(alloc, way, builder, step.answer),
        Action::Call => {
            let mut builder = builder;
            check_call(alloc, way, &mut builder, step)?;
            Ok(builder)
        }
    }
}

/// Runs a step, and returns the builder after it.
fn check_step<'r>(
    alloc: Global,
    way: Way,
    builder: Builder<'r, Global>,
    step: Step<'_>,
) -> Result<Builder<'r, Global>, Wrong> {
    let builder = check_action(alloc, way, builder, step)?;
    if let Some(next) = step.next {
        check_next(alloc, way, &builder, next)?;
    }
    Ok(builder)
}

/// Runs the steps of a row. Returns the builder after them, and their number.
fn check_steps<'r>(
    alloc: Global,
    builder: Builder<'r, Global>,
    calls: &str,
) -> Result<(Builder<'r, Global>, usize), Wrong> {
    let mut builder = builder;
    let mut count = 0usize;
    if is_nothing(calls) {
        return Ok((builder, count));
    }
    'steps: for text in calls.split("; ") {
        count = count.saturating_add(1);
        builder = check_step(alloc, Way::Call(count), builder, step_of(text))?;
    }
    Ok((builder, count))
}

/// Returns bytes in the format of a column.
fn column_of(alloc: Global, bytes: &[u8]) -> Result<String, AllocError> {
    match bytes {
        [] => String::from_str(alloc, "-"),
        _ => hex::encode(alloc, bytes),
    }
}

/// Decodes the bytes, and checks that the value has the same counts and the same JSON.
fn check_decoded(
    alloc: Global,
    checked: &Checked,
    row: Row<'_>,
    value: &Value<'_, Global>,
    bytes: &[u8],
) -> Result<(), Wrong> {
    let limits = Limits {
        depth: row.depth,
        bytes: MOST_BYTES,
    };
    let mut source = Source::new(bytes);
    let Ok(decoded) = all_of(alloc, checked, row.ty, limits, &mut source) else {
        return Err(Wrong::Call("decode_all"));
    };
    check_same(alloc, Way::Whole, counts(value), counts(&decoded))?;
    let wanted = shown(alloc, value)?;
    check_text(alloc, Way::Text, &wanted, &shown(alloc, &decoded)?)
}

/// Checks that a value has the counts that the builder reported last, and the row's encoding.
fn check_value(
    alloc: Global,
    checked: &Checked,
    row: Row<'_>,
    last: Standing,
    value: &Value<'_, Global>,
) -> Result<(), Wrong> {
    let bytes = written(alloc, value).ok_or(Wrong::Call("encode"))?;
    let encoding = column_of(alloc, &bytes)?;
    check_text(alloc, Way::Encode, row.encoding, &encoding)?;
    let reported = (last.nodes, last.texts);
    check_same(alloc, Way::Finish, reported, counts(value))?;
    check_decoded(alloc, checked, row, value, &bytes)
}

/// Finishes the builder of a row, and checks the value or the error, which leaves it unchanged.
fn check_end(
    alloc: Global,
    checked: &Checked,
    row: Row<'_>,
    builder: Builder<'_, Global>,
) -> Result<(), Wrong> {
    let last = what_stands(&builder);
    match builder.finish() {
        Ok(value) => check_value(alloc, checked, row, last, &value),
        Err((fault, builder)) => {
            check_fault(alloc, Way::Finish, row.encoding, fault)?;
            check_same(alloc, Way::Finish, last, what_stands(&builder))
        }
    }
}

/// Creates the builder of a row, and runs its steps. Returns their number, plus one for the end of
/// the builder.
fn check_builder(alloc: Global, checked: &Checked, row: Row<'_>) -> Result<u64, Wrong> {
    let builder = match Builder::new(alloc, checked, TypeId(row.ty), row.depth) {
        Ok(builder) => builder,
        Err(fault) => {
            check_fault(alloc, Way::Open, row.encoding, fault)?;
            return Ok(1);
        }
    };
    let (builder, steps) = check_steps(alloc, builder, row.calls)?;
    check_end(alloc, checked, row, builder)?;
    Ok((steps as u64).saturating_add(1))
}

/// Checks one row. Returns the number of its steps, plus one for the end of the builder.
pub(crate) fn check_row(
    alloc: Global,
    registries: &Registries<'_>,
    columns: &[&str],
) -> Result<u64, Wrong> {
    let row = row_of(columns)?;
    let checked = registries.checked(alloc, Bits::Allowed, columns)?;
    check_builder(alloc, &checked, row)
}
