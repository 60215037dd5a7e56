//! A value as every call shows it: its counts, its bytes, its tree and its text.

use crate::values::Row;
use crate::way::Way;
use crate::wrong::{Wrong, check_bytes, check_same, check_text};
use json_core::json_to_slice;
use scale_core::Source;
use scale_tests::building::written;
use std::alloc::Global;
use test_calls::calls::{all_of, printed, shown, shown_tree};
use value_core::Value;
use widths_core::Checked;

/// Checks that the value has the counts, the bytes and the text of the row.
pub(crate) fn check_value(
    alloc: Global,
    way: Way,
    row: &Row<'_>,
    value: &Value<'_, Global>,
) -> Result<(), Wrong> {
    check_same(alloc, way, row.held.nodes, value.node_count())?;
    check_same(alloc, way, row.held.texts, value.text_bytes())?;
    let spelling = row.value().ok_or(Wrong::Column("Done"))?;
    let bytes = written(alloc, value).ok_or(Wrong::Call("encode"))?;
    check_bytes(alloc, way, spelling, &bytes)?;
    check_text(alloc, way, row.json, &shown(alloc, value)?)
}

/// Checks that the text is written at the start of a slice that is two bytes longer. Nothing is
/// written to a slice that is too short.
fn check_slice(alloc: Global, row: &Row<'_>, value: &Value<'_, Global>) -> Result<(), Wrong> {
    let len = row.json.len();
    let mut wanted = Vec::from_slice(alloc, row.json.as_bytes())?;
    wanted.extend_from_slice(b"..")?;
    let mut out = vec![in alloc; b'.'; wanted.len()]?;
    let written = json_to_slice(alloc, alloc, value, &mut out);
    check_same(alloc, Way::Slice, Ok(len), written)?;
    check_bytes(alloc, Way::Slice, &wanted, &out)?;
    let mut short = vec![in alloc; b'.'; len.saturating_sub(1)]?;
    let untouched = vec![in alloc; b'.'; len.saturating_sub(1)]?;
    let needed = json_to_slice(alloc, alloc, value, &mut short);
    check_same(alloc, Way::Slice, Ok(len), needed)?;
    check_bytes(alloc, Way::Slice, &untouched, &short)
}

/// Checks the row's value as a tree, as printed text, and as text in a slice. Returns the number of
/// ways in which it is shown.
pub(crate) fn check_forms(alloc: Global, checked: &Checked, row: &Row<'_>) -> Result<u64, Wrong> {
    let Some(spelling) = row.value() else {
        return Ok(0);
    };
    let mut source = Source::new(spelling);
    let Ok(value) = all_of(alloc, checked, row.ty, row.limits, &mut source) else {
        return Err(Wrong::Column("a value"));
    };
    check_text(alloc, Way::Tree, row.json, &shown_tree(alloc, &value)?)?;
    let printed = printed(alloc, &value).ok_or(Wrong::Call("print"))?;
    check_bytes(alloc, Way::Print, row.json.as_bytes(), &printed)?;
    check_slice(alloc, row, &value)?;
    Ok(4)
}
