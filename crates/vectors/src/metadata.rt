//! Metadata with names: how many types and names it has, or why it has none.

use crate::columns::bytes_of;
use crate::commands::check_words;
use crate::registries::Registries;
use crate::way::Way;
use crate::wrong::{Wrong, check_text};
use scale_calls::open_metadata;
use std::alloc::Global;

/// Checks one row: the numbers of own types, of all types and of names, or the line of a refusal.
/// Returns the number of ways in which it was checked.
pub(crate) fn check_row(
    alloc: Global,
    registries: &Registries<'_>,
    columns: &[&str],
) -> Result<u64, Wrong> {
    let [name, bytes, answer] = columns else {
        return Err(Wrong::Column("one of three"));
    };
    if answer.starts_with("registry: ") || answer.starts_with("check: ") {
        let err = format!(in alloc; "scaleview: {answer}\\n")?;
        let words = [name, "names r", bytes, "-", "1", "-", err.as_str()];
        return check_words(alloc, registries, &words);
    }
    let bytes = bytes_of(alloc, bytes)?;
    let Ok(metadata) = open_metadata(alloc, false, &bytes) else {
        return Err(Wrong::Call("open_metadata"));
    };
    let all = metadata.checked.registry().types().len();
    let names = metadata.names.len();
    let found = format!(in alloc; "{} {all} {names}", metadata.own)?;
    check_text(alloc, Way::OpenMetadata, answer, &found)?;
    Ok(1)
}
