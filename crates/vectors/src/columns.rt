//! The columns of a row: bytes and numbers.

use crate::wrong::Wrong;
use std::alloc::Global;
use std::str::FromStr;

/// Returns whether the column is a dash, which stands for nothing.
pub(crate) fn is_nothing(column: &str) -> bool {
    column == "-"
}

/// Reads bytes in hexadecimal digits. A dash stands for no bytes.
pub(crate) fn bytes_of(alloc: Global, column: &str) -> Result<Vec<u8>, Wrong> {
    if is_nothing(column) {
        return Ok(Vec::new(alloc));
    }
    let bytes = hex::decode(alloc, column).ok();
    bytes.ok_or(Wrong::Column("hexadecimal digits"))
}

/// Reads a number or a boolean, which is described as `wanted` if the column spells none.
pub(crate) fn parsed<T: FromStr>(column: &str, wanted: &'static str) -> Result<T, Wrong>
where
    T::Err: Drop,
{
    match column.parse::<T>() {
        Ok(value) => Ok(value),
        Err(_) => Err(Wrong::Column(wanted)),
    }
}
