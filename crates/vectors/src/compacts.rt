//! Compact integers: each is read and, if it is accepted, put and written.

use crate::columns::bytes_of;
use crate::way::Way;
use crate::wrong::{Wrong, check_bytes, check_same, check_text};
use scale_core::{Target, compact_len, put_compact, read_compact, write_compact};
use std::alloc::{AllocError, Global};

/// Returns the target with this name.
pub(crate) fn target_of(name: &str) -> Result<Target, Wrong> {
    match name {
        "Unit" => Ok(Target::Unit),
        "U8" => Ok(Target::U8),
        "U16" => Ok(Target::U16),
        "U32" => Ok(Target::U32),
        "U64" => Ok(Target::U64),
        "U128" => Ok(Target::U128),
        _ => Err(Wrong::Column("a target")),
    }
}

/// Returns the reader's answer in the format of a row.
fn answer_line(alloc: Global, bytes: &[u8], target: Target) -> Result<String, AllocError> {
    match read_compact(bytes, target) {
        Ok((value, len)) => format!(in alloc; "{value} in {len}"),
        Err(fault) => format!(in alloc; "{fault}"),
    }
}

/// Checks that the value is put at the start of an array as these bytes, and the rest is unchanged.
fn check_put(alloc: Global, value: u128, bytes: &[u8]) -> Result<(), Wrong> {
    let mut wanted = [0xee; 17];
    let Some(front) = wanted.get_mut(..bytes.len()) else {
        return Err(Wrong::Column("at most 17 bytes"));
    };
    front.copy_from_slice(bytes);
    let mut array = [0xee; 17];
    let len = put_compact(value, &mut array);
    check_same(alloc, Way::PutCompact, bytes.len(), len)?;
    check_bytes(alloc, Way::PutCompact, &wanted, &array)
}

/// Checks that the value is appended as these bytes, twice.
fn check_written(alloc: Global, value: u128, bytes: &[u8]) -> Result<(), Wrong> {
    let mut wanted = Vec::from_slice(alloc, bytes)?;
    wanted.extend_from_slice(bytes)?;
    let mut out = Vec::new(alloc);
    write_compact(&mut out, value)?;
    write_compact(&mut out, value)?;
    check_bytes(alloc, Way::WriteCompact, &wanted, &out)
}

/// Checks that the encoding of the value is the bytes that were read.
fn check_spelling(alloc: Global, value: u128, bytes: &[u8]) -> Result<(), Wrong> {
    check_same(alloc, Way::CompactLen, bytes.len(), compact_len(value))?;
    check_put(alloc, value, bytes)?;
    check_written(alloc, value, bytes)
}

/// Checks one row: the compact is read as the row says. If it is accepted, it is put and written as
/// the bytes that were taken. Returns the number of ways in which it was checked.
pub(crate) fn check_row(alloc: Global, columns: &[&str]) -> Result<u64, Wrong> {
    let [_, target, bytes, answer] = columns else {
        return Err(Wrong::Column("one of four"));
    };
    let target = target_of(target)?;
    let bytes = bytes_of(alloc, bytes)?;
    let line = answer_line(alloc, &bytes, target)?;
    check_text(alloc, Way::ReadCompact, answer, &line)?;
    match read_compact(&bytes, target) {
        Ok((value, len)) if len > 0 => {
            let spelling = bytes.get(..len).ok_or(Wrong::Column("long enough"))?;
            check_spelling(alloc, value, spelling)?;
            Ok(4)
        }
        _ => Ok(1),
    }
}
