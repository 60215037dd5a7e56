//! Registries and metadata: each is read, checked, listed and written back, and every shorter front
//! is rejected.

use crate::columns::{bytes_of, is_nothing};
use crate::way::Way;
use crate::wrong::{Wrong, check_bytes, check_same, check_text};
use registry_core::{
    Registry, RegistryFault, RegistryReason, Version, read_metadata, read_registry, write_registry,
};
use scale_calls::push_type_lines;
use scale_tests::building;
use std::alloc::{AllocError, Global};
use widths_core::{CheckFault, Checked};

/// What precedes a registry.
#[derive(Clone, Copy, PartialEq, Eq)]
enum Prefix {
    None,
    Metadata,
}

/// Returns the prefix with this name.
fn prefix_of(name: &str) -> Result<Prefix, Wrong> {
    match name {
        "none" => Ok(Prefix::None),
        "metadata" => Ok(Prefix::Metadata),
        _ => Err(Wrong::Column("a prefix")),
    }
}

impl Prefix {
    /// Returns the number of bytes of the prefix.
    fn len(self) -> usize {
        match self {
            Prefix::None => 0,
            Prefix::Metadata => 5,
        }
    }

    /// Reads the registry after the prefix. Returns it, the number of bytes taken, and the version.
    fn read(
        self,
        alloc: Global,
        bytes: &[u8],
    ) -> Result<(Registry, usize, Option<Version>), RegistryFault> {
        match self {
            Prefix::None => {
                let (registry, len) = read_registry(alloc, bytes)?;
                Ok((registry, len, None))
            }
            Prefix::Metadata => {
                let (registry, len, version) = read_metadata(alloc, bytes)?;
                Ok((registry, len, Some(version)))
            }
        }
    }
}

/// Returns what a reader took, in the format of a row.
fn taken_line(alloc: Global, len: usize, version: Option<Version>) -> Result<String, AllocError> {
    match version {
        None => format!(in alloc; "{len}"),
        Some(version) => {
            let number = version.number();
            format!(in alloc; "{len} V{number}")
        }
    }
}

/// Checks that the registry is written as the bytes that it was read from.
fn check_written(alloc: Global, registry: &Registry, bytes: &[u8]) -> Result<(), Wrong> {
    let written = write_registry(alloc, registry)?;
    check_bytes(alloc, Way::WriteRegistry, bytes, &written)
}

/// Checks that every shorter front is rejected as truncated at its end. Returns the number of
/// fronts.
fn check_fronts(alloc: Global, prefix: Prefix, bytes: &[u8]) -> Result<u64, Wrong> {
    'fronts: for len in 0..bytes.len() {
        let front = bytes.get(..len).ok_or(Wrong::Column("long enough"))?;
        let cut = RegistryFault {
            reason: RegistryReason::Truncated,
            at: len as u64,
        };
        let reported = prefix.read(alloc, front).err();
        check_same(alloc, Way::Front(len), Some(cut), reported)?;
    }
    Ok(bytes.len() as u64)
}

/// Checks the lines of the types, which a row joins with ` / `.
fn check_lines(alloc: Global, checked: &Checked, wanted: &str) -> Result<(), Wrong> {
    let mut lines = String::new(alloc);
    push_type_lines(alloc, &mut lines, checked)?;
    let mut listed = String::new(alloc);
    if !is_nothing(wanted) {
        'lines: for line in wanted.split(" / ") {
            listed.push_str(line)?;
            listed.push_str("\n")?;
        }
    }
    check_text(alloc, Way::TypeLines, &listed, &lines)
}

/// Checks the result of [`Checked::new`]. It returns a rejected registry unchanged.
fn check_checked(
    alloc: Global,
    registry: Registry,
    bytes: &[u8],
    check: &str,
    lines: &str,
) -> Result<(), Wrong> {
    match Checked::new(alloc, registry) {
        Ok(checked) => {
            let line = format!(in alloc; "W={}", checked.widest())?;
            check_text(alloc, Way::CheckReferences, check, &line)?;
            check_lines(alloc, &checked, lines)
        }
        Err((CheckFault::UnknownType { from, to }, registry)) => {
            let (from, to) = (from.0, to.0);
            let line = format!(in alloc; "UnknownType {to} in type {from}")?;
            check_text(alloc, Way::CheckReferences, check, &line)?;
            check_written(alloc, &registry, bytes)
        }
        Err((CheckFault::TooLarge(_), _)) => Err(Wrong::Call("Checked::new")),
        Err((CheckFault::OutOfMemory(_), _)) => Err(Wrong::Memory),
    }
}

/// Checks one row. Returns the number of ways in which it was checked.
pub(crate) fn check_row(alloc: Global, columns: &[&str]) -> Result<u64, Wrong> {
    let [_, prefix, bytes, read, check, lines] = columns else {
        return Err(Wrong::Column("one of six"));
    };
    let prefix = prefix_of(prefix)?;
    let bytes = bytes_of(alloc, bytes)?;
    let (registry, len, version) = match prefix.read(alloc, &bytes) {
        Ok(answer) => answer,
        Err(fault) => {
            let line = format!(in alloc; "{fault}")?;
            check_text(alloc, Way::ReadRegistry, read, &line)?;
            return Ok(1);
        }
    };
    let line = taken_line(alloc, len, version)?;
    check_text(alloc, Way::ReadRegistry, read, &line)?;
    let taken = bytes.get(..len).ok_or(Wrong::Column("long enough"))?;
    let spelling = taken.get(prefix.len()..);
    let spelling = spelling.ok_or(Wrong::Column("long enough"))?;
    check_written(alloc, &registry, spelling)?;
    check_checked(alloc, registry, spelling, check, lines)?;
    Ok(check_fronts(alloc, prefix, taken)?.saturating_add(3))
}

/// Whether bit sequences are read.
#[derive(Clone, Copy, PartialEq, Eq)]
pub(crate) enum Bits {
    Refused,
    Allowed,
}

/// A registry of the table: its name, and its bytes in hexadecimal digits.
#[derive(Clone, Copy)]
struct Named<'a> {
    name: &'a str,
    digits: &'a str,
}

/// The registries of the table.
#[derive(Drop)]
pub(crate) struct Registries<'a>(Vec<Named<'a>>);

impl<'a> Registries<'a> {
    /// Reads the names and the digits of a table's rows. These stand in this column.
    pub(crate) fn new(
        alloc: Global,
        text: &'a str,
        column: usize,
    ) -> Result<Registries<'a>, AllocError> {
        let mut named = Vec::new(alloc);
        'lines: for line in text.split('\n') {
            if let Some((name, _)) = line.split_once('\t') {
                let digits = line.split('\t').nth(column).unwrap_or("");
                named.push(Named { name, digits })?;
            }
        }
        Ok(Registries(named))
    }

    /// Returns the bytes of the registry that a column of a row names or spells.
    pub(crate) fn bytes_of(
        &self,
        alloc: Global,
        columns: &[&str],
        column: usize,
    ) -> Result<Vec<u8>, Wrong> {
        let name = columns.get(column).copied().unwrap_or("");
        'registries: for registry in &self.0 {
            if registry.name == name {
                return bytes_of(alloc, registry.digits);
            }
        }
        bytes_of(alloc, name)
    }

    /// Returns the registry of a row's second column, checked with bits allowed or without.
    pub(crate) fn checked(
        &self,
        alloc: Global,
        bits: Bits,
        columns: &[&str],
    ) -> Result<Checked, Wrong> {
        let bytes = self.bytes_of(alloc, columns, 1)?;
        let checked = match bits {
            Bits::Allowed => building::checked_with_bits(alloc, &bytes),
            Bits::Refused => building::checked(alloc, &bytes),
        };
        checked.ok_or(Wrong::Call("Checked::new"))
    }
}
