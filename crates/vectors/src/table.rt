//! The tables, and how many of their rows are answered correctly.

use crate::registries::{Bits, Registries};
use crate::wrong::Wrong;
use crate::{builder, commands, compacts, registries, types, values};
use std::alloc::Global;
use std::io;

/// A table of rows of one kind.
#[derive(Clone, Copy)]
pub(crate) enum Table {
    Compacts,
    Registries,
    Types,
    Values,
    Bits,
    Command,
    Metadata,
    Chain,
    Builder,
}

impl Table {
    /// Returns the table's name, to which its file adds `.tsv`.
    pub(crate) fn name(self) -> &'static str {
        match self {
            Table::Compacts => "compacts",
            Table::Registries => "registries",
            Table::Types => "types",
            Table::Values => "values",
            Table::Bits => "bits",
            Table::Command => "command",
            Table::Metadata => "metadata",
            Table::Chain => "chain",
            Table::Builder => "builder",
        }
    }

    /// Checks one row. Returns the number of ways in which it was checked.
    fn check_row(
        self,
        alloc: Global,
        registries: &Registries<'_>,
        metadata: &Registries<'_>,
        columns: &[&str],
    ) -> Result<u64, Wrong> {
        match self {
            Table::Compacts => compacts::check_row(alloc, columns),
            Table::Registries => registries::check_row(alloc, columns),
            Table::Types => types::check_row(alloc, registries, columns),
            Table::Values => values::check_row(alloc, registries, Bits::Refused, columns),
            Table::Bits => values::check_row(alloc, registries, Bits::Allowed, columns),
            Table::Command => commands::check_words(alloc, registries, columns),
            Table::Metadata => crate::metadata::check_row(alloc, registries, columns),
            Table::Chain => commands::check_words(alloc, metadata, columns),
            Table::Builder => builder::check_row(alloc, registries, columns),
        }
    }
}

/// The number of rows checked, of ways in which they were checked, and of rows answered wrongly.
#[derive(Clone, Copy, Default)]
pub(crate) struct Tally {
    pub(crate) rows: u64,
    pub(crate) ways: u64,
    pub(crate) wrong: u64,
}

/// Checks a line of a table, and reports a row that is answered wrongly.
fn check_line<R: Print + AllocGlobal>(
    rt: &R,
    table: Table,
    registries: &Registries<'_>,
    metadata: &Registries<'_>,
    line: &str,
    tally: &mut Tally,
) -> io::Result<()> {
    let columns: Vec<&str> = line.split('\t').collect(rt.alloc())?;
    tally.rows = tally.rows.saturating_add(1);
    match table.check_row(rt.alloc(), registries, metadata, &columns) {
        Ok(ways) => {
            tally.ways = tally.ways.saturating_add(ways);
            Ok(())
        }
        Err(wrong) => {
            tally.wrong = tally.wrong.saturating_add(1);
            let name = columns.first().copied().unwrap_or("");
            println!(rt; "{}: {name}: {wrong}", table.name())
        }
    }
}

/// Checks the rows of a table. Skips empty lines and lines that begin with a number sign.
pub(crate) fn check_table<R: Print + AllocGlobal>(
    rt: &R,
    table: Table,
    registries: &Registries<'_>,
    metadata: &Registries<'_>,
    text: &str,
) -> io::Result<Tally> {
    let mut tally = Tally::default();
    'lines: for line in text.split('\n') {
        if !line.is_empty() && !line.starts_with('#') {
            check_line(rt, table, registries, metadata, line, &mut tally)?;
        }
    }
    Ok(tally)
}
