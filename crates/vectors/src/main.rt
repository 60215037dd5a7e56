//! The program `vectors` reads tables of test vectors. It checks every call against the answers of
//! each row, in every way of feeding it. It prints the rows that are answered wrongly, and a line
//! for each table. The exit status is 0 if no row is answered wrongly.
#![tactic(auto)]

mod builder;
mod columns;
mod commands;
mod compacts;
mod metadata;
mod registries;
mod shown;
mod steps;
mod table;
mod types;
mod values;
mod way;
mod wrong;

use registries::Registries;
use std::process::ExitCode;
use std::rt::Files;
use std::{fs, io};
use table::Table;

const TABLES: [Table; 9] = [
    Table::Compacts,
    Table::Registries,
    Table::Types,
    Table::Values,
    Table::Bits,
    Table::Command,
    Table::Metadata,
    Table::Chain,
    Table::Builder,
];

/// Checks the rows of every table, by the texts of the tables whose rows others name. Returns how
/// many are answered wrongly.
fn check_by<R: Files + Print + AllocGlobal>(
    rt: &R,
    registries: &str,
    metadata: &str,
) -> io::Result<u64> {
    let registries = Registries::new(rt.alloc(), registries, 2)?;
    let metadata = Registries::new(rt.alloc(), metadata, 1)?;
    let mut wrong = 0u64;
    for table in TABLES {
        let file = format!(in rt.alloc(); "{}.tsv", table.name())?;
        let text = fs::read_to_string(rt, file.as_str())?;
        let tally = table::check_table(rt, table, &registries, &metadata, &text)?;
        println!(rt;
            "{}: {} rows in {} ways, {} wrong",
            table.name(),
            tally.rows,
            tally.ways,
            tally.wrong
        )?;
        wrong = wrong.saturating_add(tally.wrong);
    }
    Ok(wrong)
}

/// Checks the rows of every table. Returns how many are answered wrongly.
fn check_tables<R: Files + Print + AllocGlobal>(rt: &R) -> io::Result<u64> {
    let registries = fs::read_to_string(rt, "registries.tsv")?;
    let metadata = fs::read_to_string(rt, "metadata.tsv")?;
    check_by(rt, registries.as_str(), metadata.as_str())
}

fn main(rt: HostRuntime) -> ExitCode {
    match check_tables(&rt) {
        Ok(0) => ExitCode::SUCCESS,
        Ok(_) => ExitCode::FAILURE,
        Err(error) => {
            let _ = eprintln!(rt; "vectors: {error}");
            ExitCode::from(3)
        }
    }
}
