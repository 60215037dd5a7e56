//! The command: each command line, run over memory.

use crate::columns::{bytes_of, parsed};
use crate::registries::{Bits, Registries};
use crate::values::Row;
use crate::way::Way;
use crate::wrong::{Wrong, check_bytes, check_same, check_text};
use scale_tool::{DecodeJob, Job, ValueSource, Wanted};
use std::alloc::Global;
use test_calls::lines::{unescaped, words_of};
use test_calls::ran::{Devices, NONE, Ran, wanted};
use test_calls::words::Files;

/// The most bytes that a device moves in a call: one, and all that a row has.
const STEPS: [usize; 2] = [1, 1 << 20];

/// Checks the result of a run.
fn check_ran(alloc: Global, way: Way, wanted: &Ran, found: &Ran) -> Result<(), Wrong> {
    check_same(alloc, way, wanted.status, found.status)?;
    check_bytes(alloc, way, &wanted.out, &found.out)?;
    check_bytes(alloc, way, &wanted.err, &found.err)
}

/// Returns the job that decodes the row's bytes within the row's limits.
fn job_of(row: &Row<'_>) -> Job {
    Job::Decode(DecodeJob {
        wanted: Wanted::Id(row.ty),
        source: ValueSource::Raw,
        metadata: false,
        bits: row.bits == Bits::Allowed,
        opaque: false,
        limits: row.limits,
        memory: None,
    })
}

/// Runs the command on a value's row. Returns the number of ways in which it ran.
pub(crate) fn check_command(alloc: Global, registry: &[u8], row: &Row<'_>) -> Result<u64, Wrong> {
    let wanted = wanted(alloc, row.json, &row.whole_refusal(alloc)?)?;
    'steps: for step in STEPS {
        let devices = Devices::over(alloc, registry, &row.bytes, step);
        let (ran, failed) = devices.run(alloc, job_of(row));
        check_ran(alloc, Way::Command(step), &wanted, &ran)?;
        check_same(alloc, Way::Command(step), NONE, failed)?;
    }
    Ok(2)
}

/// Checks that the run answered as the row says. If the words' parser rejects them, standard error
/// only has to hold some text.
fn check_columns(
    alloc: Global,
    way: Way,
    columns: (&str, &str, &str),
    ran: &Ran,
) -> Result<(), Wrong> {
    let (status, out, err) = columns;
    check_same(
        alloc,
        way,
        parsed(status, "a number")?,
        u64::from(ran.status),
    )?;
    check_bytes(alloc, way, unescaped(alloc, out)?.as_bytes(), &ran.out)?;
    if err == "clap" {
        return check_same(alloc, way, false, ran.err.is_empty());
    }
    check_bytes(alloc, way, unescaped(alloc, err)?.as_bytes(), &ran.err)
}

/// Checks the words of a row, whose third column names a row of a table or spells bytes. Returns
/// the number of ways in which they were checked.
pub(crate) fn check_words(
    alloc: Global,
    named: &Registries<'_>,
    columns: &[&str],
) -> Result<u64, Wrong> {
    let [_, line, _, value, status, out, err] = columns else {
        return Err(Wrong::Column("one of seven"));
    };
    let files = Files {
        registry: named.bytes_of(alloc, columns, 2)?,
        value: bytes_of(alloc, value)?,
    };
    let words = words_of(alloc, line)?;
    'steps: for step in STEPS {
        let (ran, failed) = files.run_words(alloc, &words, step);
        check_same(alloc, Way::Command(step), ran.status == 3, failed)?;
        check_columns(alloc, Way::Command(step), (status, out, err), &ran)?;
    }
    Ok(2)
}
