//! The job that a command line names.

ghost use Rattle.std.specs.Prelude.{◌≡◌, IfOk, IfErr, map, option_map, string_bytes};
ghost use Rattle.clap.specs.Words.{found_of, rows_of, subcommand_of, subcommand_rows_of};
ghost use Rattle.command_line.specs.Explained.{IsFaultOfWords};
ghost use Rattle.command_line.specs.Line.{FitsOrNone, IsDecode, IsJob, IsJobOf, IsServed};
ghost use Rattle.command_line.specs.Line.{IsUsageIf, NamesNone, NamesNoneOf, line};
ghost use Rattle.command_line.specs.declared.jobs.JobFault.TheVariants.{Memory};
ghost use Rattle.command_line.specs.declared.task.Job.TheVariants.{Decode};

use crate::commands::line_matches;
use crate::matches::{budget, flag, limit, source, subcommand, text, wanted};
use crate::task::{DecodeJob, Job};
use clap::error::ErrorKind;
use clap::{ArgMatches, Error};
use growth_core::{Refused, reported, string_from};
use limits_core::{Limits, MAX_DEPTH};
use std::alloc::Global;

/// The greatest limit of bytes that is accepted.
const MAX_BYTES: u64 = 1 << 40;

/// Why a command line names no job.
#[derive(Debug, Drop)]
pub enum JobFault {
    /// What `clap` reports of the line: the help or the version that it asks for (status 0, or 3 if
    /// it can't be written), or what is wrong with it (status 2).
    Line {
        /// The error of `clap`, which is no failed allocation.
        error: Error,
        /// Its text.
        text: String,
    },
    /// A number is not ASCII digits alone or out of its range, or VALUEFILE is missing where it is
    /// required (status 2).
    Usage,
    /// An allocation failed (status 4).
    Memory(Refused),
}

impl From<Refused> for JobFault {
    ghost from_gives = { λ refused f. f ≡ Memory refused };

    fn from(refused: Refused) -> JobFault {
        JobFault::Memory(refused)
    }
}

/// Returns the job of `decode`.
fn decode_job(alloc: Global, matches: &ArgMatches<'_>) -> Result<DecodeJob, JobFault>
    ensures job { FitsOrNone (IsDecode (rows_of (found_of matches.now))) result }
    ensures served { IfOk result (λ j. IsServed (Decode j)) }
{
    let wanted = wanted(alloc, matches, "WHAT")?;
    let source = source(matches)?;
    let absent = Limits::default_limits();
    let depth = limit(
        matches,
        "depth",
        u64::from(absent.depth),
        u64::from(MAX_DEPTH),
    )?;
    let bytes = limit(matches, "bytes", absent.bytes, MAX_BYTES)?;
    let memory = budget(matches, "memory")?;
    let limits = Limits {
        depth: depth as u16,
        bytes,
    };
    Ok(DecodeJob {
        wanted,
        source,
        metadata: flag(matches, "metadata"),
        bits: flag(matches, "bits"),
        opaque: flag(matches, "opaque"),
        limits,
        memory,
    })
}

/// Returns the job of a subcommand.
fn subcommand_job(
    alloc: Global,
    name: &str,
    matches: &ArgMatches<'_>,
) -> Result<(Job, Option<String>), JobFault>
    ensures job { IfOk result
        (λ j. IsJobOf name.now (rows_of (found_of matches.now)) j.0 (option_map string_bytes j.1)) }
    ensures none { IfErr result
        (IsUsageIf (NamesNoneOf name.now (rows_of (found_of matches.now)))) }
    ensures served { IfOk result (λ j. IsServed j.0) }
{
    match name {
        "types" => {
            let metadata = flag(matches, "metadata");
            Ok((Job::Types { metadata }, None))
        }
        "names" => Ok((Job::Names, None)),
        "decode" => {
            let job = decode_job(alloc, matches)?;
            let value_file = owned(alloc, text(matches, "VALUEFILE"))?;
            Ok((Job::Decode(job), value_file))
        }
        _ => Err(JobFault::Usage),
    }
}

/// Returns the job that the matches name, its FILE and VALUEFILE.
fn job_of(
    alloc: Global,
    matches: &ArgMatches<'_>,
) -> Result<(Job, String, Option<String>), JobFault>
    ensures job { IfOk result (λ j. IsJob j.0 (string_bytes j.1) (option_map string_bytes j.2)
        (subcommand_rows_of matches.now)) }
    ensures none { IfErr result (IsUsageIf (NamesNone (subcommand_rows_of matches.now))) }
    ensures served { IfOk result (λ j. IsServed j.0) }
{
    let Some((name, inner)) = subcommand(matches) else {
        return Err(JobFault::Usage);
    };
    let Some(file) = text(inner, "FILE") else {
        return Err(JobFault::Usage);
    };
    let (job, value_file) = subcommand_job(alloc, name, inner)?;
    let file = string_from(alloc, file)?;
    Ok((job, file, value_file))
}

/// Returns a copy of the value file's name, if there is one.
fn owned(alloc: Global, text: Option<&str>) -> Result<Option<String>, Refused>
    ensures { IfOk result (λ owned.
        option_map string_bytes owned ≡ option_map (λ s. s.now) text.entry) }
{
    match text {
        Some(text) => Ok(Some(string_from(alloc, text)?)),
        None => Ok(None),
    }
}

/// Returns the job that the words of a command line name, its FILE and, if the job has one, its
/// VALUEFILE. The first word is the program's name.
///
/// # Errors
///
/// - `Line` if `clap` rejects the words (status 2: an unknown word or option, or an argument that
///   is missing, left over or given twice), or if they ask for help or the version (status 0).
/// - `Usage` (status 2) if the word for the type is neither a name nor ASCII digits alone up to
///   4294967295, a number of an option is not ASCII digits alone or out of its range, VALUEFILE is
///   missing after a position, or `--hex` is given without VALUEFILE. Leading zeros are allowed; a
///   sign, a blank or an empty word is rejected.
/// - `Memory` (status 4) if an allocation fails.
pub fn job(alloc: Global, words: &[&str]) -> Result<(Job, String, Option<String>), JobFault>
    ensures ok { IfOk result (λ j. IsJob j.0 (string_bytes j.1) (option_map string_bytes j.2)
        (subcommand_of line (map (λ s. s.now) words.now))) }
    ensures served { IfOk result (λ j. IsServed j.0) }
    ensures err { IfErr result (IsFaultOfWords (map (λ s. s.now) words.now)) }
{
    match line_matches(alloc, words) {
        Ok(matches) => job_of(alloc, &matches),
        Err(error) if error.kind() == ErrorKind::OutOfMemory => {
            Err(JobFault::Memory(Refused::of_library()))
        }
        Err(error) => {
            let text = reported(error.to_string(alloc))?;
            Err(JobFault::Line { error, text })
        }
    }
}
