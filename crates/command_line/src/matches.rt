//! What the matches of a subcommand say.

ghost use Rattle.std.specs.Prelude.{◌≡◌, ◌≤◌, IfOk, SomeIff, codes, option_map, true};
ghost use Rattle.std.specs.Str.Parse.{IsNumeral, digits_value};
ghost use Rattle.clap.specs.Words.{first_of, found_of, rows_of, subcommand_rows_of};
ghost use Rattle.command_line.specs.Line.{FitsOrNone, IsBudget, IsLimit, IsSource};
ghost use Rattle.command_line.specs.Line.{IsWanted, is_given, says_name};

use crate::jobs::JobFault;
use crate::names::is_name;
use crate::task::{ValueSource, Wanted};
use clap::ArgMatches;
use growth_core::string_from;
use std::alloc::Global;

/// Returns the name of the subcommand and its matches.
pub(crate) fn subcommand<'m, 'a>(
    matches: &'m ArgMatches<'a>,
) -> Option<(&'a str, &'m ArgMatches<'a>)>
    ensures { option_map (λ sub. (sub.0.now, rows_of (found_of sub.1.now))) result
        ≡ subcommand_rows_of matches.now }
{
    matches.subcommand()
}

/// Returns the text that the words give for an argument.
pub(crate) fn text<'a>(matches: &ArgMatches<'a>, id: &str) -> Option<&'a str>
    ensures { option_map (λ s. s.now) result ≡ first_of id.now (rows_of (found_of matches.now)) }
{
    matches.get_str(id)
}

/// Returns whether a flag is given.
pub(crate) fn flag(matches: &ArgMatches<'_>, id: &str) -> bool
    ensures { result ≡ is_given id.now (rows_of (found_of matches.now)) }
{
    match text(matches, id) {
        Some(text) => text == "true",
        None => false,
    }
}

/// Returns the number that ASCII digits alone spell, if it is at most `greatest`.
fn number(text: &str, greatest: u64) -> Option<u64>
    ensures { SomeIff result (IsNumeral 10 text.now × (digits_value 10 text.now ≤ greatest))
        (digits_value 10 text.now) }
{
    // `parse` also takes a plus sign.
    if text.starts_with('+') {
        return None;
    }
    let number = text.parse().ok()?;
    if number > greatest {
        return None;
    }
    Some(number)
}

/// Returns the limit that an option sets, or `absent` without the option.
pub(crate) fn limit(
    matches: &ArgMatches<'_>,
    id: &str,
    absent: u64,
    greatest: u64,
) -> Result<u64, JobFault>
    requires { absent ≤ greatest }
    ensures limit { FitsOrNone
        (IsLimit greatest absent (first_of id.now (rows_of (found_of matches.now)))) result }
    ensures fits { IfOk result (λ n. n ≤ greatest) }
{
    match text(matches, id) {
        Some(text) => number(text, greatest).ok_or(JobFault::Usage),
        None => Ok(absent),
    }
}

/// Returns the budget in bytes, if there is one.
pub(crate) fn budget(matches: &ArgMatches<'_>, id: &str) -> Result<Option<u64>, JobFault>
    ensures { FitsOrNone (IsBudget (first_of id.now (rows_of (found_of matches.now)))) result }
{
    match text(matches, id) {
        Some(text) => match number(text, u64::MAX) {
            Some(bytes) => Ok(Some(bytes)),
            None => Err(JobFault::Usage),
        },
        None => Ok(None),
    }
}

/// Returns the type that a word names, or whose position it spells.
pub(crate) fn wanted(alloc: Global, matches: &ArgMatches<'_>, id: &str) -> Result<Wanted, JobFault>
    ensures { FitsOrNone (IsWanted (first_of id.now (rows_of (found_of matches.now)))) result }
{
    let Some(word) = text(matches, id) else {
        return Err(JobFault::Usage);
    };
    if is_name(word) {
        return Ok(Wanted::Name(string_from(alloc, word)?));
    }
    match number(word, u64::from(u32::MAX)) {
        Some(id) => Ok(Wanted::Id(id as u32)),
        None => Err(JobFault::Usage),
    }
}

/// Returns whether the word for the type is a name.
fn says_name(matches: &ArgMatches<'_>) -> bool
    ensures { result ≡ says_name (first_of (codes "WHAT") (rows_of (found_of matches.now))) }
{
    match text(matches, "WHAT") {
        Some(word) => is_name(word),
        None => false,
    }
}

/// Returns where the value's bytes are.
pub(crate) fn source(matches: &ArgMatches<'_>) -> Result<ValueSource, JobFault>
    ensures source { FitsOrNone
        (IsSource (says_name (first_of (codes "WHAT") (rows_of (found_of matches.now))))
        (is_given (codes "hex") (rows_of (found_of matches.now)))
        (first_of (codes "VALUEFILE") (rows_of (found_of matches.now)))) result }
    ensures named { IfOk result (λ s. s ≡ ValueSource.Metadata →
        says_name (first_of (codes "WHAT") (rows_of (found_of matches.now))) ≡ true) }
{
    let hex = flag(matches, "hex");
    match text(matches, "VALUEFILE") {
        Some(_) if hex => Ok(ValueSource::Hex),
        Some(_) => Ok(ValueSource::Raw),
        None if !hex && says_name(matches) => Ok(ValueSource::Metadata),
        None => Err(JobFault::Usage),
    }
}
