//! The command line, as `clap` reads it.

ghost use Rattle.std.specs.Prelude.{◌≡◌, ◌++◌, IfOk, IfErr, map, true, false, codes};
ghost use Rattle.clap.specs.Words.{FailsBy, app_of, fault_of, found_of, rows_of, rule_of, new_app};
ghost use Rattle.clap.specs.Words.{matches_of, subcommand_of, subcommand_rows_of, takes, kind_of};
ghost use Rattle.clap.specs.Words.{with_rule, with_subcommand};
ghost use Rattle.clap.specs.declared.Command.TheViews.{out-Command};
ghost use Rattle.command_line.specs.Line.{decode, decode_flags, decode_words, flag, leaf, line};
ghost use Rattle.command_line.specs.Line.{names, number_option, optional_word, required_word};
ghost use Rattle.command_line.specs.Line.{types, with_version_and_subcommand};

use clap::error::ErrorKind;
use clap::{Arg, ArgAction, ArgMatches, Command, Error};
use std::alloc::{AllocError, Global};

/// The version of the command, which is that of the library.
const VERSION: &str = "0.1.0";

/// The end of the help of the program.
const NOTES: &str = "\
Exit status:
  0  the answer was written to standard output
  1  the registry, the type or the value is refused; one line on standard error
     reports the reason and its place in bytes
  2  the command line is wrong
  3  a file does not open, or a read or a write failed
  4  there is not enough memory

Examples:
  scaleview types registry.scale
  scaleview names chain.metadata
  scaleview decode registry.scale 0 value.scale
  scaleview decode chain.metadata storage:System.Account account.scale";

/// The end of the help of `types`.
const TYPES_NOTES: &str = "\
Each line has the position of a type, its class, its kind and its path as JSON text.
With --metadata the first line is `metadata N`, where N is the version.

Exit status: see scaleview --help

Examples:
  scaleview types registry.scale
  scaleview types chain.metadata --metadata";

/// The end of the help of `names`.
const NAMES_NOTES: &str = "\
Each line has a name and the position of its type, with a space between them.

Exit status: see scaleview --help

Example:
  scaleview names chain.metadata";

/// The end of the help of `decode`.
const DECODE_NOTES: &str = "\
Names:
  extrinsic, call, event, error
  storage:PALLET.ENTRY, key:PALLET.ENTRY, constant:PALLET.CONSTANT
  calls:PALLET, events:PALLET, errors:PALLET
  result:API.METHOD, params:API.METHOD
  custom:NAME

Exit status: see scaleview --help

Examples:
  scaleview decode registry.scale 0 value.scale
  scaleview decode chain.metadata 3 value.hex --metadata --hex --depth 16
  scaleview decode chain.metadata storage:System.Account account.scale
  scaleview decode chain.metadata constant:System.BlockHashCount
  scaleview decode chain.metadata extrinsic extrinsic.scale --memory 1000000";

fn required_word<'a>(alloc: Global, id: &'a str, help: &'a str) -> Arg<'a>
    ensures rule { rule_of result ≡ required_word id.now }
    ensures local { result.global ≡ false }
{
    Arg::new(alloc, id).required(true).help(help)
}

fn optional_word<'a>(alloc: Global, id: &'a str, help: &'a str) -> Arg<'a>
    ensures rule { rule_of result ≡ optional_word id.now }
    ensures local { result.global ≡ false }
{
    Arg::new(alloc, id).help(help)
}

fn flag<'a>(alloc: Global, id: &'a str, help: &'a str) -> Arg<'a>
    ensures rule { rule_of result ≡ flag id.now }
    ensures local { result.global ≡ false }
{
    Arg::new(alloc, id)
        .long(id)
        .action(ArgAction::SetTrue)
        .help(help)
}

fn number_option<'a>(alloc: Global, id: &'a str, letter: &'a str, help: &'a str) -> Arg<'a>
    ensures rule { rule_of result ≡ number_option id.now }
    ensures local { result.global ≡ false }
{
    Arg::new(alloc, id).long(id).value_name(letter).help(help)
}

/// Returns a command without arguments.
fn plain<'a>(alloc: Global, name: &'a str, about: &'a str, notes: &'a str) -> Command<'a>
    ensures app { app_of result ≡ new_app name.now }
    ensures local { (out-Command result).has_globals ≡ false }
{
    Command::new(alloc, name).about(about).after_help(notes)
}

/// Returns the command with one more argument.
fn with<'a>(command: Command<'a>, arg: Arg<'a>) -> Result<Command<'a>, AllocError>
    requires local { (out-Command command).has_globals ≡ false }
    requires own { arg.global ≡ false }
    ensures app { IfOk result
        (λ c. app_of c ≡ with_rule (app_of command.entry) (rule_of arg.entry)) }
    ensures local { IfOk result (λ c. (out-Command c).has_globals ≡ false) }
{
    command.arg(arg)
}

/// Returns the program without its subcommands.
fn top<'a>(alloc: Global) -> Command<'a>
    ensures { app_of result ≡ with_version_and_subcommand (new_app (codes "scaleview")) }
{
    let about = "Shows SCALE values by a registry of their types";
    plain(alloc, "scaleview", about, NOTES)
        .version(VERSION)
        .subcommand_required(true)
}

/// Returns the command with one more subcommand.
fn with_subcommand<'a>(command: Command<'a>, sub: Command<'a>) -> Result<Command<'a>, AllocError>
    requires { (out-Command sub).has_globals ≡ false }
    ensures { IfOk result
        (λ c. app_of c ≡ with_subcommand (app_of command.entry) (app_of sub.entry).top) }
{
    command.subcommand(sub)
}

fn types_command<'a>(alloc: Global) -> Result<Command<'a>, AllocError>
    ensures app { IfOk result (λ c. app_of c ≡ types) }
    ensures local { IfOk result (λ c. (out-Command c).has_globals ≡ false) }
{
    let command = plain(
        alloc,
        "types",
        "Shows the types of a registry, a line each: position, class, kind and path",
        TYPES_NOTES,
    );
    let file = "The file of the registry, as raw bytes";
    let command = with(command, required_word(alloc, "FILE", file))?;
    let metadata = "FILE is metadata of version 14 or 15; the first line is then `metadata N`";
    with(command, flag(alloc, "metadata", metadata))
}

fn names_command<'a>(alloc: Global) -> Result<Command<'a>, AllocError>
    ensures app { IfOk result (λ c. app_of c ≡ names) }
    ensures local { IfOk result (λ c. (out-Command c).has_globals ≡ false) }
{
    let command = plain(
        alloc,
        "names",
        "Shows the names that a chain's metadata gives to types, a line each: name and position",
        NAMES_NOTES,
    );
    let file = "The file of the metadata of version 14 or 15, as raw bytes";
    with(command, required_word(alloc, "FILE", file))
}

/// Returns `decode` with its words alone.
fn decode_with_words<'a>(alloc: Global) -> Result<Command<'a>, AllocError>
    ensures app { IfOk result (λ c. app_of c ≡ leaf (codes "decode") decode_words) }
    ensures local { IfOk result (λ c. (out-Command c).has_globals ≡ false) }
{
    let command = plain(alloc, "decode", "Shows a value as JSON", DECODE_NOTES);
    let file = "The file of the registry, or of the metadata with a name, as raw bytes";
    let command = with(command, required_word(alloc, "FILE", file))?;
    let what = "The value's type: its position from 0 to 4294967295, or a name as below";
    let command = with(command, required_word(alloc, "WHAT", what))?;
    let value = "The file of the value, as raw bytes or, with --hex, as text; \
        optional with a name whose value the metadata has";
    with(command, optional_word(alloc, "VALUEFILE", value))
}

/// Returns `decode` with its words and flags.
fn decode_with_flags<'a>(alloc: Global) -> Result<Command<'a>, AllocError>
    ensures app { IfOk result
        (λ c. app_of c ≡ leaf (codes "decode") (decode_words ++ decode_flags)) }
    ensures local { IfOk result (λ c. (out-Command c).has_globals ≡ false) }
{
    let command = decode_with_words(alloc)?;
    let metadata = "FILE is metadata of version 14 or 15; with a name it always is";
    let command = with(command, flag(alloc, "metadata", metadata))?;
    let hex = "VALUEFILE is hexadecimal text; 0x in front and a line end are optional";
    let command = with(command, flag(alloc, "hex", hex))?;
    let opaque = "The value follows its length in bytes; with the name extrinsic it always does";
    let command = with(command, flag(alloc, "opaque", opaque))?;
    let bits = "Bit sequences are read whose words are u8, u16, u32 or u64; \
        unused bits must be 0";
    with(command, flag(alloc, "bits", bits))
}

fn decode_command<'a>(alloc: Global) -> Result<Command<'a>, AllocError>
    ensures app { IfOk result (λ c. app_of c ≡ decode) }
    ensures local { IfOk result (λ c. (out-Command c).has_globals ≡ false) }
{
    let command = decode_with_flags(alloc)?;
    let depth = "The greatest depth of a part of the value, which itself has depth 0, \
        from 0 to 1024; 64 if absent";
    let command = with(command, number_option(alloc, "depth", "D", depth))?;
    let bytes = "The greatest number of bytes of the value, from 0 to 1099511627776; \
        16777216 if absent";
    let command = with(command, number_option(alloc, "bytes", "N", bytes))?;
    let memory = "The greatest number of bytes of memory for the value and its text, \
        from 0 to 18446744073709551615; unlimited if absent";
    with(command, number_option(alloc, "memory", "N", memory))
}

fn line_command<'a>(alloc: Global) -> Result<Command<'a>, AllocError>
    ensures { IfOk result (λ c. app_of c ≡ line) }
{
    let types = types_command(alloc)?;
    let names = names_command(alloc)?;
    let decode = decode_command(alloc)?;
    let command = with_subcommand(top(alloc), types)?;
    let command = with_subcommand(command, names)?;
    let command = with_subcommand(command, decode)?;
    Ok(command)
}

/// Parses the words of a command line, the program's name first.
///
/// # Errors
///
/// What `clap` reports: a usage error, the help or the version that the words ask for, or a failed
/// allocation.
pub(crate) fn line_matches<'a>(alloc: Global, words: &'a [&'a str]) -> Result<ArgMatches<'a>, Error>
    ensures found { IfOk result
        (λ m. rows_of (found_of m) ≡ matches_of line (map (λ s. s.now) words.entry.now)) }
    ensures subcommand { IfOk result
        (λ m. subcommand_rows_of m ≡ subcommand_of line (map (λ s. s.now) words.entry.now)) }
    ensures kinds { FailsBy (fault_of line (map (λ s. s.now) words.entry.now)) result }
    ensures taken { IfErr result (λ e. takes line (map (λ s. s.now) words.entry.now) ≡ true →
        kind_of e ≡ ErrorKind.OutOfMemory) }
{
    let line = line_command(alloc)?;
    line.try_get_matches_from(words)
}
