//! The program `direct_calls` makes one public call with the global allocator on a small built-in
//! input. It reports the outcome in a line on standard output. `examples/check-memory` makes its
//! allocations fail. The exit status is 0 if the line is written, 2 if the words name no call, and
//! 3 if the output fails.
#![tactic(auto)]

mod calls;
mod sample;
mod writing;

use calls::ValueCall;
use scale_core::Sink;
use std::alloc::{AllocError, Global};
use std::process::ExitCode;
use std::rt::Env;
use std::{env, io};
use value_core::send;

const USAGE: &str =
    "usage: direct_calls print | json_text | json_to_slice | value_text | to_json | Checked::new | \
     read_registry | read_metadata | write_registry | write CALL | job [WORD]..\n";

/// Why no call was made.
#[derive(Clone, Copy)]
enum NoCall {
    /// The words or the input of the call are missing, because an allocation failed or a word is
    /// not UTF-8.
    NotReady,
    /// The words name no call.
    Usage,
}

impl From<io::Error> for NoCall {
    fn from(_error: io::Error) -> NoCall {
        NoCall::NotReady
    }
}

impl From<AllocError> for NoCall {
    fn from(_error: AllocError) -> NoCall {
        NoCall::NotReady
    }
}

/// Returns the words of the command line, the program's name first.
fn command_words<R: Env + AllocGlobal>(rt: &R) -> io::Result<Vec<String>> {
    let mut words = Vec::new(rt.alloc());
    'words: for word in env::args(rt)? {
        words.push(word)?;
    }
    Ok(words)
}

/// Returns the words as string slices.
fn lent_words(alloc: Global, words: &[String]) -> Result<Vec<&str>, AllocError> {
    let mut lent = Vec::with_capacity(alloc, words.len())?;
    'words: for word in words {
        lent.push(word.as_str())?;
    }
    Ok(lent)
}

/// Makes the call of this name, and returns its line, or `None` if its input cannot be allocated.
fn named_call(alloc: Global, name: &str) -> Result<Option<&'static str>, NoCall> {
    Ok(match name {
        "print" => calls::value_line(alloc, ValueCall::Print),
        "json_text" => calls::value_line(alloc, ValueCall::JsonText),
        "json_to_slice" => calls::value_line(alloc, ValueCall::JsonToSlice),
        "value_text" => calls::value_text_line(alloc),
        "to_json" => calls::value_line(alloc, ValueCall::ToJson),
        "Checked::new" => calls::new_line(alloc),
        "read_registry" => Some(calls::read_registry_line(alloc)),
        "read_metadata" => Some(calls::read_metadata_line(alloc)),
        "write_registry" => calls::write_registry_line(alloc),
        _ => return Err(NoCall::Usage),
    })
}

/// Makes the call that the words name, and returns its line, or `None` if its input cannot be
/// allocated.
fn call(alloc: Global, words: &[&str]) -> Result<Option<&'static str>, NoCall> {
    match words {
        [_, line @ ..] if line.first() == Some(&"job") => Ok(Some(calls::job_line(alloc, line))),
        [_, "write", name] => Ok(Some(writing::write_line(alloc, name)?.ok_or(NoCall::Usage)?)),
        [_, name] => named_call(alloc, name),
        _ => Err(NoCall::Usage),
    }
}

/// Makes the call that the command line names, and returns the line of its outcome.
fn called<R: Env + AllocGlobal>(rt: &R) -> Result<&'static str, NoCall> {
    let alloc = rt.alloc();
    let words = command_words(rt)?;
    let lent = lent_words(alloc, words.as_slice())?;
    call(alloc, lent.as_slice())?.ok_or(NoCall::NotReady)
}

fn main(rt: HostRuntime) -> ExitCode {
    let line = match called(&rt) {
        Ok(line) => line,
        Err(NoCall::NotReady) => "direct_calls: no call was made\n",
        Err(NoCall::Usage) => {
            let mut err = Sink::new(rt.stderr());
            let _ = send(&mut err, USAGE.as_bytes());
            return ExitCode::from(2);
        }
    };
    let mut out = Sink::new(rt.stdout());
    match send(&mut out, line.as_bytes()) {
        Ok(()) => ExitCode::SUCCESS,
        Err(_) => ExitCode::from(3),
    }
}
