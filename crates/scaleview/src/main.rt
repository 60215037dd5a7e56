//! The program `scaleview`: opens the files that its command line names, and exits with the
//! engine's status.
#![tactic(auto)]

use growth_core::{Refused, push, with_capacity};
use scale_core::{Sink, Source};
use scale_tool::{Device, JobFault, explain, job, run, unopened};
use std::alloc::Global;
use std::io::{self, Write};
use std::process::ExitCode;
use std::rt::{Env, Files};
use std::{env, fs};

/// Returns the words of the command line, the program's name first.
fn command_words<R: Env + AllocGlobal>(rt: &R) -> io::Result<Vec<String>> {
    let mut words = Vec::new(rt.alloc());
    for word in env::args(rt)? {
        words.push(word)?;
    }
    Ok(words)
}

/// Borrows the words.
fn lent_words(alloc: Global, words: &[String]) -> Result<Vec<&str>, Refused> {
    let mut lent = with_capacity(alloc, words.len())?;
    for word in words {
        push(&mut lent, word.as_str())?;
    }
    Ok(lent)
}

/// Opens the files of the job and runs it.
fn run_words<R: Files + AllocGlobal, W: Write, E: Write>(
    rt: &R,
    words: &[&str],
    out: &mut Sink<W>,
    err: &mut Sink<E>,
) -> u8 {
    let alloc = rt.alloc();
    let (job, file, value_file) = match job(alloc, words) {
        Ok(job) => job,
        Err(fault) => return explain(fault, out, err),
    };
    let Ok(registry) = fs::open(rt, file.as_str()) else {
        return unopened(Device::Registry, err);
    };
    let mut registry = Source::new(registry);
    let Some(value_file) = value_file else {
        let mut nothing = Source::new(io::empty());
        return run(alloc, job, &mut registry, &mut nothing, out, err);
    };
    let Ok(value) = fs::open(rt, value_file.as_str()) else {
        return unopened(Device::Value, err);
    };
    let mut value = Source::new(value);
    run(alloc, job, &mut registry, &mut value, out, err)
}

/// Runs the command line of the process. A word that is not UTF-8 is a usage error.
fn run_process<R: Env + Files + AllocGlobal, W: Write, E: Write>(
    rt: &R,
    out: &mut Sink<W>,
    err: &mut Sink<E>,
) -> u8 {
    let alloc = rt.alloc();
    let words = match command_words(rt) {
        Ok(words) => words,
        Err(error) if error.kind() == io::ErrorKind::OutOfMemory => {
            return explain(JobFault::Memory(Refused::of_library()), out, err);
        }
        Err(_) => return explain(JobFault::Usage, out, err),
    };
    match lent_words(alloc, words.as_slice()) {
        Ok(words) => run_words(rt, words.as_slice(), out, err),
        Err(refused) => explain(JobFault::Memory(refused), out, err),
    }
}

fn main(rt: HostRuntime) -> ExitCode {
    let mut out = Sink::new(rt.stdout());
    let mut err = Sink::new(rt.stderr());
    ExitCode::from(run_process(&rt, &mut out, &mut err))
}
