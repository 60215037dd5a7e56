//! Runs of the command's engine over memory: what it answers, writes and reports, and which devices
//! have failed.

use crate::jobs::served;
use scale_core::{Sink, Source};
use scale_tests::paced::{PacedReader, PacedWriter, Then};
use scale_tool::{Job, run};
use std::alloc::{AllocError, Global};

/// The result of a run: its status, and what it wrote to standard output and to standard error.
#[derive(Drop)]
pub struct Ran {
    pub status: u8,
    pub out: Vec<u8>,
    pub err: Vec<u8>,
}

/// Returns the result of the command if no device fails: for a value its JSON, and for a rejected
/// one the error as it is printed.
///
/// # Errors
///
/// `AllocError` if an allocation fails.
pub fn wanted(alloc: Global, json: &str, refusal: &str) -> Result<Ran, AllocError> {
    if refusal.is_empty() {
        return Ok(Ran {
            status: 0,
            out: format!(in alloc; "{json}\n")?.into_bytes(),
            err: Vec::new(alloc),
        });
    }
    Ok(Ran {
        status: 1,
        out: Vec::new(alloc),
        err: format!(in alloc; "scaleview: value: {refusal}\n")?.into_bytes(),
    })
}

/// Which devices have failed.
#[derive(Clone, Copy, Debug, PartialEq, Eq)]
pub struct Failed {
    pub registry: bool,
    pub value: bool,
    pub out: bool,
    pub err: bool,
}

/// No device has failed.
pub const NONE: Failed = Failed {
    registry: false,
    value: false,
    out: false,
    err: false,
};

/// The devices of one run.
#[derive(Drop)]
pub struct Devices<'a> {
    pub registry: PacedReader<'a>,
    pub value: PacedReader<'a>,
    pub out: PacedWriter,
    pub err: PacedWriter,
}

impl<'a> Devices<'a> {
    /// Creates devices over these bytes that move at most `step` bytes a call and don't fail.
    pub fn over(alloc: Global, registry: &'a [u8], value: &'a [u8], step: usize) -> Devices<'a> {
        Devices {
            registry: PacedReader::new(registry, step, Then::GoesOn),
            value: PacedReader::new(value, step, Then::GoesOn),
            out: PacedWriter::new(alloc, 0, step, Then::GoesOn),
            err: PacedWriter::new(alloc, 0, step, Then::GoesOn),
        }
    }

    /// Runs the job, and returns its result and which devices failed.
    pub fn run(self, alloc: Global, job: Job) -> (Ran, Failed) {
        let mut registry = Source::new(self.registry);
        let mut value = Source::new(self.value);
        let mut out = Sink::new(self.out);
        let mut err = Sink::new(self.err);
        let job = served(job);
        let status = run(alloc, job, &mut registry, &mut value, &mut out, &mut err);
        let failed = Failed {
            registry: registry.failed(),
            value: value.failed(),
            out: out.failed(),
            err: err.failed(),
        };
        let ran = Ran {
            status,
            out: out.into_inner().taken,
            err: err.into_inner().taken,
        };
        (ran, failed)
    }
}
