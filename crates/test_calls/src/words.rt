//! Command lines, run as the program runs them.

use crate::ran::{Devices, NONE, Ran};
use scale_core::Sink;
use scale_tests::paced::{PacedReader, Then};
use scale_tool::{Device, JobFault, explain, job, unopened};
use std::alloc::Global;

/// The files of a row.
#[derive(Drop)]
pub struct Files {
    pub registry: Vec<u8>,
    pub value: Vec<u8>,
}

impl Files {
    /// Opens a file by its name. `r` holds the registry, `v` holds the value, and `.` opens but
    /// cannot be read. No other file opens.
    fn open(&self, name: &str, step: usize) -> Option<PacedReader<'_>> {
        match name {
            "r" => Some(PacedReader::new(&self.registry, step, Then::GoesOn)),
            "v" => Some(PacedReader::new(&self.value, step, Then::GoesOn)),
            "." => Some(PacedReader::new(b"", step, Then::Fails)),
            _ => None,
        }
    }

    /// Runs the words as the program does, over devices of at most `step` bytes a call. Returns the
    /// result, and whether a device failed.
    pub fn run_words(&self, alloc: Global, words: &[&str], step: usize) -> (Ran, bool) {
        let (job, file, value_file) = match job(alloc, words) {
            Ok(job) => job,
            Err(fault) => return explained_ran(alloc, fault),
        };
        let Some(registry) = self.open(file.as_str(), step) else {
            return unopened_ran(alloc, Device::Registry);
        };
        let mut devices = Devices::over(alloc, b"", b"", step);
        devices.registry = registry;
        if let Some(value_file) = value_file {
            let Some(value) = self.open(value_file.as_str(), step) else {
                return unopened_ran(alloc, Device::Value);
            };
            devices.value = value;
        }
        let (ran, failed) = devices.run(alloc, job);
        (ran, failed != NONE)
    }
}

/// Returns the program's answer if a file does not open.
fn unopened_ran(alloc: Global, device: Device) -> (Ran, bool) {
    let mut err = Sink::new(Vec::new(alloc));
    let status = unopened(device, &mut err);
    let ran = Ran {
        status,
        out: Vec::new(alloc),
        err: err.into_inner(),
    };
    (ran, true)
}

/// Returns the program's answer if the words name no job.
fn explained_ran(alloc: Global, fault: JobFault) -> (Ran, bool) {
    let mut out = Sink::new(Vec::new(alloc));
    let mut err = Sink::new(Vec::new(alloc));
    let status = explain(fault, &mut out, &mut err);
    let ran = Ran {
        status,
        out: out.into_inner(),
        err: err.into_inner(),
    };
    (ran, false)
}
