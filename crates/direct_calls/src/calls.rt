//! The calls. Each is made once, and a line reports its outcome. There is no line if an allocation
//! fails before the call.

use crate::sample;
use json_core::{PrintFault, json_text, json_to_slice, print, to_json};
use registry_core::{
    Registry, RegistryFault, RegistryReason, Version, read_metadata, read_registry, write_registry,
};
use scale_calls::{ValueRefusal, value_text};
use scale_core::Sink;
use scale_tool::{Job, JobFault, job};
use serde_json::Value;
use std::alloc::Global;
use value_core::{Limits, Value as Sampled};
use widths_core::{CheckFault, Checked};

/// The line of an outcome that is neither the right answer nor an allocation failure.
const OTHER: &str = "direct_calls: neither the right answer nor want of memory\n";

/// The capacity for the output of `print` and `json_to_slice`, in bytes, which is more than the
/// text needs.
const ROOM: usize = 256;

/// Returns `line` if `is_so`, and [`OTHER`] otherwise.
pub(crate) fn line_where(is_so: bool, line: &'static str) -> &'static str {
    if is_so { line } else { OTHER }
}

fn print_line(alloc: Global, value: &Sampled<'_, Global>) -> &'static str {
    let mut buffer = [0u8; ROOM];
    let mut sink = Sink::new(buffer.as_mut_slice());
    let printed = print(alloc, value, &mut sink);
    let failed = sink.failed();
    let left = sink.into_inner().len();
    let text = sample::TEXT.as_bytes();
    match printed {
        Ok(()) => line_where(
            !failed && left == ROOM - text.len() && buffer.starts_with(text),
            "print: the whole text is written\n",
        ),
        Err(PrintFault::OutOfMemory(_)) => line_where(
            !failed && left == ROOM,
            "print: out of memory, nothing is written\n",
        ),
        Err(PrintFault::Write(_)) => OTHER,
    }
}

fn json_text_line(alloc: Global, value: &Sampled<'_, Global>) -> &'static str {
    match json_text(alloc, alloc, value) {
        Ok(text) => line_where(text.as_str() == sample::TEXT, "json_text: the whole text\n"),
        Err(_) => "json_text: out of memory\n",
    }
}

fn json_to_slice_line(alloc: Global, value: &Sampled<'_, Global>) -> &'static str {
    let mut buffer = [0u8; ROOM];
    let answer = json_to_slice(alloc, alloc, value, &mut buffer);
    let text = sample::TEXT.as_bytes();
    match answer {
        Ok(len) => line_where(
            len == text.len() && buffer.starts_with(text),
            "json_to_slice: the whole text is in front\n",
        ),
        Err(_) => line_where(
            buffer == [0; ROOM],
            "json_to_slice: out of memory, nothing is written\n",
        ),
    }
}

pub(crate) fn value_text_line(alloc: Global) -> Option<&'static str> {
    let checked = sample::checked(alloc)?;
    let limits = Limits::default_limits();
    let shown = value_text(alloc, &checked, sample::TYPE.0, limits, sample::VALUE);
    Some(match shown {
        Ok(text) => line_where(
            text.as_str() == sample::TEXT,
            "value_text: the whole text\n",
        ),
        Err(ValueRefusal::Memory(_)) => "value_text: out of memory\n",
        Err(_) => OTHER,
    })
}

/// Returns whether the value is shown as the sample's text.
fn is_shown(alloc: Global, value: &Sampled<'_, Global>) -> bool {
    match json_text(alloc, alloc, value) {
        Ok(text) => text.as_str() == sample::TEXT,
        Err(_) => false,
    }
}

fn to_json_line(alloc: Global, value: &Sampled<'_, Global>) -> &'static str {
    match to_json(alloc, value) {
        Ok(Value::Object(members)) => line_where(
            members.len() == sample::MEMBERS,
            "to_json: the object of the members\n",
        ),
        Ok(_other) => OTHER,
        Err(_) => line_where(
            is_shown(alloc, value),
            "to_json: out of memory, the value is unchanged\n",
        ),
    }
}

/// A call that shows a value.
#[derive(Clone, Copy)]
pub(crate) enum ValueCall {
    Print,
    JsonText,
    JsonToSlice,
    ToJson,
}

/// Makes the call on the sample's value, and returns its line.
pub(crate) fn value_line(alloc: Global, call: ValueCall) -> Option<&'static str> {
    let checked = sample::checked(alloc)?;
    let value = sample::value(alloc, &checked)?;
    Some(match call {
        ValueCall::Print => print_line(alloc, &value),
        ValueCall::JsonText => json_text_line(alloc, &value),
        ValueCall::JsonToSlice => json_to_slice_line(alloc, &value),
        ValueCall::ToJson => to_json_line(alloc, &value),
    })
}

/// Returns whether this is the registry of the sample, by comparing its encoding.
fn is_sample(alloc: Global, registry: &Registry) -> bool {
    match write_registry(alloc, registry) {
        Ok(bytes) => bytes.as_slice() == sample::registry_bytes(),
        Err(_) => false,
    }
}

pub(crate) fn new_line(alloc: Global) -> Option<&'static str> {
    let registry = sample::registry(alloc)?;
    Some(match Checked::new(alloc, registry) {
        Ok(_) => "Checked::new: checked\n",
        Err((CheckFault::OutOfMemory(_), registry)) => line_where(
            is_sample(alloc, &registry) && Checked::new(alloc, registry).is_ok(),
            "Checked::new: out of memory, the registry is back, a second call succeeds\n",
        ),
        Err(_) => OTHER,
    })
}

/// Returns `done` if the registry was read from `len` bytes, `refused` if an allocation failed, and
/// [`OTHER`] otherwise.
fn read_line(
    read: Result<(Registry, usize), RegistryFault>,
    len: usize,
    done: &'static str,
    refused: &'static str,
) -> &'static str {
    match read {
        Ok((_, taken)) if taken == len => done,
        Err(
            RegistryFault {
                reason: RegistryReason::OutOfMemory(_),
                at: 0,
            },
        ) => refused,
        _ => OTHER,
    }
}

pub(crate) fn read_registry_line(alloc: Global) -> &'static str {
    read_line(
        read_registry(alloc, sample::registry_bytes()),
        sample::registry_bytes().len(),
        "read_registry: read\n",
        "read_registry: OutOfMemory at 0\n",
    )
}

pub(crate) fn read_metadata_line(alloc: Global) -> &'static str {
    let read = match read_metadata(alloc, sample::METADATA) {
        Ok((registry, taken, Version::V14)) => Ok((registry, taken)),
        Ok((_, _, Version::V15)) => return OTHER,
        Err(fault) => Err(fault),
    };
    read_line(
        read,
        sample::METADATA.len(),
        "read_metadata: read\n",
        "read_metadata: OutOfMemory at 0\n",
    )
}

pub(crate) fn write_registry_line(alloc: Global) -> Option<&'static str> {
    let registry = sample::registry(alloc)?;
    Some(match write_registry(alloc, &registry) {
        Ok(bytes) => line_where(
            bytes.as_slice() == sample::registry_bytes(),
            "write_registry: written\n",
        ),
        Err(_) => line_where(
            is_sample(alloc, &registry),
            "write_registry: out of memory, a second call succeeds\n",
        ),
    })
}

/// Returns the line of `job` on the words of a command line, the program's name first.
pub(crate) fn job_line(alloc: Global, words: &[&str]) -> &'static str {
    match job(alloc, words) {
        Ok((Job::Types { .. }, _, None)) => "job: types\n",
        Ok((Job::Decode(_), _, Some(_))) => "job: decode\n",
        Ok(_) => OTHER,
        Err(JobFault::Line { .. }) => "job: what clap says of the line\n",
        Err(JobFault::Usage) => "job: usage\n",
        Err(JobFault::Memory(_)) => "job: out of memory\n",
    }
}
