//! The parts of a job that its steps need.

ghost use Rattle.std.specs.Prelude.{◌≡◌};
ghost use Rattle.scale_tool.specs.Answer.{decode_options, is_hex, value_job};
ghost use Rattle.scale_tool.specs.Reported.{job_name};

use crate::form::{Form, ValueJob};
use command_line::{DecodeJob, Job, ValueSource, Wanted};
use scale_calls::OpenOptions;

/// Returns the name that the job has for the type of its value, or an empty text.
pub(crate) fn job_name(job: &Job) -> &str
    ensures { result.now ≡ job_name job.now }
{
    match job {
        Job::Types { .. } | Job::Names => "",
        Job::Decode(job) => match &job.wanted {
            Wanted::Id(_) => "",
            Wanted::Name(name) => name.as_str(),
        },
    }
}

/// Returns how the registry of the value's type is opened.
pub(crate) fn decode_options(job: &DecodeJob) -> OpenOptions
    ensures { result ≡ decode_options job.now }
{
    OpenOptions {
        metadata: job.metadata,
        bits: job.bits,
    }
}

/// Returns whether the value's file holds digits.
fn is_hex(source: ValueSource) -> bool
    ensures { result ≡ is_hex source }
{
    match source {
        ValueSource::Hex => true,
        ValueSource::Raw | ValueSource::Metadata => false,
    }
}

/// Returns the value of the job, of the type at the position `id`.
pub(crate) fn value_job(job: &DecodeJob, id: u32) -> ValueJob
    ensures { result ≡ value_job id job.now }
{
    ValueJob {
        id,
        limits: job.limits,
        form: Form {
            hex: is_hex(job.source),
            opaque: job.opaque,
        },
    }
}
