//! Jobs that the command serves.

ghost use Rattle.std.specs.Prelude.{◌≤◌, ◌^◌};
ghost use Rattle.command_line.specs.Line.{IsServed};

use scale_tool::{DecodeJob, Job, ValueSource, Wanted};
use value_core::Limits;

/// Returns the job that decodes raw bytes as a value of type `id`, with the default limits.
pub fn decode(id: u32) -> Job
    ensures { IsServed result }
{
    Job::Decode(DecodeJob {
        wanted: Wanted::Id(id),
        source: ValueSource::Raw,
        metadata: false,
        bits: false,
        opaque: false,
        limits: Limits::default_limits(),
        memory: None,
    })
}

/// Returns the limits, capped at the greatest that a decoder takes.
fn capped(limits: Limits) -> Limits
    ensures depth { result.depth ≤ 1024 }
    ensures bytes { result.bytes ≤ 2 ^ 40 }
{
    Limits {
        depth: limits.depth.min(1024),
        bytes: limits.bytes.min(1 << 40),
    }
}

/// Returns the job with its limits capped at the greatest that the command takes, which no row's
/// job exceeds. Only a type with a name may have its value in the metadata.
pub fn served(job: Job) -> Job
    ensures { IsServed result }
{
    match job {
        Job::Types { metadata } => Job::Types { metadata },
        Job::Names => Job::Names,
        Job::Decode(job) => {
            let source = match (&job.wanted, job.source) {
                (Wanted::Id(_), ValueSource::Metadata) => ValueSource::Raw,
                (_, source) => source,
            };
            Job::Decode(DecodeJob {
                wanted: job.wanted,
                source,
                metadata: job.metadata,
                bits: job.bits,
                opaque: job.opaque,
                limits: capped(job.limits),
                memory: job.memory,
            })
        }
    }
}
