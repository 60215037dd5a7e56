//! The command's engine: a job over readers and writers.

ghost use Rattle.std.specs.Prelude.{◌≡◌, ◌⊎◌, List, true, None, Some, IfOk, IfErr, IfSome, IsErrOf};
ghost use Rattle.std.specs.Prelude.{OnOk, string_bytes};
ghost use Rattle.scale_core.specs.Sending.{Sends};
ghost use Rattle.decode_core.specs.Streaming.{FailsAfter};
ghost use Rattle.command_line.specs.Line.{IsServed};
ghost use Rattle.command_line.specs.declared.task.ValueSource.TheVariants.{Metadata as InMetadata};
ghost use Rattle.scale_tool.specs.Answer.{HasJobType, HasPosition, OnLine, OnText};
ghost use Rattle.scale_tool.specs.Answer.{ReadsNoValue, StopsJob, StopsValue, WritesAll};
ghost use Rattle.scale_tool.specs.Answer.{WritesFront, decode_options, text_bytes, types_text};
ghost use Rattle.scale_tool.specs.Answer.{value_job};
ghost use Rattle.scale_tool.specs.Devices.{FailsReading, FailsWriting};
ghost use Rattle.scale_tool.specs.Refused.{IsDevice, IsRejected, status_of};
ghost use Rattle.scale_tool.specs.Reported.{Faults, FaultsLine, FaultsRegistry, Reports, Stands};
ghost use Rattle.scale_tool.specs.Reported.{job_name, refusal_line};
ghost use Rattle.scale_tool.specs.Values.{AreInRange};
ghost use Rattle.growth_core.specs.Evidence.{evidence};

use crate::lines::refusal_line;
use crate::named::{named_text, names_text};
use crate::parts::{decode_options, job_name, value_job};
use crate::refusal::Refusal;
use crate::registry::{read_types, read_types_with};
use crate::text::{Text, value_text};
use command_line::{DecodeJob, Job, Wanted};
use scale_calls::{OpenOptions, push_type_lines, version_line};
use scale_core::{ReadOnce, Sink, Source, WriteOnce, send};
use std::alloc::Global;

/// Returns the line of the metadata's version, if there is one, and the lines of the types.
fn types_text<R: ReadOnce>(
    alloc: Global,
    options: OpenOptions,
    registry: &mut Source<R>,
) -> Result<String, Refusal>
    ensures ok { IfOk result (λ text. IfSome (R.remaining registry.old.device)
        (λ r. types_text options r ≡ Some (string_bytes text))) }
    ensures refused { IfErr result (λ e. IsRejected e →
        IfSome (R.remaining registry.old.device) (λ r. types_text options r ≡ None)) }
    ensures faults { IfErr result (FaultsRegistry options (R.remaining registry.old.device)) }
    ensures device { IfErr result (λ e. IsDevice e → e ≡ Refusal.RegistryDevice) }
    ensures reported { IsErrOf result Refusal.RegistryDevice →
        FailsReading R.reads registry.old registry.new }
    ensures quiet { IsErrOf result Refusal.RegistryDevice
        ⊎ (registry.new.failed ≡ registry.old.failed) }
{
    let opened = read_types(alloc, options, registry)?;
    let mut text = version_line(alloc, opened.version)?;
    push_type_lines(alloc, &mut text, &opened.checked)?;
    Ok(text)
}

/// Returns the text of a value whose type is the one at this position.
fn positioned_text<R: ReadOnce, V: ReadOnce>(
    alloc: Global,
    job: &DecodeJob,
    id: u32,
    registry: &mut Source<R>,
    value: &mut Source<V>,
) -> Result<Text, Refusal>
    requires { AreInRange job.now.limits }
    ensures ok { IfOk result (λ text. OnLine (decode_options job.now) (value_job id job.now)
        (R.remaining registry.old.device) (V.remaining value.old.device)
        (λ t. t ≡ Some (text_bytes text))) }
    ensures refused { IfErr result (λ e. IsRejected e →
        OnLine (decode_options job.now) (value_job id job.now)
        (R.remaining registry.old.device) (V.remaining value.old.device) (λ t. t ≡ None)) }
    ensures faults { IfErr result (FaultsLine (decode_options job.now) (value_job id job.now)
        (R.remaining registry.old.device) (V.remaining value.old.device)) }
    ensures registry_failed { IsErrOf result Refusal.RegistryDevice →
        FailsReading R.reads registry.old registry.new }
    ensures value_failed { IsErrOf result Refusal.ValueDevice → (value.new.failed ≡ true)
        × StopsValue (decode_options job.now) (value_job id job.now)
        (R.remaining registry.old.device) (FailsAfter V.reads value.old.device value.new.device)
        (V.remaining value.old.device) (V.remaining value.new.device) }
    ensures registry { IsErrOf result Refusal.RegistryDevice
        ⊎ (registry.new.failed ≡ registry.old.failed) }
    ensures value { IsErrOf result Refusal.ValueDevice ⊎ (value.new.failed ≡ value.old.failed) }
    ensures read_last { (value.new ≡ value.old) ⊎ ((registry.new.failed ≡ registry.old.failed)
        × HasPosition (decode_options job.now) id (R.remaining registry.old.device)) }
{
    let checked = read_types_with(alloc, decode_options(job), id, registry)?;
    value_text(alloc, job.memory, &checked, value_job(job, id), value)
}

/// Returns the text of a value.
fn decoded_text<R: ReadOnce, V: ReadOnce>(
    alloc: Global,
    job: &DecodeJob,
    registry: &mut Source<R>,
    value: &mut Source<V>,
) -> Result<Text, Refusal>
    requires { IsServed (Job.Decode job.now) }
    ensures ok { IfOk result (λ text. OnText (Job.Decode job.now)
        (R.remaining registry.old.device) (V.remaining value.old.device)
        (λ t. t ≡ Some (text_bytes text))) }
    ensures refused { IfErr result (λ e. IsRejected e → OnText (Job.Decode job.now)
        (R.remaining registry.old.device) (V.remaining value.old.device) (λ t. t ≡ None)) }
    ensures faults { IfErr result (Faults (Job.Decode job.now)
        (R.remaining registry.old.device) (V.remaining value.old.device)) }
    ensures registry_failed { IsErrOf result Refusal.RegistryDevice →
        FailsReading R.reads registry.old registry.new }
    ensures value_failed { IsErrOf result Refusal.ValueDevice → (value.new.failed ≡ true)
        × StopsJob (Job.Decode job.now) (R.remaining registry.old.device)
        (FailsAfter V.reads value.old.device value.new.device)
        (V.remaining value.old.device) (V.remaining value.new.device) }
    ensures registry { IsErrOf result Refusal.RegistryDevice
        ⊎ (registry.new.failed ≡ registry.old.failed) }
    ensures value { IsErrOf result Refusal.ValueDevice ⊎ (value.new.failed ≡ value.old.failed) }
    ensures unread { job.now.source ≡ InMetadata → value.new ≡ value.old }
    ensures read_last { (value.new ≡ value.old) ⊎ ((registry.new.failed ≡ registry.old.failed)
        × HasJobType (Job.Decode job.now) (R.remaining registry.old.device)) }
{
    match &job.wanted {
        Wanted::Id(id) => positioned_text(alloc, job, *id, registry, value),
        Wanted::Name(name) => named_text(alloc, job, name.as_str(), registry, value),
    }
}

/// Returns the text that the job writes.
fn answer<R: ReadOnce, V: ReadOnce>(
    alloc: Global,
    job: &Job,
    registry: &mut Source<R>,
    value: &mut Source<V>,
) -> Result<Text, Refusal>
    requires { IsServed job.now }
    ensures ok { IfOk result (λ text. OnText job.now (R.remaining registry.old.device)
        (V.remaining value.old.device) (λ t. t ≡ Some (text_bytes text))) }
    ensures refused { IfErr result (λ e. IsRejected e →
        OnText job.now (R.remaining registry.old.device) (V.remaining value.old.device)
        (λ t. t ≡ None)) }
    ensures faults { IfErr result
        (Faults job.now (R.remaining registry.old.device) (V.remaining value.old.device)) }
    ensures registry_failed { IsErrOf result Refusal.RegistryDevice →
        FailsReading R.reads registry.old registry.new }
    ensures value_failed { IsErrOf result Refusal.ValueDevice → (value.new.failed ≡ true)
        × StopsJob job.now (R.remaining registry.old.device)
        (FailsAfter V.reads value.old.device value.new.device)
        (V.remaining value.old.device) (V.remaining value.new.device) }
    ensures registry { IsErrOf result Refusal.RegistryDevice
        ⊎ (registry.new.failed ≡ registry.old.failed) }
    ensures value { IsErrOf result Refusal.ValueDevice ⊎ (value.new.failed ≡ value.old.failed) }
    ensures unread { ReadsNoValue job.now → value.new ≡ value.old }
    ensures read_last { (value.new ≡ value.old) ⊎ ((registry.new.failed ≡ registry.old.failed)
        × HasJobType job.now (R.remaining registry.old.device)) }
{
    match job {
        Job::Types { metadata } => {
            let options = OpenOptions {
                metadata: *metadata,
                bits: false,
            };
            Ok(Text::Plain(types_text(alloc, options, registry)?))
        }
        Job::Names => Ok(Text::Plain(names_text(alloc, registry)?)),
        Job::Decode(job) => decoded_text(alloc, job, registry, value),
    }
}

/// Writes the text of the job to `out`, or returns why there is none or why it was not written.
fn serve<R: ReadOnce, V: ReadOnce, W: WriteOnce>(
    alloc: Global,
    job: &Job,
    registry: &mut Source<R>,
    value: &mut Source<V>,
    out: &mut Sink<W>,
) -> Result<(), Refusal>
    requires { IsServed job.now }
    ensures done { OnOk result
        (OnText job.now (R.remaining registry.old.device) (V.remaining value.old.device)
        (λ text. WritesAll text (W.contents out.old.device) (W.contents out.new.device))) }
    ensures refused { IfErr result (λ e. IsRejected e →
        OnText job.now (R.remaining registry.old.device) (V.remaining value.old.device)
        (λ text. text ≡ None)) }
    ensures faults { IfErr result (λ e. (e ≡ Refusal.OutputDevice)
        ⊎ Faults job.now (R.remaining registry.old.device) (V.remaining value.old.device) e) }
    ensures kept { IfErr result (λ e. (e ≡ Refusal.OutputDevice) ⊎ (out.new ≡ out.old)) }
    ensures registry_failed { IsErrOf result Refusal.RegistryDevice →
        FailsReading R.reads registry.old registry.new }
    ensures value_failed { IsErrOf result Refusal.ValueDevice → (value.new.failed ≡ true)
        × StopsJob job.now (R.remaining registry.old.device)
        (FailsAfter V.reads value.old.device value.new.device)
        (V.remaining value.old.device) (V.remaining value.new.device) }
    ensures out_failed { IsErrOf result Refusal.OutputDevice → FailsWriting W.writes out.new
        × OnText job.now (R.remaining registry.old.device) (V.remaining value.old.device)
        (λ text. WritesFront text (W.contents out.old.device) (W.contents out.new.device)) }
    ensures registry { IsErrOf result Refusal.RegistryDevice
        ⊎ (registry.new.failed ≡ registry.old.failed) }
    ensures value { IsErrOf result Refusal.ValueDevice ⊎ (value.new.failed ≡ value.old.failed) }
    ensures out { IsErrOf result Refusal.OutputDevice ⊎ (out.new.failed ≡ out.old.failed) }
    ensures unread { ReadsNoValue job.now → value.new ≡ value.old }
    ensures read_last { (value.new ≡ value.old) ⊎ ((registry.new.failed ≡ registry.old.failed)
        × HasJobType job.now (R.remaining registry.old.device)) }
{
    let text = answer(alloc, job, registry, value)?;
    match send(out, text.as_bytes()) {
        Ok(()) => Ok(()),
        Err(_) => Err(Refusal::OutputDevice),
    }
}

/// Reports a refusal on `err` in one line, and returns its status; or reports a failed allocation,
/// if the line cannot be made. Failed writes change nothing.
fn refuse<E: WriteOnce>(alloc: Global, name: &str, refusal: Refusal, err: &mut Sink<E>) -> u8
    ensures { ((result ≡ status_of refusal)
        × Sends E.writes E.contents err.old err.new (refusal_line name.now refusal))
        ⊎ (IsRejected refusal × (result ≡ 4)
        × Sends E.writes E.contents err.old err.new
        (refusal_line name.now (Refusal.Memory evidence))) }
{
    if let Some(line) = refusal.fixed_line(name) {
        let _ = send(err, line.as_bytes());
        return refusal.status();
    }
    match refusal_line(alloc, name, refusal) {
        Ok(line) => {
            let _ = send(err, line.as_bytes());
            refusal.status()
        }
        Err(refused) => {
            let _ = send(err, b"scaleview: memory\n");
            Refusal::Memory(refused).status()
        }
    }
}

/// Runs a job on the bytes of a registry and a value: writes its text to `out` and returns 0, or
/// writes one line to `err` and returns a status that says why there is no text. The value is read
/// only once the registry and the type stand.
///
/// The status is 1 if the registry, the type or the value is rejected; 3 if a read or a write
/// failed or a write took nothing; and 4 if an allocation failed. The raw bytes of a value that is
/// not opaque are read in pieces, so a failed read counts only while the bytes before it leave the
/// answer open. Digits and opaque values are read to the end of the file first, so a failed read
/// always counts. Unless the status is 0 nothing was written to `out`; if a write to it failed, a
/// beginning of the text may stand there. A failed write to `err` changes no status.
pub fn run<R: ReadOnce, V: ReadOnce, W: WriteOnce, E: WriteOnce>(
    alloc: Global,
    job: Job,
    registry: &mut Source<R>,
    value: &mut Source<V>,
    out: &mut Sink<W>,
    err: &mut Sink<E>,
) -> u8
    // The limits of a value are those of the decoder.
    requires { IsServed job }

    ensures status { (result ≡ 0) ⊎ ((result ≡ 1) ⊎ ((result ≡ 3) ⊎ (result ≡ 4))) }

    // 0 only if the complete text was written, and 1 only if there is none.
    ensures done { result ≡ 0 →
        OnText job (R.remaining registry.old.device) (V.remaining value.old.device)
        (λ text. WritesAll text (W.contents out.old.device) (W.contents out.new.device)) }
    ensures refused { result ≡ 1 →
        OnText job (R.remaining registry.old.device) (V.remaining value.old.device)
        (λ text. text ≡ None) }

    // Unless the status is 0 `out` is untouched; only at 3, if a write to it failed, may a
    // beginning of the text stand there.
    ensures silent { (result ≡ 1) ⊎ (result ≡ 4) → out.new ≡ out.old }
    ensures front { result ≡ 3 → (out.new ≡ out.old) ⊎ (FailsWriting W.writes out.new
        × OnText job (R.remaining registry.old.device) (V.remaining value.old.device)
        (λ text. WritesFront text (W.contents out.old.device) (W.contents out.new.device))) }

    // 3 exactly if a device failed. A failed read of the value's bytes counts only while those read
    // before it leave the answer open.
    ensures device { result ≡ 3 → FailsReading R.reads registry.old registry.new
        ⊎ (((value.new.failed ≡ true) × StopsJob job (R.remaining registry.old.device)
        (FailsAfter V.reads value.old.device value.new.device)
        (V.remaining value.old.device) (V.remaining value.new.device))
        ⊎ FailsWriting W.writes out.new) }
    ensures quiet { (result ≡ 3)
        ⊎ ((registry.new.failed ≡ registry.old.failed) × (value.new.failed ≡ value.old.failed)
        × (out.new.failed ≡ out.old.failed)) }

    // Unless it is 0 the status is that of one refusal, which is right of the files and devices and
    // is reported on `err`. A failed write of its line changes no status.
    ensures reported { ((result ≡ 0) × (err.new ≡ err.old)) ⊎ Reports
        (job_name job)
        (Stands (registry.new.failed ≡ true) (value.new.failed ≡ true) (out.new.failed ≡ true)
        (Faults job (R.remaining registry.old.device) (V.remaining value.old.device)))
        (Sends E.writes E.contents err.old err.new) result }

    // A job that needs only its registry does not touch the value.
    ensures unread { ReadsNoValue job → value.new ≡ value.old }

    // The value is untouched if the registry is rejected, its device fails, or it lacks the type or
    // its name.
    ensures read_last { (value.new ≡ value.old) ⊎ ((registry.new.failed ≡ registry.old.failed)
        × HasJobType job (R.remaining registry.old.device)) }
{
    match serve(alloc, &job, registry, value, out) {
        Ok(()) => 0,
        Err(refusal) => refuse(alloc, job_name(&job), refusal, err),
    }
}
