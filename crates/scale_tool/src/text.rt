//! The text of an answer, and that of a value.

ghost use Rattle.std.specs.Prelude.{◌≡◌, ◌⊎◌, ◌<◌, length, true, false, Some, None, IfOk};
ghost use Rattle.std.specs.Prelude.{IfErr, IfSome, IsErrOf, string_bytes};
ghost use Rattle.decode_core.specs.Streaming.{FailsAfter};
ghost use Rattle.scale_tool.specs.Answer.{StopsTyped, line_in, line_of, text_bytes};
ghost use Rattle.scale_tool.specs.Refused.{IsDevice, IsRejected};
ghost use Rattle.scale_tool.specs.Reported.{FaultsTyped};
ghost use Rattle.scale_tool.specs.Values.{AreInRange};

use crate::form::ValueJob;
use crate::refusal::Refusal;
use crate::value::{of_value, read_value_file, spelled_value};
use budget_core::Budget;
use growth_core::{Refused, clone_of, push_str};
use json_core::json_text;
use scale_core::{ReadOnce, Source};
use std::alloc::{Allocator, Global};
use value_core::Value;
use widths_core::Checked;

/// The text of an answer, which is allocated in a budget or without one.
#[derive(Drop)]
pub(crate) enum Text {
    Plain(String),
    Budgeted(String<Budget<Global>>),
}

impl Text {
    /// Returns the bytes of the text.
    pub(crate) fn as_bytes(&self) -> &[u8]
        ensures { result.now ≡ text_bytes self.now }
    {
        match self {
            Text::Plain(text) => text.as_bytes(),
            Text::Budgeted(text) => text.as_bytes(),
        }
    }
}

/// Returns the text of a value's JSON and a line feed, which is allocated by `memory`.
fn line_text<A: Allocator>(
    alloc: Global,
    memory: A,
    value: &Value<'_, A>,
) -> Result<String<A>, Refused>
    ensures { IfOk result (λ text. string_bytes text ≡ line_of value.now) }
{
    let mut text = json_text(alloc, memory, value)?;
    push_str(&mut text, "\n")?;
    Ok(text)
}

/// Returns the line of a value. The value and the line are allocated by `memory` and its clones.
fn line_by<A: Allocator + Clone, V: ReadOnce>(
    alloc: Global,
    memory: A,
    checked: &Checked,
    job: ValueJob,
    value: &mut Source<V>,
) -> Result<String<A>, Refusal>
    requires known { job.id < length checked.now.types }
    requires limits { AreInRange job.limits }
    ensures ok { IfOk result (λ text. IfSome (V.remaining value.old.device)
        (λ v. line_in job checked.now.types v ≡ Some (string_bytes text))) }
    ensures refused { IfErr result (λ e. IsRejected e → IfSome (V.remaining value.old.device)
        (λ v. line_in job checked.now.types v ≡ None)) }
    ensures faults { IfErr result
        (FaultsTyped job checked.now.types (V.remaining value.old.device)) }
    ensures failed { IsErrOf result Refusal.ValueDevice → (value.new.failed ≡ true)
        × StopsTyped job checked.now.types
        (FailsAfter V.reads value.old.device value.new.device)
        (V.remaining value.old.device) (V.remaining value.new.device) }
    ensures quiet { IsErrOf result Refusal.ValueDevice ⊎ (value.new.failed ≡ value.old.failed) }
{
    let text_memory = clone_of(&memory)?;
    let value = read_value_file(alloc, memory, checked, job, value)?;
    Ok(line_text(alloc, text_memory, &value)?)
}

/// Returns the line of a value. With `memory` the value and the line are allocated in a budget of
/// so many bytes.
pub(crate) fn value_text<V: ReadOnce>(
    alloc: Global,
    memory: Option<u64>,
    checked: &Checked,
    job: ValueJob,
    value: &mut Source<V>,
) -> Result<Text, Refusal>
    requires known { job.id < length checked.now.types }
    requires limits { AreInRange job.limits }
    ensures ok { IfOk result (λ text. IfSome (V.remaining value.old.device)
        (λ v. line_in job checked.now.types v ≡ Some (text_bytes text))) }
    ensures refused { IfErr result (λ e. IsRejected e → IfSome (V.remaining value.old.device)
        (λ v. line_in job checked.now.types v ≡ None)) }
    ensures faults { IfErr result
        (FaultsTyped job checked.now.types (V.remaining value.old.device)) }
    ensures failed { IsErrOf result Refusal.ValueDevice → (value.new.failed ≡ true)
        × StopsTyped job checked.now.types
        (FailsAfter V.reads value.old.device value.new.device)
        (V.remaining value.old.device) (V.remaining value.new.device) }
    ensures quiet { IsErrOf result Refusal.ValueDevice ⊎ (value.new.failed ≡ value.old.failed) }
{
    let Some(bytes) = memory else {
        return Ok(Text::Plain(line_by(alloc, alloc, checked, job, value)?));
    };
    // A budget of 0 bytes would be none. One of 1 byte has no room for a line either.
    let budget = Budget::new(alloc, bytes.max(1))?;
    Ok(Text::Budgeted(line_by(alloc, budget, checked, job, value)?))
}

/// Returns the line of a value that these bytes spell, as [`line_by`] does.
fn held_line<A: Allocator + Clone>(
    alloc: Global,
    memory: A,
    checked: &Checked,
    job: ValueJob,
    bytes: &[u8],
) -> Result<String<A>, Refusal>
    requires known { job.id < length checked.now.types }
    requires limits { AreInRange job.limits }
    requires held { job.form.hex ≡ false }
    ensures ok { IfOk result
        (λ text. line_in job checked.now.types bytes.now ≡ Some (string_bytes text)) }
    ensures refused { IfErr result
        (λ e. IsRejected e → line_in job checked.now.types bytes.now ≡ None) }
    ensures faults { IfErr result (FaultsTyped job checked.now.types (Some bytes.now)) }
    ensures device { IfErr result (λ e. IsDevice e → ⊥) }
{
    let text_memory = clone_of(&memory)?;
    match spelled_value(memory, checked, job, bytes) {
        Ok(value) => Ok(line_text(alloc, text_memory, &value)?),
        Err(refusal) => Err(of_value(refusal)),
    }
}

/// Returns the line of a value that these bytes spell, as [`value_text`] does.
pub(crate) fn held_text(
    alloc: Global,
    memory: Option<u64>,
    checked: &Checked,
    job: ValueJob,
    bytes: &[u8],
) -> Result<Text, Refusal>
    requires known { job.id < length checked.now.types }
    requires limits { AreInRange job.limits }
    requires held { job.form.hex ≡ false }
    ensures ok { IfOk result
        (λ text. line_in job checked.now.types bytes.now ≡ Some (text_bytes text)) }
    ensures refused { IfErr result
        (λ e. IsRejected e → line_in job checked.now.types bytes.now ≡ None) }
    ensures faults { IfErr result (FaultsTyped job checked.now.types (Some bytes.now)) }
    ensures device { IfErr result (λ e. IsDevice e → ⊥) }
{
    let Some(most) = memory else {
        return Ok(Text::Plain(held_line(alloc, alloc, checked, job, bytes)?));
    };
    let budget = Budget::new(alloc, most.max(1))?;
    Ok(Text::Budgeted(held_line(alloc, budget, checked, job, bytes)?))
}
