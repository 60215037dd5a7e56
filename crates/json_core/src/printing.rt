//! A value's JSON text, and that text written to a sink.

ghost use Rattle.std.specs.Prelude.{◌≡◌, ◌≤◌, ◌||◌, length, take, string_bytes, IfOk, IfErr, OnOk};
ghost use Rattle.std.specs.Prelude.{IsErrOf};
ghost use Rattle.std.specs.Io.KnownBytes.{Appends};
ghost use Rattle.growth_core.specs.Evidence.{evidence};
ghost use Rattle.json_core.specs.Json.{json_text};
ghost use Rattle.json_core.specs.Printed.{MeetsPrint, written_of, is_write};

use crate::writing::write_node;
use growth_core::Refused;
use scale_core::{Sink, WriteOnce};
use std::alloc::{Allocator, Global};
use token_core::Output;
use value_core::{Value, WriteFault, send};

/// The capacity for the text of a small value, in bytes.
const FIRST_ROOM: usize = 256;

/// The error of [`print`].
#[derive(Clone, Copy, Debug, PartialEq, Eq)]
pub enum PrintFault {
    /// An allocation failed. Nothing was written.
    OutOfMemory(Refused),
    /// A write failed; the fault reports how many bytes went out before it.
    Write(WriteFault),
}

/// Returns a value's JSON as text: `serde_json`'s compact text of [`to_json`](crate::to_json), with
/// no line end.
///
/// It allocates the text from `text_alloc`. The capacity is at most 256 bytes more than twice the
/// text's length. It doubles, and from a mebibyte on it grows by a quarter.
///
/// It allocates 40 bytes for each child of an open object with more than eight fields whose names
/// are out of order, from `alloc`.
///
/// It takes time in proportion to the text. The calls nest as deep as the value, at most 1025
/// levels, which take some 400 KiB of stack.
///
/// # Errors
///
/// `Refused` if an allocation fails.
///
/// # Examples
///
/// A value of a composite of one field, `nonce`:
///
/// ```
/// let text = json_text(alloc, alloc, &value)?;
/// assert_eq!(rt; text.as_str(), "{\"nonce\":7}");
/// ```
pub fn json_text<A: Allocator, B: Allocator>(
    alloc: Global,
    text_alloc: B,
    value: &Value<'_, A>,
) -> Result<String<B>, Refused>
    ensures { IfOk result (λ text. string_bytes text ≡ json_text value.now) }
{
    let mut out = Output::with_room(text_alloc, FIRST_ROOM)?;
    write_node(&mut out, alloc, &value.root())?;
    Ok(out.into_text())
}

/// Writes a value's JSON to a sink: the text of [`json_text`], complete before the first write.
///
/// # Errors
///
/// - `OutOfMemory` if an allocation fails: nothing was written, and the sink is unchanged;
/// - `Write` with `Device` if the writer returns an error, also for an interrupted write;
/// - `Write` with `WroteNothing` if the writer takes no byte of a part that is not empty.
///
/// After a failed write the sink has failed for good, and as many of the text's first bytes were
/// written as the error reports. Otherwise `failed()` is unchanged.
pub fn print<A: Allocator, W: WriteOnce>(
    alloc: Global,
    value: &Value<'_, A>,
    sink: &mut Sink<W>,
) -> Result<(), PrintFault>
    // The complete text was written.
    ensures ok { OnOk result (Appends (W.contents sink.old.device) (W.contents sink.new.device)
        (json_text value.now)) }
    // As many of its first bytes were written as the error reports.
    ensures part { IfErr result (λ f. written_of f ≤ length (json_text value.now)) }
    ensures err { IfErr result (λ f. Appends (W.contents sink.old.device)
        (W.contents sink.new.device) (take (written_of f) (json_text value.now))) }
    // The writer did to the last write what the reason says.
    ensures met { IfErr result (MeetsPrint W.writes sink.new.device) }
    // After a failed allocation nothing was written.
    ensures memory { IsErrOf result (PrintFault.OutOfMemory evidence) → sink.new ≡ sink.old }
    ensures failed { sink.new.failed ≡ sink.old.failed || is_write result }
{
    let text = match json_text(alloc, alloc, value) {
        Ok(text) => text,
        Err(refused) => return Err(PrintFault::OutOfMemory(refused)),
    };
    match send(sink, text.as_bytes()) {
        Ok(()) => Ok(()),
        Err(fault) => Err(PrintFault::Write(fault)),
    }
}
