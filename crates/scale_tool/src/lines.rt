//! The line that reports a refusal on standard error.

ghost use Rattle.std.specs.Prelude.{◌≡◌, IfOk, string_bytes};
ghost use Rattle.scale_tool.specs.Refused.{IsRejected};
ghost use Rattle.scale_tool.specs.Reported.{name_line, placed_line, refusal_line};

use crate::refusal::Refusal;
use growth_core::{Refused, reported, string_from};
use hex_text::HexFault;
use scale_calls::UnknownReference;
use serde_json::Value;
use std::alloc::Global;

/// Returns the line of bytes after a registry or a value, or of a text without bytes.
fn placed_line(alloc: Global, part: &str, reason: &str, at: u64) -> Result<String, Refused>
    ensures { IfOk result (λ line. string_bytes line ≡ placed_line part.now reason.now at) }
{
    reported(format!(in alloc; "scaleview: {part}: {reason} at {at}\n"))
}

/// Returns the line that says what is wrong with a name, which it shows as a JSON string.
fn name_line(alloc: Global, reason: &str, name: &str) -> Result<String, Refused>
    ensures { IfOk result (λ line. string_bytes line ≡ name_line reason.now name.now) }
{
    let shown = reported(Value::String(string_from(alloc, name)?).to_string(alloc))?;
    reported(format!(in alloc; "scaleview: type: {reason} {shown}\n"))
}

/// Returns the line of a refusal of the input, for a job whose type has this name.
pub(crate) fn refusal_line(alloc: Global, name: &str, refusal: Refusal) -> Result<String, Refused>
    requires { IsRejected refusal }
    ensures { IfOk result (λ line. string_bytes line ≡ refusal_line name.now refusal) }
{
    match refusal {
        Refusal::Registry(fault) => {
            reported(format!(in alloc; "scaleview: registry: {fault}\n"))
        }
        Refusal::TrailingRegistry(at) => placed_line(alloc, "registry", "TrailingBytes", at),
        Refusal::Check(UnknownReference { from, to }) => {
            reported(format!(in alloc; "scaleview: check: UnknownType {to} in type {from}\n"))
        }
        Refusal::Rest(fault) => reported(format!(in alloc; "scaleview: registry: {fault}\n")),
        Refusal::UnknownReference { ty, at } => reported(format!(in alloc;
            "scaleview: registry: UnknownReference to type {ty} at {at}\n"
        )),
        Refusal::UnknownName => name_line(alloc, "UnknownName", name),
        Refusal::NoBytes => name_line(alloc, "NoBytes", name),
        Refusal::UnknownType(id) => {
            reported(format!(in alloc; "scaleview: type: UnknownType {id}\n"))
        }
        Refusal::Hex(HexFault::Odd(at)) => placed_line(alloc, "value", "OddHex", at),
        Refusal::Hex(HexFault::Bad(at)) => placed_line(alloc, "value", "BadHex", at),
        Refusal::Value(fault) => reported(format!(in alloc; "scaleview: value: {fault}\n")),
        Refusal::TrailingValue(at) => placed_line(alloc, "value", "TrailingBytes", at),
        Refusal::RegistryDevice
        | Refusal::ValueDevice
        | Refusal::OutputDevice
        | Refusal::TooLarge(_)
        | Refusal::Memory(_) => unreachable!(),
    }
}
