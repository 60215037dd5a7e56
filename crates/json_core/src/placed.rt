//! A value's JSON text in the caller's memory.

ghost use Rattle.std.specs.Prelude.{◌≡◌, ◌≤◌, length, IfOk, IfErr, IsOk};
ghost use Rattle.json.specs.Print.{escape, quoted};
ghost use Rattle.json_core.specs.Json.{json_text};
ghost use Rattle.json_core.specs.Printed.{IsInFront, IsPlaced, run_text};

use crate::printing::json_text;
use growth_core::Refused;
use std::alloc::{Allocator, Global};
use token_core::{is_plain, place_hex_text, place_quoted};
use value_core::Value;

/// The most bytes that a run has: its length is a compact u32, or the u32 of its type.
const LONGEST: usize = u32::MAX as usize;

/// Copies the bytes to the front of `out`, if they fit.
fn copy_to_front(out: &mut [u8], bytes: &[u8])
    ensures { IsInFront bytes.now out.old out.new }
{
    if bytes.len() <= out.len() {
        out[..bytes.len()].copy_from_slice(bytes);
    }
}

/// Writes a text between quotes to the front of `out`, if it fits, and returns its length with the
/// quotes.
fn quote_in_front(out: &mut [u8], text: &str) -> usize
    requires { escape text.now ≡ text.now }
    ensures len { result ≡ length (quoted text.now) }
    ensures placed { IsInFront (quoted text.now) out.old out.new }
{
    let len = text.len() + 2;
    if len <= out.len() {
        place_quoted(out, 0, text);
    }
    len
}

/// Writes the text of a run of bytes to the front of `out`, if it fits, and returns its length.
fn run_in_front(out: &mut [u8], bytes: &[u8]) -> usize
    requires { length bytes.now ≤ LONGEST }
    ensures len { result ≡ length (run_text bytes.now) }
    ensures placed { IsInFront (run_text bytes.now) out.old out.new }
{
    let len = 2 * bytes.len() + 4;
    if len <= out.len() {
        place_hex_text(out, 0, bytes);
    }
    len
}

/// Writes a value's JSON, the text of [`json_text`](crate::json_text), to the front of `out`, and
/// returns its length in bytes. The rest of `out` is unchanged, and all of it if `out` is shorter.
///
/// Of one text without an escape, or one run of bytes, it allocates nothing. Otherwise it makes the
/// text first, from `text_alloc`.
///
/// # Errors
///
/// `Refused` if an allocation fails; `out` is unchanged.
pub fn json_to_slice<A: Allocator, B: Allocator>(
    alloc: Global,
    text_alloc: B,
    value: &Value<'_, A>,
    out: &mut [u8],
) -> Result<usize, Refused>
    ensures len { IfOk result (λ len. len ≡ length (json_text value.now)) }
    ensures ok { IfOk result (λ len. IsInFront (json_text value.now) out.old out.new) }
    ensures err { IfErr result (λ e. out.new ≡ out.old) }
    // Of one run of bytes, and of one text without an escape, no allocation can fail.
    ensures placed { IsPlaced value.now.tree → IsOk result }
{
    let root = value.root();
    if let Some(text) = root.text()
        && is_plain(text)
    {
        return Ok(quote_in_front(out, text));
    }
    if let Some(bytes) = root.bytes()
        && bytes.len() <= LONGEST
    {
        return Ok(run_in_front(out, bytes));
    }
    let text = json_text(alloc, text_alloc, value)?;
    copy_to_front(out, text.as_bytes());
    Ok(text.len())
}
