//! Calls of `String` and of shared texts that may allocate, with the evidence of a failure.

ghost use Rattle.std.specs.Prelude.{◌≡◌, ◌++◌, is_ok, if◌then◌else◌, IfOk, length, string_bytes};
ghost use Rattle.std.specs.Rc.{rc_str_bytes};
ghost use Rattle.std.specs.Char.{encode_utf8};

use crate::refused::{Refused, reported};
use std::alloc::Allocator;
use std::rc::RcStr;

/// Copies a text.
///
/// # Errors
///
/// `Refused` if the allocation fails.
pub fn string_from<A: Allocator>(alloc: A, text: &str) -> Result<String<A>, Refused>
    ensures { IfOk result (λ copy. string_bytes copy ≡ text.now) }
{
    reported(String::from_str(alloc, text))
}

/// Copies a text that several owners share.
///
/// # Errors
///
/// `Refused` if an allocation fails.
pub fn shared_from<A: Allocator + Clone>(alloc: A, text: &str) -> Result<RcStr<A>, Refused>
    ensures { IfOk result (λ copy. rc_str_bytes copy ≡ text.now) }
{
    reported(RcStr::from_str(alloc, text))
}

/// Appends a text.
///
/// # Errors
///
/// `Refused` if the allocation fails; the string keeps its text.
pub fn push_str<A: Allocator>(string: &mut String<A>, text: &str) -> Result<(), Refused>
    ensures { string_bytes string.new ≡ (if is_ok result then string_bytes string.old ++ text.now
        else string_bytes string.old) }
{
    reported(string.push_str(text))
}

/// Appends a character.
///
/// # Errors
///
/// `Refused` if the allocation fails; the string keeps its text.
pub fn push_char<A: Allocator>(string: &mut String<A>, x: char) -> Result<(), Refused>
    ensures { string_bytes string.new
        ≡ (if is_ok result then string_bytes string.old ++ encode_utf8 x
        else string_bytes string.old) }
{
    reported(string.push(x))
}
