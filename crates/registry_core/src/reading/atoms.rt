//! The smallest parts of a registry: lengths, ids, texts and single bytes.
//!
//! A function that reads a part returns it with the bytes after it.

ghost use Rattle.std.specs.Prelude.{◌≡◌, Ok, IfSome};
ghost use Rattle.scale_core.specs.Read.{number_at};
ghost use Rattle.registry_core.specs.Gives.{Gives};
ghost use Rattle.registry_core.specs.Reading.{lifted, length_at, string_at, texts_at, type_id_at};
ghost use Rattle.registry_core.specs.Reading.{type_ids_at, option_at, byte_at};

use super::lists::append;
use super::read_stop::ReadStop;
use crate::fault::RegistryReason;
use growth_core::string_from;
use scale_core::{Target, read_compact, read_text, read_u32};
use std::alloc::Global;
use types_core::{Items, Text, TypeId};

/// Reads a length or an id.
///
/// # Errors
///
/// Those of [`read_compact`] for a u32.
pub(crate) fn length_of(bytes: &[u8]) -> Result<(u32, &[u8]), ReadStop<'_>>
    ensures { Gives (λ x. (x.0, x.1.now)) result (length_at bytes.now) }
{
    match read_compact(bytes, Target::U32) {
        Ok((length, len)) => Ok((length as u32, &bytes[len..])),
        Err(fault) => Err(ReadStop::at_fault(fault, bytes)),
    }
}

/// Reads a text, and copies it to memory from the allocator.
///
/// # Errors
///
/// Those of [`read_text`], and `Memory` if the allocation fails.
pub(crate) fn text_of(alloc: Global, bytes: &[u8]) -> Result<(Text, &[u8]), ReadStop<'_>>
    ensures { Gives (λ x. (x.0, x.1.now)) result (string_at bytes.now) }
{
    match read_text(bytes) {
        Ok((text, len)) => {
            let text = string_from(alloc, text)?;
            Ok((Text::from_string(text), &bytes[len..]))
        }
        Err(fault) => Err(ReadStop::at_fault(fault, bytes)),
    }
}

/// Reads a byte of any value.
///
/// # Errors
///
/// `Truncated` if `bytes` is empty.
pub(crate) fn byte_of(bytes: &[u8]) -> Result<(u8, &[u8]), ReadStop<'_>>
    ensures { Gives (λ x. (x.0, x.1.now)) result (byte_at bytes.now) }
{
    match bytes {
        [] => Err(ReadStop::Fault(RegistryReason::Truncated, bytes)),
        [byte, rest @ ..] => Ok((*byte, rest)),
    }
}

/// Reads a little-endian number of four bytes.
///
/// # Errors
///
/// `Truncated` if `bytes` has fewer.
pub(crate) fn word_of(bytes: &[u8]) -> Result<(u32, &[u8]), ReadStop<'_>>
    ensures { Gives (λ x. (x.0, x.1.now)) result (lifted (number_at 4 bytes.now)) }
{
    match read_u32(bytes) {
        Ok((number, len)) => Ok((number, &bytes[len..])),
        Err(_) => Err(ReadStop::Fault(RegistryReason::Truncated, &bytes[bytes.len()..])),
    }
}

/// Reads the position of a type.
///
/// # Errors
///
/// Those of [`length_of`].
pub(crate) fn type_id_of(bytes: &[u8]) -> Result<(TypeId, &[u8]), ReadStop<'_>>
    ensures { Gives (λ x. (x.0, x.1.now)) result (type_id_at bytes.now) }
{
    let (id, rest) = length_of(bytes)?;
    Ok((TypeId(id), rest))
}

/// Reads the position of a type, which may be absent.
///
/// # Errors
///
/// Those of [`type_id_of`], `Truncated` if `bytes` is empty, and `BadOption` if the first byte is
/// neither `00` nor `01`.
pub(crate) fn optional_type_id_of(bytes: &[u8]) -> Result<(Option<TypeId>, &[u8]), ReadStop<'_>>
    ensures { Gives (λ x. (x.0, x.1.now)) result (option_at type_id_at bytes.now) }
{
    match bytes {
        [] => Err(ReadStop::Fault(RegistryReason::Truncated, bytes)),
        [0, rest @ ..] => Ok((None, rest)),
        [1, rest @ ..] => {
            let (ty, rest) = type_id_of(rest)?;
            Ok((Some(ty), rest))
        }
        [_, ..] => Err(ReadStop::Fault(RegistryReason::BadOption, bytes)),
    }
}

/// Reads a text, which may be absent.
///
/// # Errors
///
/// Those of [`text_of`], `Truncated` if `bytes` is empty, and `BadOption` if the first byte is
/// neither `00` nor `01`.
pub(crate) fn optional_text_of(
    alloc: Global,
    bytes: &[u8],
) -> Result<(Option<Text>, &[u8]), ReadStop<'_>>
    ensures { Gives (λ x. (x.0, x.1.now)) result (option_at string_at bytes.now) }
{
    match bytes {
        [] => Err(ReadStop::Fault(RegistryReason::Truncated, bytes)),
        [0, rest @ ..] => Ok((None, rest)),
        [1, behind @ ..] => {
            let (text, rest) = text_of(alloc, behind)?;
            Ok((Some(text), rest))
        }
        [_, ..] => Err(ReadStop::Fault(RegistryReason::BadOption, bytes)),
    }
}

/// Reads the positions of types: their number, and each in turn.
///
/// # Errors
///
/// Those of [`length_of`], and `Memory` if an allocation fails.
#[tactic(auto, unfolding(crate::specs::Reading::type_ids_at))]
pub(crate) fn type_ids_of(
    alloc: Global,
    bytes: &[u8],
) -> Result<(Items<TypeId>, &[u8]), ReadStop<'_>>
    ensures { Gives (λ x. (x.0, x.1.now)) result (type_ids_at bytes.now) }
{
    let (count, mut rest) = length_of(bytes)?;
    let mut ids = Vec::new(alloc);
    'ids: for _ in 0..count {
        let (id, after) = type_id_of(rest)?;
        append(&mut ids, count, id)?;
        rest = after;
    }
    Ok((Items::from_vec(ids), rest))
}

/// Returns the bytes after an empty list, whose length is the byte `00`, or `None` if `bytes`
/// begins with another byte.
#[inline(always)]
#[tactic(auto, using(crate::proofs::Lengths::byte_is_read))]
fn after_empty(bytes: &[u8]) -> Option<&[u8]>
    ensures { IfSome result (λ rest. length_at bytes.now ≡ Ok (0, rest.now)) }
{
    match bytes {
        [0, rest @ ..] => Some(rest),
        _ => None,
    }
}

/// Reads texts: their number, and each in turn.
///
/// # Errors
///
/// Those of [`length_of`] and [`text_of`], and `Memory` if an allocation fails.
// Most lists of texts are empty. They are read without a call.
#[inline(always)]
#[tactic(auto, unfolding(crate::specs::Reading::texts_at))]
pub(crate) fn texts_of(alloc: Global, bytes: &[u8]) -> Result<(Items<Text>, &[u8]), ReadStop<'_>>
    ensures { Gives (λ x. (x.0, x.1.now)) result (texts_at bytes.now) }
{
    if let Some(rest) = after_empty(bytes) {
        return Ok((Items::from_vec(Vec::new(alloc)), rest));
    }
    some_texts_of(alloc, bytes)
}

/// Reads texts. It is the out-of-line form of [`texts_of`].
///
/// # Errors
///
/// Those of [`texts_of`].
#[inline(never)]
#[tactic(auto, unfolding(crate::specs::Reading::texts_at))]
fn some_texts_of(alloc: Global, bytes: &[u8]) -> Result<(Items<Text>, &[u8]), ReadStop<'_>>
    ensures { Gives (λ x. (x.0, x.1.now)) result (texts_at bytes.now) }
{
    let (count, mut rest) = length_of(bytes)?;
    let mut texts = Vec::new(alloc);
    'texts: for _ in 0..count {
        let (text, after) = text_of(alloc, rest)?;
        append(&mut texts, count, text)?;
        rest = after;
    }
    Ok((Items::from_vec(texts), rest))
}
