//! Large inputs: a decoder whose allocations succeed decodes them, and reports no failed
//! allocation.

use crate::decoder_memory::{feed_all, letters};
use crate::expect::same;
use scale_tests::building::{checked, is_written};
use scale_tests::registries::{BYTES, TEXT, WORDS};
use scale_tests::rows::AMPLE;
use std::alloc::{AllocError, Global};
use std::process::Abort;
use test_calls::calls::{finish, open, printed, shown};
use value_core::Value;
use widths_core::Checked;

/// Decodes the bytes, fed in pieces of this length, as a value of the type.
fn value_of<'r>(
    rt: &impl Abort,
    alloc: Global,
    checked: &'r Checked,
    ty: u32,
    bytes: &[u8],
    piece: usize,
) -> Value<'r, Global> {
    let mut decoder = open(alloc, checked, ty, AMPLE).expect(rt, "a decoder");
    same(rt, feed_all(&mut decoder, bytes, piece), None);
    finish(decoder).expect(rt, "a value")
}

/// Decodes the bytes, fed in pieces of this length. Checks the counts of nodes and of bytes of
/// text, and that the value is written as the same bytes.
fn check_value(
    rt: &impl Abort,
    alloc: Global,
    (registry, ty): (&[u8], u32),
    bytes: &[u8],
    piece: usize,
    (nodes, texts): (u64, u64),
) {
    let checked = checked(alloc, registry).expect(rt, "a registry");
    let value = value_of(rt, alloc, &checked, ty, bytes, piece);
    same(rt, value.node_count(), nodes);
    same(rt, value.text_bytes(), texts);
    same(rt, is_written(alloc, &value, bytes), true);
}

/// Decodes a text or a run of `count` bytes `a`, fed in one piece.
fn value_of_letters<'r>(
    rt: &impl Abort,
    alloc: Global,
    checked: &'r Checked,
    ty: u32,
    count: u32,
) -> Value<'r, Global> {
    let input = letters(alloc, count, count as usize).expect(rt, "memory");
    value_of(rt, alloc, checked, ty, &input, input.len())
}

// Inputs of 5000 bytes and of 8 MiB, each in one piece and in pieces of 1000 bytes.
#[test]
fn a_long_piece_is_taken_at_once(rt: HostRuntime) {
    'lengths: for count in [4_996, 8_388_604] {
        let input = letters(rt.alloc(), count, count as usize).expect(&rt, "memory");
        let counts = (1, u64::from(count));
        'pieces: for piece in [input.len(), 1000] {
            check_value(&rt, rt.alloc(), (BYTES, 1), &input, piece, counts);
            check_value(&rt, rt.alloc(), (TEXT, 0), &input, piece, counts);
        }
    }
}

// A sequence of 1,100,000 words has more than 2^20 nodes. The program takes 3,000,000
// (examples/check).
#[test]
fn many_nodes_are_finished(rt: HostRuntime) {
    let input = letters(rt.alloc(), 1_100_000, 2_200_000).expect(&rt, "memory");
    let counts = (1_100_001, 0);
    check_value(&rt, rt.alloc(), (WORDS, 1), &input, input.len(), counts)
}

/// Returns the JSON of a text or of a run of `count` bytes `a`: what begins it, `letter` for each
/// byte, and a quotation mark.
fn shown_letters(
    alloc: Global,
    front: &str,
    letter: &str,
    count: u32,
) -> Result<String, AllocError> {
    let mut shown = String::from_str(alloc, front)?;
    'letters: for _ in 0..count {
        shown.push_str(letter)?;
    }
    shown.push_str("\"")?;
    Ok(shown)
}

/// Returns whether the value is printed as this text.
fn is_printed(alloc: Global, value: &Value<'_, Global>, text: &str) -> bool {
    match printed(alloc, value) {
        Some(printed) => printed.as_slice() == text.as_bytes(),
        None => false,
    }
}

// A text of 8 MiB is shown between two quotes.
#[test]
fn a_long_text_is_shown(rt: HostRuntime) {
    let checked = checked(rt.alloc(), TEXT).expect(&rt, "a registry");
    let value = value_of_letters(&rt, rt.alloc(), &checked, 0, 8_388_608);
    let wanted = shown_letters(rt.alloc(), "\"", "a", 8_388_608).expect(&rt, "memory");
    same(&rt, is_printed(rt.alloc(), &value, &wanted), true);
}

/// Returns whether the value is shown as this text.
fn is_shown(alloc: Global, value: &Value<'_, Global>, text: &str) -> bool {
    match shown(alloc, value) {
        Ok(shown) => shown.as_str() == text,
        Err(_) => false,
    }
}

// A run of 4 MiB is shown as `0x` and two hexadecimal digits for each byte.
#[test]
fn a_long_run_is_shown(rt: HostRuntime) {
    let checked = checked(rt.alloc(), BYTES).expect(&rt, "a registry");
    let value = value_of_letters(&rt, rt.alloc(), &checked, 1, 4_194_304);
    let wanted = shown_letters(rt.alloc(), "\"0x", "61", 4_194_304).expect(&rt, "memory");
    same(&rt, is_shown(rt.alloc(), &value, &wanted), true);
}
