//! The memory that a JSON text takes while it is written.

use crate::expect::same;
use budget_core::Budget;
use json_core::json_text;
use scale_tests::building::checked;
use scale_tests::registries::{TEXT, WORDS};
use scale_tests::rows::AMPLE;
use std::alloc::{AllocError, Global};
use std::process::Abort;
use test_calls::calls::front_of;
use value_core::Value;

/// Returns the length of the value's text if it is written within a budget of this many bytes.
fn written_length(
    alloc: Global,
    bytes: u64,
    value: &Value<'_, Global>,
) -> Result<Option<u64>, AllocError> {
    let budget = Budget::new(alloc, bytes)?;
    match json_text(alloc, budget, value) {
        Ok(text) => Ok(Some(text.len() as u64)),
        Err(_) => Ok(None),
    }
}

/// Checks that the text of a value has this length in bytes, and is written within a budget of
/// twice as many and 256 more, but not within one of fewer bytes than the text has.
fn check_text(rt: &impl Abort, alloc: Global, value: &Value<'_, Global>, length: u32) {
    let length = u64::from(length);
    let written = written_length(alloc, 2 * length + 256, value).expect(rt, "memory");
    same(rt, written, Some(length));
    let short = written_length(alloc, length.saturating_sub(1), value).expect(rt, "memory");
    same(rt, short, None);
}

/// Checks the memory of the text of the value that the parts spell, which has this length.
fn check_memory(
    rt: &impl Abort,
    alloc: Global,
    (registry, ty): (&[u8], u32),
    parts: &[&[u8]],
    length: u32,
) {
    let checked = checked(alloc, registry).expect(rt, "a registry");
    let Ok((value, _)) = front_of(alloc, &checked, ty, AMPLE, parts) else {
        panic!(rt; "no value");
    };
    check_text(rt, alloc, &value, length);
}

/// Checks the memory of a list's text: the bytes before its words, the words' bytes, each of which
/// is 3, and the length of the text.
fn check_words(rt: &impl Abort, alloc: Global, front: &[u8], bytes: usize, length: u32) {
    let words = vec![in alloc; 3; bytes].expect(rt, "memory");
    check_memory(rt, alloc, (WORDS, 1), &[front, words.as_slice()], length)
}

// Each word is written as 771, with a comma or bracket after it; there is one bracket more.
#[test]
fn a_list_is_written_in_twice_its_length(rt: HostRuntime) {
    check_words(&rt, rt.alloc(), b"\xb1\x04", 600, 1_201);
    check_words(&rt, rt.alloc(), b"\xa2\x09\x01\x00", 34_000, 68_001);
    check_words(&rt, rt.alloc(), b"\x02\x9f\x24\x00", 1_200_000, 2_400_001)
}

// The text has 400,000 bytes, the last of which is a line feed. A line feed is written as two
// bytes, U+0001 as six, and the quotes are two more.
#[test]
fn a_text_with_escapes_is_written_in_twice_its_length(rt: HostRuntime) {
    'rows: for (byte, length) in [(b'a', 400_003), (1, 2_399_998)] {
        let bytes = vec![in rt.alloc(); byte; 399_999].expect(&rt, "memory");
        let parts = [b"\x02\x6a\x18\x00".as_slice(), bytes.as_slice(), b"\n"];
        check_memory(&rt, rt.alloc(), (TEXT, 0), &parts, length);
    }
}
