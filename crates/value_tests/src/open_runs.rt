//! Texts and runs of bytes that are added to a builder in pieces: their counts, and a long piece.

use crate::expect::same;
use scale_tests::builders::{begun, counts, finished};
use scale_tests::building::{Call, add, checked};
use scale_tests::registries::{TEXT, TEXT_AND_BYTES, TWO_TEXTS};
use std::alloc::Global;
use std::process::Abort;
use value_core::Value;
use widths_core::Checked;

/// A call, and how many nodes and bytes of texts and runs the builder holds after it.
type Step = (Call<'static>, u64, u64);

/// Calls that build a tuple of two texts.
const OF_TEXTS: [Step; 8] = [
    (Call::Fields, 1, 0),
    (Call::Text("ab"), 2, 2),
    (Call::TextStart(4), 2, 2),
    (Call::TextPiece(b"\xc3"), 2, 3),
    (Call::TextPiece(b""), 2, 3),
    (Call::TextPiece(b"\xa9\xc3"), 2, 5),
    (Call::TextPiece(b"\xa9"), 2, 6),
    (Call::TextEnd, 3, 6),
];

/// Calls that build a tuple of a text and an array of three bytes.
const OF_BYTES: [Step; 7] = [
    (Call::Fields, 1, 0),
    (Call::Text("ab"), 2, 2),
    (Call::BytesStart(3), 2, 2),
    (Call::BytesPiece(b"\x07"), 2, 3),
    (Call::BytesPiece(b""), 2, 3),
    (Call::BytesPiece(b"\xff\x00"), 2, 5),
    (Call::BytesEnd, 3, 5),
];

/// Makes the calls, and checks the counts after each.
fn check_steps(rt: &impl Abort, alloc: Global, checked: &Checked, ty: u32, steps: &[Step]) {
    let mut builder = begun(alloc, checked, ty, 64).expect(rt, "a builder");
    'steps: for step in steps {
        let (call, nodes, texts) = *step;
        same(rt, add(&mut builder, call), Ok(()));
        same(rt, builder.node_count(), nodes);
        same(rt, builder.text_bytes(), texts);
    }
}

/// Checks the counts while two texts are added.
fn check_texts(rt: &impl Abort, alloc: Global) {
    let checked = checked(alloc, TWO_TEXTS).expect(rt, "a registry");
    check_steps(rt, alloc, &checked, 1, &OF_TEXTS);
}

/// Checks the counts while a text and three bytes are added.
fn check_bytes(rt: &impl Abort, alloc: Global) {
    let checked = checked(alloc, TEXT_AND_BYTES).expect(rt, "a registry");
    check_steps(rt, alloc, &checked, 3, &OF_BYTES);
}

// The bytes of an open text or run are counted, but it is not a node yet.
#[test]
fn open_texts_and_runs_are_counted_as_they_come(rt: HostRuntime) {
    check_texts(&rt, rt.alloc());
    check_bytes(&rt, rt.alloc());
}

/// Returns the text of these 1,048,576 bytes, added in one piece. Checks the counts before its end.
fn long_text<'r>(
    rt: &impl Abort,
    alloc: Global,
    checked: &'r Checked,
    letters: &[u8],
) -> Value<'r, Global> {
    let mut builder = begun(alloc, checked, 0, 0).expect(rt, "a builder");
    same(rt, add(&mut builder, Call::TextStart(1_048_576)), Ok(()));
    same(rt, add(&mut builder, Call::TextPiece(letters)), Ok(()));
    same(rt, builder.node_count(), 0);
    same(rt, builder.text_bytes(), 1_048_576);
    same(rt, add(&mut builder, Call::TextEnd), Ok(()));
    finished(builder).expect(rt, "a value")
}

#[test]
fn a_piece_of_one_mebibyte_is_added(rt: HostRuntime) {
    let checked = checked(rt.alloc(), TEXT).expect(&rt, "a registry");
    let letters = vec![in rt.alloc(); b'a'; 1_048_576].expect(&rt, "memory");
    let value = long_text(&rt, rt.alloc(), &checked, &letters);
    same(&rt, counts(&value), (1, 1_048_576));
    let text = value.root().text().expect(&rt, "a text");
    same(&rt, text.as_bytes() == letters.as_slice(), true);
}
