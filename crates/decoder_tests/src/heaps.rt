//! Decoders on heaps of fixed size: a claimed length allocates nothing, and a decoder that exceeds
//! the heap fails for good.

use crate::decoder_memory::{letters, refused};
use crate::expect::same;
use decode_core::{DecodeFault, DecodeReason, Decoder, Progress};
use linked_list_allocator::LocalHeap;
use scale_tests::building::checked;
use scale_tests::registries::{
    BYTES, HUGE_ARRAY_OF_WORDS, LONG_ARRAY, LONG_ARRAY_OF_WORDS, U8, WORDS, nested_pairs,
};
use scale_tests::rows::AMPLE;
use std::alloc::Global;
use std::process::Abort;
use test_calls::calls::{Holding, feed, finish, held, open};
use value_core::What;
use widths_core::Checked;

/// Checks that a value of type 40 takes no bytes and is one node.
fn check_units(rt: &impl Abort, heap: &LocalHeap, checked: &Checked) {
    let mut decoder = open(heap, checked, 40, AMPLE).expect(rt, "a decoder");
    same(rt, feed(&mut decoder, b""), Ok(Progress::Done { used: 0 }));
    let value = finish(decoder).expect(rt, "a value");
    same(rt, value.node_count(), 1);
    same(rt, value.text_bytes(), 0);
}

#[test]
fn a_value_of_two_to_the_fortieth_units_is_one_node(rt: HostRuntime) {
    let registry = nested_pairs(rt.alloc()).expect(&rt, "memory");
    let checked = checked(rt.alloc(), &registry).expect(&rt, "a registry");
    let heap = LocalHeap::new(rt.alloc(), 65_536).expect(&rt, "a heap");
    check_units(&rt, &heap, &checked);
    same(&rt, heap.used(), 0);
}

/// Feeds too few bytes for a value of type 1. Checks the counts of nodes and of bytes of runs, and
/// that the value is truncated.
fn check_cut(
    rt: &impl Abort,
    heap: &LocalHeap,
    checked: &Checked,
    bytes: &[u8],
    (nodes, texts): (u64, u64),
) {
    let mut decoder = open(heap, checked, 1, AMPLE).expect(rt, "a decoder");
    same(rt, feed(&mut decoder, bytes), Ok(Progress::More));
    let taken = bytes.len() as u64;
    let wanted = Holding {
        nodes,
        texts,
        taken,
    };
    same(rt, held(&decoder), wanted);
    let cut = DecodeFault {
        reason: DecodeReason::Truncated,
        at: taken,
    };
    same(rt, finish(decoder).err(), Some(cut));
}

/// Feeds too few bytes for a value of type 1 to a decoder on a heap of this size. Checks the counts
/// of nodes and of bytes of runs, and that nothing stays allocated.
fn check_claim(
    rt: &impl Abort,
    alloc: Global,
    size: usize,
    (registry, bytes): (&[u8], &[u8]),
    counts: (u64, u64),
) {
    let heap = LocalHeap::new(alloc, size).expect(rt, "a heap");
    let checked = checked(alloc, registry).expect(rt, "a registry");
    check_cut(rt, &heap, &checked, bytes, counts);
    same(rt, heap.used(), 0);
}

// A sequence claims 2^30 - 1 elements and an array 2^32 - 1, but only a few bytes follow.
#[test]
fn claimed_lengths_fit_a_small_heap(rt: HostRuntime) {
    let sequence = b"\xfe\xff\xff\xff\x01\x02".as_slice();
    let array = b"\x01\x02\x03".as_slice();
    let claims = [
        (4096, (BYTES, sequence), (0, 2)),
        (4096, (LONG_ARRAY, array), (0, 3)),
        (65_536, (WORDS, sequence), (2, 0)),
        (65_536, (LONG_ARRAY_OF_WORDS, array), (2, 0)),
    ];
    'claims: for (size, claim, counts) in claims {
        check_claim(&rt, rt.alloc(), size, claim, counts);
    }
}

// 2^30 - 1 words are claimed and a thousand follow, whose nodes take 24 kB. The heap has room for
// six times as many, which is enough while the nodes are moved.
#[test]
fn a_claimed_length_takes_room_by_what_came(rt: HostRuntime) {
    let words = letters(rt.alloc(), 1_073_741_823, 2000).expect(&rt, "memory");
    check_claim(&rt, rt.alloc(), 150_000, (WORDS, &words), (1001, 0))
}

// 2^31 words are claimed and 40 follow, whose nodes take 984 bytes. The heap serves no request for
// more than its 4096 bytes.
#[test]
fn a_claim_of_many_elements_asks_for_few(rt: HostRuntime) {
    check_claim(
        &rt,
        rt.alloc(),
        4096,
        (HUGE_ARRAY_OF_WORDS, &[7; 80]),
        (41, 0),
    )
}

/// Feeds a piece whose allocation fails, and checks that the decoder then holds nothing.
fn check_refused(rt: &impl Abort, decoder: &mut Decoder<'_, &LocalHeap>, piece: &[u8]) {
    same(rt, feed(decoder, piece), Err(refused()));
    let Holding { nodes, texts, .. } = held(decoder);
    same(rt, nodes, 0);
    same(rt, texts, 0);
}

/// Returns a decoder to which more bytes were fed than the heap holds.
fn exceeded<'r>(
    rt: &impl Abort,
    heap: &'r LocalHeap,
    checked: &'r Checked,
    many: &[u8],
) -> Decoder<'r, &'r LocalHeap> {
    let mut decoder = open(heap, checked, 1, AMPLE).expect(rt, "a decoder");
    check_refused(rt, &mut decoder, many);
    decoder
}

/// Checks that a decoder that exceeded the heap fails at each later call.
fn check_exceeded(rt: &impl Abort, heap: &LocalHeap, checked: &Checked, many: &[u8]) {
    let mut decoder = exceeded(rt, heap, checked, many);
    'pieces: for piece in [b"".as_slice(), b"\x07", many] {
        check_refused(rt, &mut decoder, piece);
    }
    same(rt, finish(decoder).err(), Some(refused()));
}

// A failed allocation ends a decoder for good.
#[test]
fn a_heap_of_fixed_size_bounds_a_decoder(rt: HostRuntime) {
    let checked = checked(rt.alloc(), BYTES).expect(&rt, "a registry");
    let heap = LocalHeap::new(rt.alloc(), 4096).expect(&rt, "a heap");
    let many = letters(rt.alloc(), 65_536, 65_536).expect(&rt, "memory");
    check_exceeded(&rt, &heap, &checked, &many);
    same(&rt, heap.used(), 0);
}

/// Checks that a decoder on the heap decodes a byte.
fn check_byte(rt: &impl Abort, heap: &LocalHeap, checked: &Checked) {
    let mut decoder = open(heap, checked, 0, AMPLE).expect(rt, "a decoder");
    let reported = feed(&mut decoder, b"\x2a");
    same(rt, reported, Ok(Progress::Done { used: 1 }));
    let value = finish(decoder).expect(rt, "a value");
    same(rt, value.root().what(), What::Unsigned(42));
}

/// Checks that the heap serves a decoder of a byte beside one that has exceeded it.
fn check_next(rt: &impl Abort, heap: &LocalHeap, sequence: &Checked, byte: &Checked, many: &[u8]) {
    let _full = exceeded(rt, heap, sequence, many);
    check_byte(rt, heap, byte)
}

// A heap that one decoder has exceeded serves the next one.
#[test]
fn a_full_heap_serves_the_next_decoder(rt: HostRuntime) {
    let sequence = checked(rt.alloc(), BYTES).expect(&rt, "a registry");
    let byte = checked(rt.alloc(), U8).expect(&rt, "a registry");
    let heap = LocalHeap::new(rt.alloc(), 4096).expect(&rt, "a heap");
    let many = letters(rt.alloc(), 65_536, 65_536).expect(&rt, "memory");
    check_next(&rt, &heap, &sequence, &byte, &many)
}
