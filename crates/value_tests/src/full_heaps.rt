//! Builders on full heaps, and on heaps that are too small for a claimed length.

use crate::builder_memory::check_refusal;
use crate::expect::same;
use linked_list_allocator::LocalHeap;
use scale_tests::builders::{add_all, begun};
use scale_tests::building::{Call, Standing, add, checked, what_stands};
use scale_tests::registries::{BYTES, TEXT, WORDS};
use std::alloc::Global;
use std::process::Abort;
use value_core::{BuildFault, Builder};
use widths_core::Checked;

/// A registry, a type, a call that opens a value of the type, and a call that fills a heap if it is
/// repeated.
type Row = (&'static [u8], u32, Call<'static>, Call<'static>);

const ROWS: [Row; 3] = [
    (WORDS, 1, Call::List(65_536), Call::Unsigned(7)),
    (
        BYTES,
        1,
        Call::BytesStart(65_536),
        Call::BytesPiece(b"0123456789abcdef"),
    ),
    (
        TEXT,
        0,
        Call::TextStart(65_536),
        Call::TextPiece(b"0123456789abcdef"),
    ),
];

/// Repeats the call until it fails. Returns the error, and what the builder reported before that
/// call.
fn first_refusal(
    builder: &mut Builder<'_, &LocalHeap>,
    call: Call<'_>,
) -> Option<(BuildFault, Standing)> {
    'calls: for _ in 0..65_536 {
        let before = what_stands(builder);
        if let Err(fault) = add(builder, call) {
            return Some((fault, before));
        }
    }
    None
}

/// Checks that the call succeeds and changes what the builder reports.
fn check_added(rt: &impl Abort, builder: &mut Builder<'_, &LocalHeap>, call: Call<'_>) {
    let before = what_stands(builder);
    same(rt, add(builder, call), Ok(()));
    same(rt, what_stands(builder) != before, true);
}

/// Fills a heap, of which another vector holds this many bytes. Checks that the call that fails
/// changes nothing, and succeeds once that vector is freed.
fn check_fill(rt: &impl Abort, heap: &LocalHeap, checked: &Checked, row: &Row, held: usize) {
    let (_, ty, opening, call) = *row;
    let held: Vec<u8, &LocalHeap> = Vec::with_capacity(heap, held).expect(rt, "memory");
    let mut builder = begun(heap, checked, ty, 64).expect(rt, "a builder");
    same(rt, add(&mut builder, opening), Ok(()));
    let (fault, before) = first_refusal(&mut builder, call).expect(rt, "the heap does not fill");
    check_refusal(rt, &builder, fault, before);
    drop(held);
    check_added(rt, &mut builder, call);
}

/// Fills a heap of this size, and checks that nothing stays allocated.
fn check_full_heap(rt: &impl Abort, alloc: Global, checked: &Checked, row: &Row, size: usize) {
    let heap = LocalHeap::new(alloc, size).expect(rt, "a heap");
    check_fill(rt, &heap, checked, row, size - size / 8);
    same(rt, heap.used(), 0);
}

#[test]
fn a_builder_on_a_full_heap_goes_on_when_memory_is_free(rt: HostRuntime) {
    'rows: for row in &ROWS {
        let checked = checked(rt.alloc(), row.0).expect(&rt, "a registry");
        check_full_heap(&rt, rt.alloc(), &checked, row, 16_384);
        check_full_heap(&rt, rt.alloc(), &checked, row, 65_536);
    }
}

/// A registry, calls that build a part of a value of its type 1, and the counts of nodes and bytes
/// that the builder then reports.
type Claim = (&'static [u8], &'static [Call<'static>], (u64, u64));

const CLAIMS: [Claim; 2] = [
    (
        WORDS,
        &[
            Call::List(4_294_967_295),
            Call::Unsigned(1),
            Call::Unsigned(2),
        ],
        (3, 0),
    ),
    (
        BYTES,
        &[
            Call::BytesStart(4_294_967_295),
            Call::BytesPiece(b"\x01"),
            Call::BytesPiece(b"\x02\x03"),
        ],
        (0, 3),
    ),
];

/// Checks that the calls succeed on a small heap, and the counts that the builder then reports.
fn check_claim(rt: &impl Abort, heap: &LocalHeap, checked: &Checked, claim: &Claim) {
    let (_, calls, (nodes, texts)) = *claim;
    let mut builder = begun(heap, checked, 1, 64).expect(rt, "a builder");
    same(rt, add_all(&mut builder, calls), Ok(()));
    same(rt, builder.node_count(), nodes);
    same(rt, builder.text_bytes(), texts);
}

// Memory is allocated for what was added, not for the claimed length.
#[test]
fn a_claimed_length_takes_no_memory(rt: HostRuntime) {
    'claims: for claim in &CLAIMS {
        let heap = LocalHeap::new(rt.alloc(), 4096).expect(&rt, "a heap");
        let checked = checked(rt.alloc(), claim.0).expect(&rt, "a registry");
        check_claim(&rt, &heap, &checked, claim);
    }
}
