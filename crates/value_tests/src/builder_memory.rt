//! Builders whose allocations fail: the error is reported, nothing changes, and the same call
//! succeeds later.

use crate::expect::same;
use linked_list_allocator::LocalHeap;
use registry_core::TypeId;
use scale_tests::builders::{begun, counts, finished};
use scale_tests::building::{Call, Standing, add, checked, is_written, what_stands};
use scale_tests::rationed::Rationed;
use scale_tests::registries::{
    BYTES, CHARACTER, COMPACT_OF_A_BOOL, COMPACT_U128, OPTION, TEXT, TEXT_AND_BYTES,
    TWO_UNITS_AND_A_BYTE, U8, U128, UNITS, WIDE, WORDS,
};
use std::alloc::{Allocator, Global};
use std::process::Abort;
use value_core::{BuildFault, Builder};
use widths_core::Checked;

/// A tuple of a text, a sequence of bytes, a wide integer, a chain of arms and a text.
const MIXED: &[u8] =
    b"\x18\x00\x00\x00\x05\x02\x00\x04\x00\x00\x05\x03\x00\x08\x00\x00\x02\x04\x00\x0c\x00\x00\x05\x08\x00\x10\x00\x00\x01\x08\x0cEnd\x00\x00\x00\x10Next\x04\x00\x10\x00\x00\x01\x00\x00\x14\x00\x00\x04\x14\x00\x08\x0c\x10\x00\x00";

const MIXED_CALLS: [Call<'static>; 18] = [
    Call::Fields,
    Call::Text("ab"),
    Call::BytesStart(3),
    Call::BytesPiece(b"\x01"),
    Call::BytesPiece(b"\x02\x03"),
    Call::BytesEnd,
    Call::Wide([7; 32]),
    Call::Arm(1),
    Call::Arm(1),
    Call::Arm(1),
    Call::Arm(1),
    Call::Arm(1),
    Call::Arm(0),
    Call::TextStart(4),
    Call::TextPiece(b"\xc3"),
    Call::TextPiece(b"\xa9\xc3"),
    Call::TextPiece(b"\xa9"),
    Call::TextEnd,
];

const MIXED_BYTES: &[u8] =
    b"\x08ab\x0c\x01\x02\x03\x07\x07\x07\x07\x07\x07\x07\x07\x07\x07\x07\x07\x07\x07\x07\x07\x07\x07\x07\x07\x07\x07\x07\x07\x07\x07\x07\x07\x07\x07\x07\x07\x01\x01\x01\x01\x01\x00\x10\xc3\xa9\xc3\xa9";

/// A registry, a type, the calls before the tested one, the tested call, the calls after it, and
/// the bytes of the built value.
type Row = (
    &'static [u8],
    u32,
    &'static [Call<'static>],
    Call<'static>,
    &'static [Call<'static>],
    &'static [u8],
);

const I8: &[u8] = b"\x04\x00\x00\x00\x05\x09\x00";

/// Every kind of call that adds a node other than a text or a run, on a builder without capacity
/// for it.
const NODES: [Row; 12] = [
    (UNITS, 1, &[], Call::Empty, &[], b""),
    (COMPACT_OF_A_BOOL, 0, &[], Call::Bool(true), &[], b"\x01"),
    (CHARACTER, 0, &[], Call::Char('a'), &[], b"a\x00\x00\x00"),
    (U8, 0, &[], Call::Unsigned(42), &[], b"*"),
    (
        COMPACT_U128,
        0,
        &[],
        Call::Unsigned(18_446_744_073_709_551_616),
        &[],
        b"\0\0\0\0\0\0\0\0\x01\0\0\0\0\0\0\0",
    ),
    (I8, 0, &[], Call::Signed(-2), &[], b"\xfe"),
    (WIDE, 0, &[], Call::Wide([7; 32]), &[], &[7; 32]),
    (COMPACT_U128, 1, &[], Call::Compact(63), &[], b"\xfc"),
    (UNITS, 2, &[], Call::Count(3), &[], b"\x0c"),
    (
        TWO_UNITS_AND_A_BYTE,
        2,
        &[],
        Call::Fields,
        &[Call::Empty, Call::Empty, Call::Unsigned(42)],
        b"*",
    ),
    (
        OPTION,
        1,
        &[],
        Call::Arm(1),
        &[Call::Unsigned(42)],
        b"\x01*\x00\x00\x00",
    ),
    (
        WORDS,
        1,
        &[],
        Call::List(1),
        &[Call::Unsigned(7)],
        b"\x04\x07\x00",
    ),
];

/// Every kind of call that allocates for a text or a run of bytes, on a builder without capacity
/// for what it adds. The calls that begin a text or a run don't allocate.
const RUNS: [Row; 8] = [
    (TEXT, 0, &[], Call::Text("a"), &[], b"\x04a"),
    (
        TEXT,
        0,
        &[Call::TextStart(1)],
        Call::TextPiece(b"a"),
        &[Call::TextEnd],
        b"\x04a",
    ),
    (
        TEXT,
        0,
        &[Call::TextStart(1), Call::TextPiece(b"a")],
        Call::TextEnd,
        &[],
        b"\x04a",
    ),
    (BYTES, 1, &[], Call::Bytes(b"\xff"), &[], b"\x04\xff"),
    (
        TEXT_AND_BYTES,
        2,
        &[],
        Call::Bytes(b"\x07\xff\x00"),
        &[],
        b"\x07\xff\x00",
    ),
    (
        BYTES,
        1,
        &[Call::BytesStart(1)],
        Call::BytesPiece(b"\xff"),
        &[Call::BytesEnd],
        b"\x04\xff",
    ),
    (
        BYTES,
        1,
        &[Call::BytesStart(1), Call::BytesPiece(b"\xff")],
        Call::BytesEnd,
        &[],
        b"\x04\xff",
    ),
    (
        BYTES,
        1,
        &[Call::BytesStart(0)],
        Call::BytesEnd,
        &[],
        b"\x00",
    ),
];

/// Checks that a failed allocation was reported and changed nothing.
pub(crate) fn check_refusal<A: Allocator>(
    rt: &impl Abort,
    builder: &Builder<'_, A>,
    fault: BuildFault,
    before: Standing,
) {
    same(rt, reason_of(fault), Reason::OutOfMemory);
    same(rt, what_stands(builder), before);
}

/// Makes the call, and repeats it if its allocation fails. Returns whether it failed.
fn add_twice<A: Allocator>(rt: &impl Abort, builder: &mut Builder<'_, A>, call: Call<'_>) -> bool {
    let before = what_stands(builder);
    match add(builder, call) {
        Ok(()) => false,
        Err(fault) => {
            check_refusal(rt, builder, fault, before);
            same(rt, add(builder, call), Ok(()));
            true
        }
    }
}

/// Makes the calls, and repeats each one whose allocation fails. Returns how many failed.
fn add_all_twice<A: Allocator>(
    rt: &impl Abort,
    builder: &mut Builder<'_, A>,
    calls: &[Call<'_>],
) -> u32 {
    let mut refused: u32 = 0;
    'calls: for call in calls {
        if add_twice(rt, builder, *call) {
            refused = refused.saturating_add(1);
        }
    }
    refused
}

/// Builds the value of [`MIXED_CALLS`] with this allocator. Returns how many calls report a failed
/// allocation.
fn refused_calls<A: Allocator + Clone>(
    rt: &impl Abort,
    alloc: Global,
    checked: &Checked,
    memory: A,
) -> u32 {
    let mut builder = begun(memory, checked, 5, 64).expect(rt, "a builder");
    let refused = add_all_twice(rt, &mut builder, &MIXED_CALLS);
    let value = finished(builder).expect(rt, "a value");
    same(rt, counts(&value), (11, 9));
    same(rt, is_written(alloc, &value, MIXED_BYTES), true);
    refused
}

/// Builds a value while this request fails. Checks that one call reports the failure and that
/// nothing stays allocated. Returns whether the request was made.
fn is_requested(
    rt: &impl Abort,
    alloc: Global,
    checked: &Checked,
    heap: &LocalHeap,
    request: u64,
) -> bool {
    let memory = Rationed::new(heap, request);
    let refused = refused_calls(rt, alloc, checked, &memory);
    same(rt, heap.used(), 0);
    let is_made = memory.is_past_refusal();
    same(rt, refused, u32::from(is_made));
    is_made
}

// Nodes, bytes of texts and open nodes are stored separately, and each store grows at least once.
#[test]
fn a_failed_allocation_changes_nothing(rt: HostRuntime) {
    let checked = checked(rt.alloc(), MIXED).expect(&rt, "a registry");
    let heap = LocalHeap::new(rt.alloc(), 65_536).expect(&rt, "a heap");
    'requests: for request in 1..1000 {
        if !is_requested(&rt, rt.alloc(), &checked, &heap, request) {
            same(&rt, request > 3, true);
            return;
        }
    }
    panic!(rt; "an allocation of each run fails")
}

/// Builds the row's value with this allocator. Returns whether the row's call reports a failed
/// allocation.
fn is_refused<A: Allocator + Clone>(
    rt: &impl Abort,
    alloc: Global,
    checked: &Checked,
    memory: A,
    row: &Row,
) -> bool {
    let (_, ty, before, call, after, bytes) = *row;
    let mut builder = begun(memory, checked, ty, 64).expect(rt, "a builder");
    add_all_twice(rt, &mut builder, before);
    let refused = add_twice(rt, &mut builder, call);
    add_all_twice(rt, &mut builder, after);
    let value = finished(builder).expect(rt, "a value");
    same(rt, is_written(alloc, &value, bytes), true);
    refused
}

/// Lets each allocation of the row fail in turn. Returns how often the row's call reports it.
fn refusals_of(rt: &impl Abort, alloc: Global, checked: &Checked, row: &Row) -> u32 {
    let mut refusals: u32 = 0;
    'requests: for request in 1..100 {
        let memory = Rationed::new(alloc, request);
        if is_refused(rt, alloc, checked, &memory, row) {
            refusals = refusals.saturating_add(1);
        }
        if !memory.is_past_refusal() {
            return refusals;
        }
    }
    panic!(rt; "an allocation of each run fails")
}

/// Checks that the call of each row reports a failed allocation.
fn check_rows(rt: &impl Abort, alloc: Global, rows: &[Row]) {
    'rows: for row in rows {
        let checked = checked(alloc, row.0).expect(rt, "a registry");
        let refusals = refusals_of(rt, alloc, &checked, row);
        same(rt, refusals > 0, true);
    }
}

/// Checks the rows of [`NODES`].
fn check_nodes(rt: &impl Abort, alloc: Global) {
    check_rows(rt, alloc, &NODES);
}

/// Checks the rows of [`RUNS`].
fn check_runs(rt: &impl Abort, alloc: Global) {
    check_rows(rt, alloc, &RUNS);
}

#[test]
fn each_kind_of_call_reports_a_failed_allocation(rt: HostRuntime) {
    check_nodes(&rt, rt.alloc());
    check_runs(&rt, rt.alloc());
}

/// Why a call is rejected.
#[derive(Clone, Copy, Debug, PartialEq, Eq)]
enum Reason {
    OutOfMemory,
    Fault(BuildFault),
}

fn reason_of(fault: BuildFault) -> Reason {
    match fault {
        BuildFault::OutOfMemory(_) => Reason::OutOfMemory,
        fault => Reason::Fault(fault),
    }
}

/// A call, and why it is rejected.
type Answer = (Call<'static>, Option<Reason>);

/// A registry, a type, the request that fails, the calls with their errors, and whether the request
/// is made.
type Order = (&'static [u8], u32, u64, &'static [Answer], bool);

/// A bad call is rejected before anything is allocated for it. The greatest integer of 64 bits
/// needs no bytes outside its node.
const ORDERS: [Order; 3] = [
    (
        BYTES,
        1,
        1,
        &[
            (Call::BytesStart(2), None),
            (
                Call::BytesPiece(b"\x07\xff\x00"),
                Some(Reason::Fault(BuildFault::OutOfRange)),
            ),
            (
                Call::BytesEnd,
                Some(Reason::Fault(BuildFault::UnfinishedValue)),
            ),
            (Call::BytesPiece(b"\x07\xff"), Some(Reason::OutOfMemory)),
            (Call::BytesPiece(b"\x07\xff"), None),
        ],
        true,
    ),
    (
        TEXT,
        0,
        2,
        &[
            (Call::TextStart(1), None),
            (Call::TextPiece(b"\xff"), None),
            (
                Call::TextEnd,
                Some(Reason::Fault(BuildFault::BadText { valid: 0 })),
            ),
        ],
        false,
    ),
    (
        U128,
        0,
        2,
        &[(Call::Unsigned(18_446_744_073_709_551_615), None)],
        false,
    ),
];

/// Makes the calls on a builder with this allocator, and checks their errors.
fn check_answers<A: Allocator + Clone>(
    rt: &impl Abort,
    checked: &Checked,
    memory: A,
    ty: u32,
    answers: &[Answer],
) {
    let mut builder = begun(memory, checked, ty, 64).expect(rt, "a builder");
    'calls: for answer in answers {
        let (call, fault) = *answer;
        same(rt, add(&mut builder, call).err().map(reason_of), fault);
    }
}

/// Makes the calls of each order, and checks their errors and whether the request is made.
fn check_orders(rt: &impl Abort, alloc: Global, orders: &[Order]) {
    'orders: for order in orders {
        let (registry, ty, request, answers, is_made) = *order;
        let checked = checked(alloc, registry).expect(rt, "a registry");
        let memory = Rationed::new(alloc, request);
        check_answers(rt, &checked, &memory, ty, answers);
        same(rt, memory.is_past_refusal(), is_made);
    }
}

#[test]
fn a_bad_call_is_reported_before_a_failed_allocation(rt: HostRuntime) {
    check_orders(&rt, rt.alloc(), &ORDERS);
}

/// A request that fails, a type, a depth limit, and the error of a new builder.
type New = (u64, u32, u16, Option<Reason>);

const NEW_BUILDERS: [New; 7] = [
    (1, 1, 64, Some(Reason::Fault(BuildFault::UnknownType))),
    (1, 1, 1025, Some(Reason::Fault(BuildFault::UnknownType))),
    (1, 0, 1025, Some(Reason::Fault(BuildFault::OutOfRange))),
    (1, 0, 1024, Some(Reason::OutOfMemory)),
    (2, 0, 1024, Some(Reason::OutOfMemory)),
    (3, 0, 1024, None),
    (0, 0, 1024, None),
];

// A builder clones its allocator twice, for its nodes and for its bytes.
#[test]
fn a_builder_without_memory_is_not_made(rt: HostRuntime) {
    let checked = checked(rt.alloc(), U8).expect(&rt, "a registry");
    'rows: for row in &NEW_BUILDERS {
        let (request, ty, depth, fault) = *row;
        let memory = Rationed::new(rt.alloc(), request);
        let reported = Builder::new(memory, &checked, TypeId(ty), depth).err();
        same(&rt, reported.map(reason_of), fault);
    }
}
