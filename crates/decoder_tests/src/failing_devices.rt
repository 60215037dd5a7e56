//! Devices that fail at each of their calls: what the command reports, and what it has written.

use crate::expect::same;
use scale_tests::paced::{PacedReader, PacedWriter, Then};
use scale_tests::rows::{ROWS, Row};
use std::alloc::Global;
use std::process::Abort;
use test_calls::jobs::decode;
use test_calls::ran::{Devices, Failed, NONE, Ran, wanted};

const REGISTRY: Failed = Failed {
    registry: true,
    ..NONE
};

const VALUE: Failed = Failed {
    value: true,
    ..NONE
};

const OUT: Failed = Failed { out: true, ..NONE };

/// Checks the status and the outputs of the row's run.
fn check_answer(rt: &impl Abort, row: &Row, found: &Ran, status: u8, out: &[u8], err: &[u8]) {
    let name = row.name;
    same(rt, (name, found.status), (name, status));
    same(rt, (name, found.out.as_slice()), (name, out));
    same(rt, (name, found.err.as_slice()), (name, err));
}

/// Checks a run whose registry reader gives `front`, a byte a call, and then fails. The value is
/// not read, and standard output is empty.
fn check_registry_front(rt: &impl Abort, alloc: Global, row: &Row, front: &'static [u8]) {
    let mut devices = Devices::over(alloc, front, row.bytes, 1);
    devices.registry = PacedReader::new(front, 1, Then::Fails);
    devices.value = PacedReader::new(b"", 1, Then::Fails);
    let (ran, failed) = devices.run(alloc, decode(row.ty));
    same(rt, (row.name, failed), (row.name, REGISTRY));
    check_answer(rt, row, &ran, 3, b"", b"scaleview: device: registry\n");
}

// A registry of n bytes is read in n + 1 calls, the last of which should report the end.
#[test]
fn each_read_of_a_registry_may_fail(rt: HostRuntime) {
    'rows: for row in &ROWS {
        'calls: for call in 0..=row.registry.len() {
            let (front, _) = row.registry.split_at(call);
            check_registry_front(&rt, rt.alloc(), row, front);
        }
    }
}

/// Checks a run whose value reader gives `front`, a byte a call, and then fails. A value may be
/// rejected before that call, but one that is shown is read to its end.
fn check_value_front(
    rt: &impl Abort,
    alloc: Global,
    row: &Row,
    wanted: &Ran,
    front: &'static [u8],
) {
    let mut devices = Devices::over(alloc, row.registry, front, 1);
    devices.value = PacedReader::new(front, 1, Then::Fails);
    let (ran, failed) = devices.run(alloc, decode(row.ty));
    if failed == VALUE {
        check_answer(rt, row, &ran, 3, b"", b"scaleview: device: value\n");
    } else {
        same(rt, (row.name, failed), (row.name, NONE));
        same(rt, row.json, "");
        check_answer(rt, row, &ran, wanted.status, &wanted.out, &wanted.err);
    }
}

/// Checks readers that fail after every front of the row's bytes, from no byte to all.
fn check_value_fronts(rt: &impl Abort, alloc: Global, row: &Row) {
    let wanted = wanted(alloc, row.json, row.refusal).expect(rt, "memory");
    'calls: for call in 0..=row.bytes.len() {
        let (front, _) = row.bytes.split_at(call);
        check_value_front(rt, alloc, row, &wanted, front);
    }
}

#[test]
fn each_read_of_a_value_may_fail(rt: HostRuntime) {
    'rows: for row in &ROWS {
        check_value_fronts(&rt, rt.alloc(), row);
    }
}

/// Checks a run whose standard output takes `front` and then no more.
fn check_output(rt: &impl Abort, alloc: Global, row: &Row, front: &[u8], then: Then) {
    let mut devices = Devices::over(alloc, row.registry, row.bytes, 4096);
    devices.out = PacedWriter::new(alloc, front.len(), 4096, then);
    let (ran, failed) = devices.run(alloc, decode(row.ty));
    same(rt, (row.name, failed), (row.name, OUT));
    check_answer(rt, row, &ran, 3, front, b"scaleview: device: output\n");
}

/// Checks runs whose standard output ends before each byte of what the row's value is shown as.
fn check_outputs(rt: &impl Abort, alloc: Global, row: &Row) {
    let wanted = wanted(alloc, row.json, row.refusal).expect(rt, "memory");
    'places: for place in 0..wanted.out.len() {
        let (front, _) = wanted.out.split_at(place);
        check_output(rt, alloc, row, front, Then::Fails);
        check_output(rt, alloc, row, front, Then::TakesNothing);
    }
}

#[test]
fn standard_output_may_end_at_each_byte(rt: HostRuntime) {
    'rows: for row in &ROWS {
        check_outputs(&rt, rt.alloc(), row);
    }
}
