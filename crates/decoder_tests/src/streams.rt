//! Values decoded from readers that fail, and values that end at the edge of a read.

use crate::decoder_memory::{letters, refused};
use crate::expect::{printed_as, same};
use decode_core::{OpenFault, StreamFault};
use scale_core::Source;
use scale_tests::building::checked;
use scale_tests::paced::{PacedReader, Then};
use scale_tests::registries::{BYTES, COMPACT_OF_A_BOOL, TEN_THOUSAND_BYTES, U16};
use scale_tests::rows::{AMPLE, ROWS, Row};
use std::alloc::Global;
use std::io;
use std::io::Read;
use std::process::Abort;
use test_calls::calls::all_of;
use value_core::Limits;
use widths_core::Checked;

/// Decodes the row from a reader that gives this front of its bytes, a byte a call, and then fails.
/// Checks that the failure is reported, or the row's error if it was decided before.
fn check_front(rt: &impl Abort, alloc: Global, checked: &Checked, row: &Row, front: &[u8]) {
    let mut source = Source::new(PacedReader::new(front, 1, Then::Fails));
    let Some(fault) = all_of(alloc, checked, row.ty, AMPLE, &mut source).err() else {
        panic!(rt; "{}", row.name);
    };
    let wanted = if source.failed() {
        "Device"
    } else {
        row.refusal
    };
    printed_as(rt, alloc, fault, wanted);
}

// A value of n bytes is read in n + 1 calls, the last of which should report the end.
#[test]
fn each_read_that_fails_is_reported_unless_all_was_decided(rt: HostRuntime) {
    'rows: for row in &ROWS {
        let checked = checked(rt.alloc(), row.registry).expect(&rt, "a registry");
        'reads: for read in 0..=row.bytes.len() {
            let (front, _) = row.bytes.split_at(read);
            check_front(&rt, rt.alloc(), &checked, row, front);
        }
    }
}

/// A registry, a type, bytes that a reader gives in one read before it fails, the error, and
/// whether the reader failed.
type Decided = (&'static [u8], u32, &'static [u8], StreamFault, bool);

/// A value is complete after two bytes, but the read that would report the end fails. A byte after
/// the value comes with the first read, and no other read is made. A type that is rejected before
/// any byte is rejected after the first read.
const DECIDED: [Decided; 3] = [
    (U16, 0, b"\x2a\x00", StreamFault::Device, true),
    (
        U16,
        0,
        b"\x2a\x00\xff",
        StreamFault::TrailingBytes { at: 2 },
        false,
    ),
    (COMPACT_OF_A_BOOL, 1, b"", StreamFault::Device, true),
];

#[test]
fn an_answer_comes_after_the_read_that_decides_it(rt: HostRuntime) {
    'rows: for row in &DECIDED {
        let (registry, ty, bytes, fault, is_failed) = *row;
        let checked = checked(rt.alloc(), registry).expect(&rt, "a registry");
        let mut source = Source::new(PacedReader::new(bytes, 4096, Then::Fails));
        let reported = all_of(rt.alloc(), &checked, ty, AMPLE, &mut source).err();
        same(&rt, reported, Some(fault));
        same(&rt, source.failed(), is_failed);
    }
}

/// An unknown type, and limits that are out of range, with the errors that a decoder returns.
const UNOPENED: [(u32, u16, u64, OpenFault); 4] = [
    (1, 64, 16_777_216, OpenFault::UnknownType),
    (1, 1025, 16_777_216, OpenFault::UnknownType),
    (0, 1025, 16_777_216, OpenFault::LimitOutOfRange),
    (0, 64, 1_099_511_627_777, OpenFault::LimitOutOfRange),
];

#[test]
fn a_decoder_that_is_not_made_reads_nothing(rt: HostRuntime) {
    let checked = checked(rt.alloc(), U16).expect(&rt, "a registry");
    'rows: for row in &UNOPENED {
        let (ty, depth, bytes, fault) = *row;
        let limits = Limits { depth, bytes };
        let mut source = Source::new(PacedReader::new(b"", 1, Then::Fails));
        let reported = all_of(rt.alloc(), &checked, ty, limits, &mut source).err();
        same(&rt, reported, Some(StreamFault::Open(fault)));
        same(&rt, source.failed(), false);
    }
}

/// Decodes all of the bytes as a value of type 1, and checks the error.
fn check_all(
    rt: &impl Abort,
    alloc: Global,
    checked: &Checked,
    all: &[u8],
    wanted: Option<StreamFault>,
) {
    let mut source = Source::new(all);
    let reported = all_of(alloc, checked, 1, AMPLE, &mut source).err();
    same(rt, reported, wanted);
}

// A read asks for at most 4096 bytes, so the value and what follows it may come in one read or two.
// The value has a length of two bytes.
#[test]
fn a_byte_after_is_reported_at_the_edge_of_a_read(rt: HostRuntime) {
    let checked = checked(rt.alloc(), BYTES).expect(&rt, "a registry");
    'lengths: for len in [4095, 4096, 4097, 8191, 8192, 8193u32] {
        let value = letters(rt.alloc(), len.saturating_sub(2), 16_384).expect(&rt, "memory");
        'behind: for behind in 0..3u32 {
            let all = value.get(..(len + behind) as usize).expect(&rt, "a front");
            let at = u64::from(len);
            let wanted = (behind > 0).then_some(StreamFault::TrailingBytes { at });
            check_all(&rt, rt.alloc(), &checked, all, wanted);
        }
    }
}

// The rows of the tables print every other reason.
#[test]
fn faults_are_printed_by_their_names(rt: HostRuntime) {
    printed_as(&rt, rt.alloc(), refused(), "OutOfMemory at 0");
    let lines = [
        (StreamFault::Open(OpenFault::UnknownType), "UnknownType"),
        (StreamFault::Decode(refused()), "OutOfMemory at 0"),
        (StreamFault::TrailingBytes { at: 2 }, "TrailingBytes at 2"),
        (StreamFault::Device, "Device"),
    ];
    'lines: for (fault, line) in lines {
        printed_as(&rt, rt.alloc(), fault, line);
    }
}

/// A reader of `left` zeros, which records the most bytes that one read asked for.
#[derive(Drop)]
struct AskedReader {
    left: usize,
    most: usize,
}

impl Read for AskedReader {
    fn read(&mut self, part: &mut [u8]) -> io::Result<usize> {
        self.most = self.most.max(part.len());
        let count = self.left.min(part.len());
        part[..count].fill(0);
        self.left -= count;
        Ok(count)
    }
}

#[test]
fn a_read_asks_for_at_most_4096_bytes(rt: HostRuntime) {
    let checked = checked(rt.alloc(), TEN_THOUSAND_BYTES).expect(&rt, "a registry");
    let mut source = Source::new(AskedReader {
        left: 10_000,
        most: 0,
    });
    let Ok(value) = all_of(rt.alloc(), &checked, 1, AMPLE, &mut source) else {
        panic!(rt; "no value");
    };
    same(&rt, (value.node_count(), value.text_bytes()), (1, 10_000));
    let reader = source.into_inner();
    same(&rt, (reader.left, reader.most), (0, 4096));
}
