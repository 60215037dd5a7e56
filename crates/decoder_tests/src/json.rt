//! JSON texts written to slices that are long enough or too short, and printed to writers that
//! fail.

use crate::expect::same;
use json_core::{PrintFault, json_to_slice, print};
use registry_core::TypeId;
use scale_core::{Sink, SinkFault};
use scale_tests::building::checked;
use scale_tests::paced::{PacedWriter, Then};
use scale_tests::registries::BYTES;
use scale_tests::rows::{AMPLE, ROWS, Row};
use std::alloc::{AllocError, Global};
use std::process::Abort;
use test_calls::calls::front_of;
use value_core::{Builder, Value, WriteFault};

/// Checks slices of every length up to one byte more than the text. The text is written at the
/// start if it fits, and nothing else changes.
fn check_slices(rt: &impl Abort, alloc: Global, value: &Value<'_, Global>, text: &[u8]) {
    'rooms: for room in 0..text.len() + 2 {
        let mut out = vec![in alloc; b'.'; room].expect(rt, "memory");
        let mut wanted = vec![in alloc; b'.'; room].expect(rt, "memory");
        if text.len() <= room {
            wanted[..text.len()].copy_from_slice(text);
        }
        same(
            rt,
            json_to_slice(alloc, alloc, value, &mut out),
            Ok(text.len()),
        );
        same(rt, out.as_slice(), wanted.as_slice());
    }
}

/// Checks writers that end at this place of the text. The error reports the place, and the bytes
/// before it were written.
fn check_place(
    rt: &impl Abort,
    alloc: Global,
    value: &Value<'_, Global>,
    text: &[u8],
    place: usize,
) {
    let ends = [
        (Then::Fails, SinkFault::Device),
        (Then::TakesNothing, SinkFault::WroteNothing),
    ];
    'endings: for (then, reason) in ends {
        let mut sink = Sink::new(PacedWriter::new(alloc, place, 1, then));
        let wanted = PrintFault::Write(WriteFault {
            reason,
            written: place as u64,
        });
        same(rt, print(alloc, value, &mut sink), Err(wanted));
        same(rt, sink.failed(), true);
        let taken = sink.into_inner().taken;
        same(rt, Some(taken.as_slice()), text.get(..place));
    }
}

/// Checks the value's text for every length of a slice, and for every place where a writer may end.
fn check_text(rt: &impl Abort, alloc: Global, value: &Value<'_, Global>, text: &[u8]) {
    check_slices(rt, alloc, value, text);
    'places: for place in 0..text.len() {
        check_place(rt, alloc, value, text, place);
    }
}

/// Decodes the row's value, and checks its text.
fn check_row(rt: &impl Abort, alloc: Global, row: &Row) {
    let checked = checked(alloc, row.registry).expect(rt, "a registry");
    let Ok((value, _)) = front_of(alloc, &checked, row.ty, AMPLE, &[row.bytes]) else {
        panic!(rt; "{}", row.name);
    };
    check_text(rt, alloc, &value, row.json.as_bytes());
}

#[test]
fn a_text_may_end_at_each_byte(rt: HostRuntime) {
    'rows: for row in &ROWS {
        if row.refusal.is_empty() {
            check_row(&rt, rt.alloc(), row);
        }
    }
}
