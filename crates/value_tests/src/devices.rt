//! Sources and sinks over devices that fail in mid-stream, and values written to devices that take
//! a few bytes a call.

use crate::expect::same;
use crate::values::TEXT_AND_RUN;
use scale_core::{Sink, SinkFault, Source, SourceFault};
use scale_tests::builders::built;
use scale_tests::building::{Call, checked};
use scale_tests::paced::{PacedWriter, Then};
use scale_tests::registries::TEXT_AND_BYTES;
use scale_tests::stuttering::StutteringWriter;
use std::alloc::Global;
use std::io;
use std::io::Read;
use std::process::Abort;
use value_core::{Value, WriteFault, encode};

/// A reader that gives one byte a call, the number of the call. The second call is interrupted.
#[derive(Drop)]
struct StutteringReader {
    calls: u8,
}

impl Read for StutteringReader {
    fn read(&mut self, part: &mut [u8]) -> io::Result<usize> {
        self.calls = self.calls.saturating_add(1);
        match part {
            _ if self.calls == 2 => Err(io::ErrorKind::Interrupted.into()),
            [] => Ok(0),
            [place, ..] => {
                *place = self.calls;
                Ok(1)
            }
        }
    }
}

#[test]
fn a_source_reports_a_failed_read_for_good(rt: HostRuntime) {
    let mut source = Source::new(StutteringReader { calls: 0 });
    let mut part = [0; 4];
    same(
        &rt,
        (source.pull(&mut part), source.failed()),
        (Ok(1), false),
    );
    let failed = Err(SourceFault::Device);
    same(
        &rt,
        (source.pull(&mut part), source.failed()),
        (failed, true),
    );
    same(
        &rt,
        (source.pull(&mut part), source.failed()),
        (Ok(1), true),
    );
    same(&rt, (part, source.into_inner().calls), ([3, 0, 0, 0], 3));
}

#[test]
fn a_sink_reports_a_failed_write_for_good(rt: HostRuntime) {
    let mut sink = Sink::new(StutteringWriter { calls: 0 });
    same(&rt, (sink.put(b"ab"), sink.failed()), (Ok(1), false));
    let failed = Err(SinkFault::Device);
    same(&rt, (sink.put(b"b"), sink.failed()), (failed, true));
    same(&rt, (sink.put(b"b"), sink.failed()), (Ok(1), true));
    let nothing = Err(SinkFault::WroteNothing);
    same(&rt, (sink.put(b"b"), sink.failed()), (nothing, true));
    same(&rt, sink.into_inner().calls, 4);
}

/// Encodes the value to a writer that takes `step` bytes a call. Checks the bytes that it gets, and
/// the number of writes.
fn check_writes(
    rt: &impl Abort,
    alloc: Global,
    value: &Value<'_, Global>,
    step: usize,
    wanted: (&[u8], u64),
) {
    let mut sink = Sink::new(PacedWriter::new(alloc, 0, step, Then::GoesOn));
    same(rt, encode(value, &mut sink), Ok(()));
    same(rt, !sink.failed(), true);
    let writer = sink.into_inner();
    same(rt, (writer.taken.as_slice(), writer.writes), wanted);
}

// The bytes of a node and those of its run are one write each, if the writer takes them at once.
#[test]
fn a_node_takes_two_writes_at_most(rt: HostRuntime) {
    let checked = checked(rt.alloc(), TEXT_AND_BYTES).expect(&rt, "a registry");
    let value = built(rt.alloc(), &checked, 3, 64, &TEXT_AND_RUN).expect(&rt, "a value");
    let bytes = b"\x08ab\x07\xff\x00";
    check_writes(&rt, rt.alloc(), &value, usize::MAX, (bytes, 3));
    check_writes(&rt, rt.alloc(), &value, 1, (bytes, 6));
}

/// Checks that the second write of the value is interrupted and reported as failed.
fn check_interrupted(rt: &impl Abort, value: &Value<'_, Global>) {
    let mut sink = Sink::new(StutteringWriter { calls: 0 });
    let wanted = WriteFault {
        reason: SinkFault::Device,
        written: 1,
    };
    same(rt, encode(value, &mut sink), Err(wanted));
    same(rt, sink.failed(), true);
    same(rt, sink.into_inner().calls, 2);
}

#[test]
fn an_interrupted_write_is_a_failed_one(rt: HostRuntime) {
    let checked = checked(rt.alloc(), TEXT_AND_BYTES).expect(&rt, "a registry");
    let value = built(rt.alloc(), &checked, 1, 0, &[Call::Text("ab")]).expect(&rt, "a value");
    check_interrupted(&rt, &value);
}
