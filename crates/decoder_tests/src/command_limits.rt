//! The command's engine at its limit on the bytes of a value.

use crate::expect::same;
use scale_core::{Sink, Source};
use scale_tests::paced::LetterReader;
use scale_tests::registries::TEXT;
use scale_tool::run;
use test_calls::jobs::decode;

/// The encoded length of the longest text within the limit, which includes the length's four bytes.
const LONGEST: &[u8] = b"\xf2\xff\xff\x03";

/// The encoded length of a text that is one byte longer.
const TOO_LONG: &[u8] = b"\x02\x00\x00\x04";

/// A text's encoded length, the number of its letters that a reader gives, the line on standard
/// error, and the number of bytes on standard output.
type Row = (&'static [u8], usize, &'static str, usize);

/// A value has at most 16777216 bytes. A longer text is rejected as too long only once a further
/// byte arrives.
const ROWS: [Row; 4] = [
    (LONGEST, 16_777_212, "", 16_777_215),
    (
        LONGEST,
        16_777_213,
        "scaleview: value: TrailingBytes at 16777216\n",
        0,
    ),
    (
        TOO_LONG,
        16_777_212,
        "scaleview: value: Truncated at 16777216\n",
        0,
    ),
    (
        TOO_LONG,
        16_777_213,
        "scaleview: value: TooLong at 16777216\n",
        0,
    ),
];

#[test]
fn the_longest_text_is_shown_and_a_longer_one_is_rejected(rt: HostRuntime) {
    'rows: for (len, letters, line, written) in ROWS {
        let mut registry = Source::new(TEXT);
        let mut value = Source::new(LetterReader::new(len, letters));
        let mut out = Sink::new(Vec::new(rt.alloc()));
        let mut err = Sink::new(Vec::new(rt.alloc()));
        let job = decode(0);
        let status = run(
            rt.alloc(),
            job,
            &mut registry,
            &mut value,
            &mut out,
            &mut err,
        );
        same(&rt, (letters, status), (letters, u8::from(written == 0)));
        let reported = err.into_inner();
        same(&rt, reported.as_slice(), line.as_bytes());
        same(&rt, out.into_inner().len(), written);
    }
}
