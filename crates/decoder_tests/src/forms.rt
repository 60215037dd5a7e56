//! Compact integers and runs that are complete at the start of a piece.

use crate::expect::same;
use form_core::{whole_compact, whole_run};
use scale_core::Target;
use value_core::{Leaf, RunKind};

#[test]
fn a_run_that_stands_whole_on_the_front_is_lent(rt: HostRuntime) {
    let Some((Leaf::Text(text), 3)) = whole_run(RunKind::Text, &[8, 97, 98, 99]) else {
        panic!(rt; "a text of two bytes, and one that follows");
    };
    same(&rt, text, [97, 98].as_slice());
    let Some((Leaf::Bytes(bytes), 3)) = whole_run(RunKind::Bytes, &[8, 255, 0]) else {
        panic!(rt; "two bytes");
    };
    same(&rt, bytes, [255, 0].as_slice());
}

#[test]
fn a_complete_compact_is_found_with_and_without_bytes_after_it(rt: HostRuntime) {
    let piece = [253, 255, 9, 9, 9, 9, 9, 9, 9];
    same(&rt, whole_compact(Target::U32, &piece), Some((16_383, 2)));
    same(
        &rt,
        whole_compact(Target::U32, &piece[..2]),
        Some((16_383, 2)),
    );
    same(&rt, whole_compact(Target::U32, &piece[..1]), None);
}
