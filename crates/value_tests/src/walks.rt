//! What a walk reports besides what comes next, and the greatest depth.

use crate::expect::same;
use scale_tests::builders::{begun, counts, finished};
use scale_tests::building::{Call, add, checked};
use scale_tests::registries::{CHAIN, WORDS_AND_A_BYTE};
use std::alloc::Global;
use std::process::Abort;
use value_core::{Builder, Form, Limits, Next, Value};
use widths_core::Checked;

/// Calls that build a tuple of a sequence of u16 and a u8, each with what `is_in_list` and
/// `elements_after` return after it.
const FOLLOWED: [(Call<'static>, bool, u32); 6] = [
    (Call::Fields, false, 0),
    (Call::List(3), true, 2),
    (Call::Unsigned(7), true, 1),
    (Call::Unsigned(255), true, 0),
    (Call::Unsigned(256), false, 0),
    (Call::Unsigned(42), true, 0),
];

/// Checks whether the walk is in a list, and how many elements follow the next one.
fn check_after(rt: &impl Abort, builder: &Builder<'_, Global>, (in_list, after): (bool, u32)) {
    same(rt, builder.walk().is_in_list(), in_list);
    same(rt, builder.walk().elements_after(), after);
}

/// Makes the calls of [`FOLLOWED`], and checks what the walk reports after each.
fn check_followed(rt: &impl Abort, builder: &mut Builder<'_, Global>) {
    'calls: for step in &FOLLOWED {
        let (call, in_list, after) = *step;
        same(rt, add(builder, call), Ok(()));
        check_after(rt, builder, (in_list, after));
    }
}

#[test]
fn the_elements_that_follow_the_next_one_are_counted(rt: HostRuntime) {
    let checked = checked(rt.alloc(), WORDS_AND_A_BYTE).expect(&rt, "a registry");
    let mut builder = begun(rt.alloc(), &checked, 3, 64).expect(&rt, "a builder");
    check_after(&rt, &builder, (true, 0));
    check_followed(&rt, &mut builder);
}

/// Adds 1024 arms, each inside the one before. Checks what the walk reports before each, and its
/// depth after them.
fn go_down(rt: &impl Abort, builder: &mut Builder<'_, Global>) {
    'levels: for level in 0..1024 {
        same(rt, builder.walk().next(), Next::Wants(Form::Arm));
        same(rt, builder.walk().depth(), level);
        same(rt, add(builder, Call::Arm(1)), Ok(()));
    }
    same(rt, builder.walk().depth(), 1024);
}

/// Returns the value of an arm inside 1024 others.
fn deepest<'r>(rt: &impl Abort, alloc: Global, checked: &'r Checked) -> Value<'r, Global> {
    let mut builder = begun(alloc, checked, 0, 1024).expect(rt, "a builder");
    go_down(rt, &mut builder);
    same(rt, add(&mut builder, Call::Arm(0)), Ok(()));
    same(rt, builder.walk().next(), Next::Finished);
    finished(builder).expect(rt, "a value")
}

// The root has depth 0, so a node inside 1024 others is the deepest that a builder accepts.
#[test]
fn a_walk_goes_to_the_greatest_depth(rt: HostRuntime) {
    let checked = checked(rt.alloc(), CHAIN).expect(&rt, "a registry");
    let value = deepest(&rt, rt.alloc(), &checked);
    same(&rt, counts(&value), (1025, 0));
}

#[test]
fn the_default_limits_are_reported(rt: HostRuntime) {
    let limits = Limits {
        depth: 64,
        bytes: 16_777_216,
    };
    same(&rt, Limits::default_limits(), limits);
}
