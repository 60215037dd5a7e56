//! Finished values: their nodes, their texts and runs of bytes, and their registry.

use crate::expect::same;
use registry_core::TypeId;
use scale_tests::builders::{built, counts};
use scale_tests::building::{Call, checked};
use scale_tests::registries::{TEXT_AND_BYTES, WORDS_AND_A_BYTE};
use std::alloc::{AllocError, Global};
use std::process::Abort;
use value_core::{NodeRef, Value, What};
use widths_core::Class;

/// A node's level below the root, its type, and what it is.
type Reported = (u8, TypeId, What);

/// Appends the node's children, which have this level.
fn report_children(
    reported: &mut Vec<Reported>,
    node: &NodeRef<'_, '_>,
    level: u8,
) -> Result<(), AllocError> {
    'children: for child in node.children() {
        reported.push((level, child.type_id(), child.what()))?;
    }
    Ok(())
}

/// Returns the children of the value's root, each with its own children after it.
fn two_levels(alloc: Global, value: &Value<'_, Global>) -> Result<Vec<Reported>, AllocError> {
    let mut reported = Vec::new(alloc);
    'children: for child in value.root().children() {
        reported.push((1, child.type_id(), child.what()))?;
        report_children(&mut reported, &child, 2)?;
    }
    Ok(reported)
}

/// Calls that build a tuple of a sequence of two u16 and a u8.
const OF_WORDS: [Call<'static>; 5] = [
    Call::Fields,
    Call::List(2),
    Call::Unsigned(7),
    Call::Unsigned(255),
    Call::Unsigned(42),
];

/// The nodes of that value below its root.
const BELOW_ROOT: [Reported; 4] = [
    (1, TypeId(2), What::List),
    (2, TypeId(1), What::Unsigned(7)),
    (2, TypeId(1), What::Unsigned(255)),
    (1, TypeId(0), What::Unsigned(42)),
];

/// Checks the nodes of the value of [`OF_WORDS`].
fn check_nodes(rt: &impl Abort, alloc: Global, value: &Value<'_, Global>) {
    let reported = two_levels(alloc, value).expect(rt, "memory");
    same(rt, reported.as_slice(), BELOW_ROOT.as_slice());
    same(rt, value.root().what(), What::Fields);
    same(rt, counts(value), (5, 0));
}

// The list is a subtree of three nodes, with a node after it.
#[test]
fn children_step_over_what_is_below_them(rt: HostRuntime) {
    let checked = checked(rt.alloc(), WORDS_AND_A_BYTE).expect(&rt, "a registry");
    let value = built(rt.alloc(), &checked, 3, 64, &OF_WORDS).expect(&rt, "a value");
    check_nodes(&rt, rt.alloc(), &value)
}

/// Returns the two children of a node, if it has exactly two.
fn pair<'v, 'r>(node: &NodeRef<'v, 'r>) -> Option<(NodeRef<'v, 'r>, NodeRef<'v, 'r>)> {
    let mut children = node.children();
    let first = children.next()?;
    let second = children.next()?;
    match children.next() {
        Some(_) => None,
        None => Some((first, second)),
    }
}

/// Calls that build a tuple of a text and an array of three bytes.
pub(crate) const TEXT_AND_RUN: [Call<'static>; 3] = [
    Call::Fields,
    Call::Text("ab"),
    Call::Bytes(b"\x07\xff\x00"),
];

/// Checks that a node is a text, or a run of bytes, and lends it.
fn check_lent(
    rt: &impl Abort,
    node: &NodeRef<'_, '_>,
    what: What,
    lent: (Option<&str>, Option<&[u8]>),
) {
    let (text, bytes) = lent;
    same(rt, node.what(), what);
    same(rt, node.text(), text);
    same(rt, node.bytes(), bytes);
}

/// Checks the children of the value of [`TEXT_AND_RUN`].
fn check_children(rt: &impl Abort, value: &Value<'_, Global>) {
    let (text, run) = pair(&value.root()).expect(rt, "two children");
    check_lent(rt, &text, What::Text, (Some("ab"), None));
    let bytes = b"\x07\xff\x00".as_slice();
    check_lent(rt, &run, What::Bytes, (None, Some(bytes)));
}

#[test]
fn texts_and_runs_of_bytes_are_lent(rt: HostRuntime) {
    let checked = checked(rt.alloc(), TEXT_AND_BYTES).expect(&rt, "a registry");
    let value = built(rt.alloc(), &checked, 3, 64, &TEXT_AND_RUN).expect(&rt, "a value");
    check_children(&rt, &value);
}

/// Checks what a value of [`TEXT_AND_BYTES`] lends of its registry.
fn check_registry(rt: &impl Abort, value: &Value<'_, Global>) {
    let lent = value.checked();
    same(rt, lent.registry().types().len(), 4);
    same(rt, lent.widest(), 2);
    same(rt, lent.class(TypeId(3)), Some(Class::Sized));
    same(rt, value.root().checked().widest(), 2);
}

#[test]
fn a_value_lends_its_registry(rt: HostRuntime) {
    let checked = checked(rt.alloc(), TEXT_AND_BYTES).expect(&rt, "a registry");
    let value = built(rt.alloc(), &checked, 1, 0, &[Call::Text("ab")]).expect(&rt, "a value");
    check_registry(&rt, &value);
}
