//! The parts of a node, by position.

ghost use Rattle.std.specs.Prelude.{◌≡◌, option_map};
ghost use Rattle.chain_core.specs.Parts.{bytes_at, child, inner, inner_reference, reference_at};
ghost use Rattle.chain_core.specs.Parts.{reference_of, text_at};

use node_core::{NodeRef, What};

/// Returns the child at a position, or `None` if the node has fewer children.
pub(crate) fn child<'v, 'r>(node: &NodeRef<'v, 'r>, position: usize) -> Option<NodeRef<'v, 'r>>
    ensures { result ≡ child position node.now }
{
    node.children().nth(position)
}

/// Returns what the option at a position has.
pub(crate) fn inner<'v, 'r>(node: &NodeRef<'v, 'r>, position: usize) -> Option<NodeRef<'v, 'r>>
    ensures { result ≡ inner position node.now }
{
    child(&child(node, position)?, 0)
}

/// Returns the text at a position, or an empty one if there is none.
pub(crate) fn text_at<'v>(node: &NodeRef<'v, '_>, position: usize) -> &'v str
    ensures { result.now ≡ text_at position node.now }
{
    match child(node, position) {
        Some(part) => match part.text() {
            Some(text) => text,
            None => "",
        },
        None => "",
    }
}

/// Returns the bytes at a position.
pub(crate) fn bytes_at<'v>(node: &NodeRef<'v, '_>, position: usize) -> Option<&'v [u8]>
    ensures { option_map (λ s. s.now) result ≡ bytes_at position node.now }
{
    match child(node, position) {
        Some(part) => part.bytes(),
        None => None,
    }
}

/// Returns the position that a reference stands for, or `None` if the node is no reference.
pub(crate) fn reference_of(node: &NodeRef<'_, '_>) -> Option<u32>
    ensures { result ≡ reference_of node.now }
{
    match node.what() {
        What::Compact(number) if number < 1 << 32 => Some(number as u32),
        _ => None,
    }
}

/// Returns what the reference at a position stands for.
pub(crate) fn reference_at(node: &NodeRef<'_, '_>, position: usize) -> Option<u32>
    ensures { result ≡ reference_at position node.now }
{
    reference_of(&child(node, position)?)
}

/// Returns what the reference in the option at a position stands for.
pub(crate) fn inner_reference(node: &NodeRef<'_, '_>, position: usize) -> Option<u32>
    ensures { result ≡ inner_reference position node.now }
{
    reference_of(&inner(node, position)?)
}
