//! The first of each name.

use crate::names::NamedType;
use crate::thing::Path;
use growth_core::{Refused, push, reported};
use std::alloc::Global;
use std::collections::{BTreeMap, BTreeSet};
use std::rc::RcStr;

/// The number of the node above all others.
const ROOT: usize = 0;

/// Paths as a tree: from a node, the next part of a path up to a dot leads to a node. Two paths are
/// the same text exactly if they lead to one node.
// So the name of a pallet is read once and not for each of its parts.
#[derive(Drop)]
struct PathTree<'n> {
    nodes: BTreeMap<(usize, &'n [u8]), usize>,
    /// The pallet or api that was read last, and its node.
    last: Option<(&'n RcStr, usize)>,
}

impl<'n> PathTree<'n> {
    /// Returns the node to which a text leads from a node.
    fn node_after(&mut self, from: usize, text: &'n str) -> Result<usize, Refused> {
        let mut node = from;
        'parts: for part in text.as_bytes().split(|byte| *byte == b'.') {
            let next = self.nodes.len() + 1;
            node = *reported(self.nodes.entry((node, part)))?.or_insert(next);
        }
        Ok(node)
    }

    /// Returns the node of a pallet or an api.
    fn outer_node(&mut self, outer: &'n RcStr) -> Result<usize, Refused> {
        if let Some((last, node)) = self.last {
            if RcStr::ptr_eq(last, outer) {
                return Ok(node);
            }
        }
        let node = self.node_after(ROOT, outer.as_str())?;
        self.last = Some((outer, node));
        Ok(node)
    }

    /// Returns the node of a path.
    fn node_of(&mut self, path: &'n Path) -> Result<usize, Refused> {
        match path {
            Path::Empty => Ok(ROOT),
            Path::One(name) => self.node_after(ROOT, name.as_str()),
            Path::Two(outer, inner) => {
                let node = self.outer_node(outer)?;
                self.node_after(node, inner.as_str())
            }
        }
    }
}

/// Returns the positions of those whose name no earlier one has, in order.
pub(crate) fn distinct_positions(
    alloc: Global,
    types: &[NamedType],
) -> Result<Vec<usize>, Refused> {
    let mut tree = PathTree {
        nodes: BTreeMap::new(alloc),
        last: None,
    };
    let mut seen = BTreeSet::new(alloc);
    let mut positions = Vec::new(alloc);
    'types: for (position, named) in types.iter().enumerate() {
        let node = tree.node_of(&named.path)?;
        if reported(seen.insert((node, named.section.word())))? {
            push(&mut positions, position)?;
        }
    }
    Ok(positions)
}
