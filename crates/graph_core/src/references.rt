//! The search for the first reference that is not a position, in the order of the registry's bytes.

ghost use Rattle.std.specs.Prelude.{◌≡◌, ◌<◌, ◌^◌, [], length, option_map};
ghost use Rattle.graph_core.specs.Cursors.{left, parts_left};
ghost use Rattle.graph_core.specs.References.{first_fault};
ghost use Rattle.graph_core.specs.Stops.{IsUnderWay, HasFewLooksUntil};
ghost use Rattle.graph_core.specs.Unknown.{FindsUnknown, FindsUnknownPart};

use crate::graph::Graph;
use types_core::TypeId;

/// A reference to a type, and the type that contains it.
#[derive(Clone, Copy)]
pub struct Reference {
    pub from: TypeId,
    pub to: TypeId,
}

/// Reads the rest of the open fields or members up to the first reference that is not a position,
/// and returns that reference.
///
/// `None` if each one is a position.
fn unknown_part(graph: &mut Graph) -> Option<u32>
    ensures { FindsUnknownPart graph.old graph.new result }
{
    'parts: while let Some(id) = graph.read_next() {
        if id as usize >= graph.count() {
            return Some(id);
        }
    }
    None
}

/// Reads the rest of the open definition up to the first reference that is not a position, and
/// returns that reference.
///
/// `None` if each one is a position. The ids of a bit sequence are not references.
fn unknown_left(graph: &mut Graph) -> Option<u32>
    ensures { FindsUnknown graph.old graph.new result }
{
    let unknown = unknown_part(graph);
    if unknown.is_some() {
        return unknown;
    }
    'arms: while let Some(_) = graph.next_arm() {
        let unknown = unknown_part(graph);
        if unknown.is_some() {
            return unknown;
        }
    }
    None
}

/// Returns the first reference that is not a position, or `None` if each one is a position.
///
/// The order is that of the types that contain the references, and then that of the bytes of their
/// definitions. The search continues where the reading of the graph stopped. No type is opened
/// again, and no reference is read again.
pub fn first_unknown(graph: &mut Graph) -> Option<Reference>
    requires fits { length graph.old.registry < 2 ^ 32 }
    requires begun { IsUnderWay graph.old.registry graph.old }
    ensures unknown { option_map (λ x. (x.from.0, x.to.0)) result ≡ first_fault graph.old.registry }
    ensures types { graph.new.registry ≡ graph.old.registry }
    ensures looks { HasFewLooksUntil graph.old.registry graph.new.looks }
{
    let opened = graph.opened();
    if let Some(to) = unknown_left(graph) {
        return Some(Reference {
            from: TypeId(opened as u32 - 1),
            to: TypeId(to),
        });
    }
    'types: for position in opened..graph.count() {
        let _ = graph.open(position as u32);
        if let Some(to) = unknown_left(graph) {
            return Some(Reference {
                from: TypeId(position as u32),
                to: TypeId(to),
            });
        }
    }
    None
}
