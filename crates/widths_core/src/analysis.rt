//! Analyses a registry in two passes over its types and one over the references to each.

ghost use Rattle.std.specs.Prelude.{◌≡◌, ◌<◌, ◌^◌, length, IfOk, IfErr};
ghost use Rattle.types_core.specs.Fits.{FitsRegistry};
ghost use Rattle.graph_core.specs.Graphs.{IsUnread};
ghost use Rattle.graph_core.specs.References.{first_fault};
ghost use Rattle.graph_core.specs.Stops.{IsAnsweredFault, IsFaultOf, IsFaultWithin, IsRefusedFor};
ghost use Rattle.graph_core.specs.Stops.{IsGivenUp, IsUnderWay};
ghost use Rattle.widths_core.specs.Analysed.{AreSettled, HasFewLooks, IsAnalysed, IsLinkedWith};
ghost use Rattle.widths_core.specs.Propagation.{Lists};
ghost use Rattle.widths_core.specs.Steps.{IsTable};
ghost use Rattle.graph_core.specs.References.{IsChecked};
ghost use Rattle.graph_core.specs.Widths.{widest};

use crate::linking::{Linked, link_types};
use crate::rows::Rows;
use crate::settling::Settling;
use crate::type_step::TypeStep;
use graph_core::{CheckFault, Examined, Graph, Reference, Sizes, first_unknown, sizes_of};
use growth_core::Refused;
use std::alloc::Global;
use types_core::Registry;

/// The types of a registry after their second look.
#[derive(Drop)]
struct Read {
    linked: Linked,
    widest: u32,
}

/// What is kept of the types of a registry.
#[derive(Drop)]
struct Tables {
    steps: Vec<TypeStep>,
    rows: Rows,
    widest: u32,
}

/// A registry with the looks taken at it, and what is kept of its types.
#[derive(Drop)]
pub(crate) struct Analysis {
    pub examined: Examined,
    pub members: Vec<u32>,
    pub steps: Vec<TypeStep>,
    pub rows: Rows,
    pub widest: u32,
}

/// Takes both looks at the types of a graph.
///
/// An unknown reference is found when it is read for its list, in the second look at its type.
fn read_types(alloc: Global, graph: &mut Graph) -> Result<Read, CheckFault>
    requires fits { FitsRegistry graph.old.registry }
    requires unread { IsUnread graph.old.registry graph.old }
    ensures linked { IfOk result
        (λ x. IsLinkedWith graph.old.registry x.linked x.widest graph.new) }
    ensures refused { IfErr result (IsRefusedFor graph.old.registry graph.new) }
{
    let Sizes {
        references,
        arms,
        widest,
    } = sizes_of(graph)?;
    graph.prepare(alloc, references)?;
    let linked = link_types(alloc, graph, arms)?;
    Ok(Read { linked, widest })
}

/// Returns why types are rejected whose reading was given up for this fault: the first unknown
/// reference, or the fault if every reference is known. Only what was not read is read for it.
fn first_fault_or(graph: &mut Graph, fault: CheckFault) -> CheckFault
    requires fits { length graph.old.registry < 2 ^ 32 }
    requires begun { IsUnderWay graph.old.registry graph.old }
    requires given_up { IsGivenUp fault }
    ensures { IsFaultWithin graph.old.registry graph.new result }
{
    match first_unknown(graph) {
        Some(Reference { from, to }) => CheckFault::UnknownType { from, to },
        None => fault,
    }
}

/// Takes both looks at the types of a graph, or returns why these are rejected.
fn read_or_fault(alloc: Global, graph: &mut Graph) -> Result<Read, CheckFault>
    requires fits { FitsRegistry graph.old.registry }
    requires unread { IsUnread graph.old.registry graph.old }
    ensures linked { IfOk result
        (λ x. IsLinkedWith graph.old.registry x.linked x.widest graph.new) }
    ensures refused { IfErr result (IsFaultWithin graph.old.registry graph.new) }
{
    match read_types(alloc, graph) {
        Ok(read) => Ok(read),
        Err(CheckFault::UnknownType { from, to }) => Err(CheckFault::UnknownType { from, to }),
        Err(fault) => Err(first_fault_or(graph, fault)),
    }
}

/// Settles the types of a graph.
fn settle_types(alloc: Global, graph: &mut Graph, read: Read) -> Result<Tables, Refused>
    requires { IsLinkedWith graph.old.registry read.linked read.widest graph.old }
    ensures analysed { IfOk result (λ t.
        IsAnalysed graph.old.registry t.rows t.steps.items t.widest graph.new) }
    ensures lists { Lists graph.old graph.new }
{
    let Read { linked, widest } = read;
    let mut settling = Settling::new(alloc, linked, graph.count())?;
    let done = settling.begin(graph)?;
    settling.settle_bad_compacts(graph, done)?;
    settling.finish();
    let Settling {
        counters: _,
        classes: _,
        targets: _,
        settled: _,
        steps,
        rows,
    } = settling;
    Ok(Tables {
        steps,
        rows,
        widest,
    })
}

/// Returns what is kept of the types of a graph, or why they are rejected.
fn tables_of(alloc: Global, graph: &mut Graph) -> Result<Tables, CheckFault>
    requires fits { FitsRegistry graph.old.registry }
    requires unread { IsUnread graph.old.registry graph.old }
    ensures analysed { IfOk result (λ t.
        IsAnalysed graph.old.registry t.rows t.steps.items t.widest graph.new) }
    ensures refused { IfErr result (IsAnsweredFault graph.old.registry graph.new) }
{
    let read = read_or_fault(alloc, graph)?;
    Ok(settle_types(alloc, graph, read)?)
}

/// Analyses a registry, or returns why it is rejected.
pub(crate) fn analyse(alloc: Global, registry: Registry) -> Result<Analysis, (CheckFault, Registry)>
    ensures same { IfOk result (λ a. a.examined.registry ≡ registry) }
    ensures checked { IfOk result (λ a. IsChecked registry) }
    ensures table { IfOk result (λ a. IsTable registry a.members.items a.rows a.steps.items) }
    ensures widest { IfOk result (λ a. a.widest ≡ widest registry) }
    ensures looks { IfOk result (λ a. HasFewLooks registry a.examined.looks) }
    ensures refused { IfErr result (λ e. IsFaultOf e.0 (first_fault registry)) }
    ensures returned { IfErr result (λ e. e.1 ≡ registry) }
{
    let mut graph = Graph::new(alloc, registry);
    match tables_of(alloc, &mut graph) {
        Ok(
            Tables {
                steps,
                rows,
                widest,
            },
        ) => {
            let (examined, members) = graph.into_parts();
            Ok(Analysis {
                examined,
                members,
                steps,
                rows,
                widest,
            })
        }
        Err(fault) => Err(graph.refuse(fault)),
    }
}
