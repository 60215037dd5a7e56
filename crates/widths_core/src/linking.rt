//! Reads a registry once: checks and lists references, and makes counters and steps.

ghost use Rattle.std.specs.Prelude.{◌≡◌, ℕ, ◌<◌, ◌^◌, ◌++◌, ◌∷◌, [], length, false, None, IfOk};
ghost use Rattle.std.specs.Prelude.{IfErr, ◌*◌, ◌+◌, ◌-◌, min};
ghost use Rattle.types_core.specs.declared.definition.TypeDef.TheVariants.{Variant};
ghost use Rattle.graph_core.specs.Cursors.{arms_left, current, open_definition, parts_left};
ghost use Rattle.graph_core.specs.Graphs.{AreSeen, IsLinked, IsNew, refs};
ghost use Rattle.graph_core.specs.Outlines.{IsTold};
ghost use Rattle.graph_core.specs.Stops.{IsRefusedFor, IsShort, IsUnderWay, StopsLinking};
ghost use Rattle.widths_core.specs.Linking.{AddsRules, AreTypesLinked, LinksType};
ghost use Rattle.widths_core.specs.Rows.{IsPaired, Keeps};
ghost use Rattle.widths_core.specs.Rules.{all_parts, arm_rules, array_rules, found_of_primitive};
ghost use Rattle.widths_core.specs.Rules.{found_sized, kind_of_parts, rule, rules_of};
ghost use Rattle.widths_core.specs.Steps.{AreDrafts, AreParts, ArePartsOf, IsDraft, IsRow};
ghost use Rattle.widths_core.specs.Targets.{width_target};
ghost use Rattle.widths_core.specs.declared.counter.Kind.TheVariants.{Compact, Fixed, Sequence};
ghost use Rattle.widths_core.specs.declared.type_step.TypeStep.TheVariants as step;

use crate::class::Class;
use crate::counter::{Counter, Found, Kind};
use crate::rows::Rows;
use crate::type_step::{ArmStep, Parts, TypeStep};
use graph_core::{CheckFault, Definition, Graph, LinkStop, number};
use growth_core::{push, with_capacity};
use scale_core::Target;
use std::alloc::Global;
use types_core::{IntegerWidth, Primitive, PrimitiveKind};

/// A type that takes bytes and is no target of a compact.
const SIZED: Found = Found {
    class: Class::Sized,
    target: None,
};

/// A type that takes no bytes and is no target of a compact.
const EMPTY: Found = Found {
    class: Class::Empty,
    target: None,
};

/// Adds a counter of this many parts, and returns its number.
fn count_parts(
    counters: &mut Vec<Counter>,
    owner: u32,
    kind: Kind,
    parts: usize,
) -> Result<u32, LinkStop>
    ensures counts { IfOk result (λ number. (number ≡ length counters.old.items)
        × (counters.new.items ≡ counters.old.items ++ record {
          owner = owner;
          kind = kind;
          left = parts;
          sized = false;
        } ∷ [])) }
    ensures stops { IfErr result IsShort }
{
    let at = number(counters.len())?;
    let left = number(parts)?;
    let counter = Counter {
        owner,
        kind,
        left,
        sized: false,
    };
    push(counters, counter)?;
    Ok(at)
}

/// Counts the open references together, and returns their position among all references.
fn link_parts(
    graph: &mut Graph,
    counters: &mut Vec<Counter>,
    owner: u32,
    kind: Kind,
    count: usize,
) -> Result<Parts, LinkStop>
    requires linked { IsLinked graph.old }
    requires count { count ≡ length (parts_left graph.old) }
    ensures adds { IfOk result (λ _. AddsRules (rule owner kind (parts_left graph.old) ∷ [])
        counters.old.items counters.new.items graph.old graph.new) }
    ensures ended { IfOk result (λ _. parts_left graph.new ≡ []) }
    ensures arms { IfOk result (λ _. arms_left graph.new ≡ arms_left graph.old) }
    ensures parts { IfOk result
        (λ p. AreParts (refs graph.new) p.from p.count (parts_left graph.old)) }
    ensures stops { IfErr result (StopsLinking
        (all_parts (rule owner kind (parts_left graph.old) ∷ [])) graph.old graph.new) }
{
    let from = graph.read();
    let counter = count_parts(counters, owner, kind, count)?;
    'parts: for _part in 0..count {
        graph.next(counter)?;
    }
    let to = graph.read();
    Ok(Parts {
        from,
        count: to - from,
    })
}

/// Counts the one open reference alone, and returns the position of its type.
fn link_one(
    graph: &mut Graph,
    counters: &mut Vec<Counter>,
    owner: u32,
    kind: Kind,
) -> Result<u32, LinkStop>
    requires linked { IsLinked graph.old }
    requires one { length (parts_left graph.old) ≡ 1 }
    ensures value { IfOk result (λ id. parts_left graph.old ≡ id ∷ []) }
    ensures adds { IfOk result (λ _. AddsRules (rule owner kind (parts_left graph.old) ∷ [])
        counters.old.items counters.new.items graph.old graph.new) }
    ensures stops { IfErr result (StopsLinking
        (all_parts (rule owner kind (parts_left graph.old) ∷ [])) graph.old graph.new) }
{
    let counter = count_parts(counters, owner, kind, 1)?;
    graph.next(counter)
}

/// Counts the fields of each arm together; those of shadowed arms settle nothing. Returns the
/// variant's step, which assumes that it has a value.
fn link_arms(
    graph: &mut Graph,
    counters: &mut Vec<Counter>,
    rows: &mut Rows,
    owner: u32,
    count: usize,
) -> Result<TypeStep, LinkStop>
    requires linked { IsLinked graph.old }
    requires paired { IsPaired rows.old }
    requires count { count ≡ length (arms_left graph.old) }
    requires begun { parts_left graph.old ≡ [] }
    ensures adds { IfOk result (λ _. AddsRules (arm_rules owner [] (arms_left graph.old))
        counters.old.items counters.new.items graph.old graph.new) }
    ensures paired { IfOk result (λ _. IsPaired rows.new) }
    ensures keeps { IfOk result (λ _. Keeps rows.old rows.new) }
    ensures step { IfOk result (λ s. IsDraft (refs graph.new) (IsRow (refs graph.new) rows.new)
        (Variant (arms_left graph.old)) s) }
    ensures stops { IfErr result (StopsLinking
        (all_parts (arm_rules owner [] (arms_left graph.old))) graph.old graph.new) }
{
    let first = rows.len();
    'arms: for position in 0..count {
        let (index, fields) = graph.next_arm().unwrap();
        match rows.search(first, index) {
            Ok(_) => {
                link_parts(graph, counters, owner, Kind::Idle, fields)?;
            }
            Err(place) => {
                let kind = Kind::Fixed(SIZED);
                let Parts { from, count } = link_parts(graph, counters, owner, kind, fields)?;
                let step = ArmStep {
                    position: number(position)?,
                    from,
                    count,
                };
                rows.insert(place, index, step)?;
            }
        }
    }
    Ok(TypeStep::Arms {
        from: number(first)?,
        count: number(rows.len() - first)?,
    })
}

/// Returns what a type of this many parts, one value of each in each of its values, settles as.
fn kind_of_parts(parts: usize) -> Kind
    ensures { result ≡ kind_of_parts parts }
{
    match parts {
        0 => Kind::Fixed(Found {
            class: Class::Empty,
            target: Some(Target::Unit),
        }),
        1 => Kind::Wrap,
        _ => Kind::Parts,
    }
}

/// Returns the target of this width.
fn width_target(width: IntegerWidth) -> Target
    ensures { result ≡ width_target width }
{
    match width {
        IntegerWidth::Bits8 => Target::U8,
        IntegerWidth::Bits16 => Target::U16,
        IntegerWidth::Bits32 => Target::U32,
        IntegerWidth::Bits64 => Target::U64,
        IntegerWidth::Bits128 => Target::U128,
    }
}

/// Returns what is found of a primitive type.
fn found_of_primitive(primitive: Primitive) -> Found
    ensures { result ≡ found_of_primitive primitive }
{
    let target = match primitive.kind() {
        PrimitiveKind::Unsigned(width) => Some(width_target(width)),
        _ => None,
    };
    Found {
        class: Class::Sized,
        target,
    }
}

/// Links the fields or members of a type, and returns its step, which assumes that it has a value
/// and takes bytes.
fn link_members(
    graph: &mut Graph,
    counters: &mut Vec<Counter>,
    owner: u32,
    count: usize,
) -> Result<TypeStep, LinkStop>
    requires linked { IsLinked graph.old }
    requires count { count ≡ length (parts_left graph.old) }
    ensures adds { IfOk result (λ _. AddsRules
        (rule owner (kind_of_parts (length (parts_left graph.old))) (parts_left graph.old) ∷ [])
        counters.old.items counters.new.items graph.old graph.new) }
    ensures step { IfOk result (λ s. ArePartsOf (refs graph.new) (parts_left graph.old) s) }
    ensures stops { IfErr result (StopsLinking (all_parts
        (rule owner (kind_of_parts (length (parts_left graph.old))) (parts_left graph.old) ∷ []))
        graph.old graph.new) }
{
    let kind = kind_of_parts(count);
    let Parts { from, count } = link_parts(graph, counters, owner, kind, count)?;
    Ok(TypeStep::Parts { from, count })
}

/// Links the type of a sequence's elements. A sequence takes bytes whatever they are. Returns its
/// step, which assumes that they take bytes and are not u8.
fn link_sequence(
    graph: &mut Graph,
    counters: &mut Vec<Counter>,
    owner: u32,
) -> Result<TypeStep, LinkStop>
    requires linked { IsLinked graph.old }
    requires one { length (parts_left graph.old) ≡ 1 }
    ensures adds { IfOk result (λ _. AddsRules (rule owner (Fixed found_sized) []
        ∷ rule owner Sequence (parts_left graph.old) ∷ []) counters.old.items counters.new.items
        graph.old graph.new) }
    ensures step { IfOk result
        (λ s. (id : ℕ) × (parts_left graph.old ≡ id ∷ []) × (s ≡ step.Sequence id)) }
    ensures stops { IfErr result (StopsLinking (all_parts (rule owner (Fixed found_sized) []
        ∷ rule owner Sequence (parts_left graph.old) ∷ [])) graph.old graph.new) }
{
    count_parts(counters, owner, Kind::Fixed(SIZED), 0)?;
    let element = link_one(graph, counters, owner, Kind::Sequence)?;
    Ok(TypeStep::Sequence { element })
}

/// Links the type of an array's elements. An array of none takes no bytes whatever they are.
/// Returns its step, which assumes that it has a value, takes bytes and has no elements u8.
fn link_array(
    graph: &mut Graph,
    counters: &mut Vec<Counter>,
    owner: u32,
    len: u32,
) -> Result<TypeStep, LinkStop>
    requires linked { IsLinked graph.old }
    requires one { length (parts_left graph.old) ≡ 1 }
    ensures adds { IfOk result (λ _. AddsRules (array_rules owner len (parts_left graph.old))
        counters.old.items counters.new.items graph.old graph.new) }
    ensures step { IfOk result
        (λ s. (id : ℕ) × (parts_left graph.old ≡ id ∷ []) × (s ≡ step.Array len id)) }
    ensures stops { IfErr result (StopsLinking
        (all_parts (array_rules owner len (parts_left graph.old))) graph.old graph.new) }
{
    if len == 0 {
        count_parts(counters, owner, Kind::Fixed(EMPTY), 0)?;
        let element = link_one(graph, counters, owner, Kind::Idle)?;
        return Ok(TypeStep::Array { len, element });
    }
    let element = link_one(graph, counters, owner, Kind::Array)?;
    Ok(TypeStep::Array { len, element })
}

/// Links what a compact wraps, and returns its step, which assumes that it has no target.
fn link_compact(
    graph: &mut Graph,
    counters: &mut Vec<Counter>,
    owner: u32,
) -> Result<TypeStep, LinkStop>
    requires linked { IsLinked graph.old }
    requires one { length (parts_left graph.old) ≡ 1 }
    ensures adds { IfOk result (λ _. AddsRules (rule owner Compact (parts_left graph.old) ∷ [])
        counters.old.items counters.new.items graph.old graph.new) }
    ensures step { IfOk result (λ s. s ≡ step.Compact None) }
    ensures stops { IfErr result (StopsLinking
        (all_parts (rule owner Compact (parts_left graph.old) ∷ [])) graph.old graph.new) }
{
    link_one(graph, counters, owner, Kind::Compact)?;
    Ok(TypeStep::Compact(None))
}

/// Settles a type without references as found, and returns its step.
fn link_none(
    graph: &Graph,
    counters: &mut Vec<Counter>,
    owner: u32,
    found: Found,
    step: TypeStep,
) -> Result<TypeStep, LinkStop>
    requires { IsLinked graph.now }
    ensures adds { IfOk result (λ _. AddsRules (rule owner (Fixed found) [] ∷ [])
        counters.old.items counters.new.items graph.now graph.now) }
    ensures step { IfOk result (λ s. s ≡ step) }
    ensures stops { IfErr result (StopsLinking [] graph.now graph.now) }
{
    let _ = graph;
    count_parts(counters, owner, Kind::Fixed(found), 0)?;
    Ok(step)
}

/// Links the type of the open definition: its counters, its references, and its step as far as it
/// is known.
fn link_definition(
    graph: &mut Graph,
    counters: &mut Vec<Counter>,
    rows: &mut Rows,
    owner: u32,
    definition: Definition,
) -> Result<TypeStep, LinkStop>
    requires linked { IsLinked graph.old }
    requires paired { IsPaired rows.old }
    requires told { IsTold graph.old definition }
    ensures links { let d = open_definition (current graph.old) in IfOk result
        (λ s. LinksType owner d counters.old.items counters.new.items rows.old rows.new
        graph.old graph.new s) }
    ensures stops { let d = open_definition (current graph.old) in IfErr result
        (StopsLinking (all_parts (rules_of owner d)) graph.old graph.new) }
{
    match definition {
        Definition::Composite(count) => link_members(graph, counters, owner, count),
        Definition::Tuple(count) => link_members(graph, counters, owner, count),
        Definition::Variant(count) => link_arms(graph, counters, rows, owner, count),
        Definition::Sequence => link_sequence(graph, counters, owner),
        Definition::Array(len) => link_array(graph, counters, owner, len),
        Definition::Compact => link_compact(graph, counters, owner),
        Definition::Primitive(primitive) => {
            let found = found_of_primitive(primitive);
            link_none(
                graph,
                counters,
                owner,
                found,
                TypeStep::Primitive(primitive),
            )
        }
        Definition::BitSequence(form) => {
            let step = TypeStep::BitSequence(form);
            link_none(graph, counters, owner, SIZED, step)
        }
    }
}

/// What one pass over the types makes.
#[derive(Drop)]
pub(crate) struct Linked {
    pub counters: Vec<Counter>,
    pub steps: Vec<TypeStep>,
    pub rows: Rows,
}

/// Returns how many counters this many types with this many arms have at most. A count above
/// 2^64 - 1 is 2^64 - 1.
fn counters_of(types: usize, arms: usize) -> usize
    ensures { result ≡ min (2 * types + arms) (2 ^ 64 - 1) }
{
    types.saturating_mul(2).saturating_add(arms)
}

/// Reads the types once: returns the counters, and the steps as far as they are known.
///
/// A type has at most two counters beside those of its arms.
pub(crate) fn link_types(
    alloc: Global,
    graph: &mut Graph,
    arms: usize,
) -> Result<Linked, CheckFault>
    requires small { length graph.old.registry < 2 ^ 32 }
    requires way { IsUnderWay graph.old.registry graph.old }
    requires fresh { IsNew graph.old }
    requires place { graph.old.cursor.types ≡ 0 }
    requires seen { AreSeen graph.old.registry graph.old }
    ensures linked { IfOk result
        (λ x. AreTypesLinked graph.old.registry x.counters.items graph.new) }
    ensures steps { IfOk result
        (λ x. AreDrafts graph.old.registry (refs graph.new) x.rows x.steps.items) }
    ensures refused { IfErr result (IsRefusedFor graph.old.registry graph.new) }
{
    let types = graph.count();
    let mut counters = with_capacity(alloc, counters_of(types, arms))?;
    let mut steps = with_capacity(alloc, types)?;
    let mut rows = Rows::with_capacity(alloc, arms)?;
    'types: for position in 0..types {
        let position = position as u32;
        let definition = graph.open(position);
        match link_definition(graph, &mut counters, &mut rows, position, definition) {
            Ok(step) => push(&mut steps, step)?,
            Err(stop) => return Err(stop.in_type(position)),
        }
    }
    Ok(Linked {
        counters,
        steps,
        rows,
    })
}
