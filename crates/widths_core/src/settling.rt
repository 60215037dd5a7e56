//! Settles types one by one, each with its class and target, once its parts have settled, and
//! completes their steps.

ghost use Rattle.std.specs.Prelude.{◌≡◌, ◌<◌, ◌≤◌, length, replicate, [], None, OnOk, IfOk};
ghost use Rattle.widths_core.specs.Completing.{FinishesSteps};
ghost use Rattle.widths_core.specs.Progress.{progress_of, settled_as, completed, part_settled};
ghost use Rattle.widths_core.specs.Progress.{counter_at, KnowsType};
ghost use Rattle.widths_core.specs.Propagation.{AreCompactsSettled, IsBad, IsPending, IsStart};
ghost use Rattle.widths_core.specs.Propagation.{IsPropagatedTo, Lists, Propagates, PropagatesAll};
ghost use Rattle.widths_core.specs.declared.class.Class.TheVariants as class;

use crate::class::Class;
use crate::counter::{Counter, Found, Kind};
use crate::linking::Linked;
use crate::rows::Rows;
use crate::type_step::TypeStep;
use graph_core::Graph;
use growth_core::{Refused, filled, push, with_capacity};
use scale_core::Target;
use std::alloc::Global;

/// What is found so far, and the types that have settled.
#[derive(Drop)]
pub(crate) struct Settling {
    pub counters: Vec<Counter>,
    /// The class of each type; `NoValue` for one that has not settled.
    pub classes: Vec<Class>,
    pub targets: Vec<Option<Target>>,
    /// The types that have settled, in that order.
    pub settled: Vec<u32>,
    /// The step of each type, complete when the type has settled and, of a sequence, when its
    /// element has.
    pub steps: Vec<TypeStep>,
    /// The arms of the variants, which stay as they are.
    pub rows: Rows,
}

impl Settling {
    /// Creates the state in which no type has settled.
    pub(crate) fn new(alloc: Global, linked: Linked, count: usize) -> Result<Settling, Refused>
        ensures { IfOk result (λ s.
            progress_of s ≡ record {
              counters = linked.counters.items;
              classes = replicate count class.NoValue;
              targets = replicate count None;
              settled = [];
              steps = linked.steps.items;
              rows = linked.rows;
            }) }
    {
        let Linked {
            counters,
            steps,
            rows,
        } = linked;
        let classes = filled(alloc, Class::NoValue, count)?;
        let targets = filled(alloc, None, count)?;
        Ok(Settling {
            counters,
            classes,
            targets,
            settled: with_capacity(alloc, count)?,
            steps,
            rows,
        })
    }

    /// Settles a type as found, unless it has settled before, with its new step, if there is one.
    fn settle(&mut self, owner: u32, found: Found, step: Option<TypeStep>) -> Result<(), Refused>
        requires { KnowsType (progress_of self.old) owner }
        ensures { OnOk result (progress_of self.new
            ≡ settled_as (progress_of self.old) owner found step) }
    {
        let position = owner as usize;
        if self.classes[position].has_value() {
            return Ok(());
        }
        push(&mut self.settled, owner)?;
        self.classes[position] = found.class;
        self.targets[position] = found.target;
        if let Some(step) = step {
            self.steps[position] = step;
        }
        Ok(())
    }

    /// Settles the owner of a counter, all of whose parts have settled. `last` is the target of a
    /// compact over the part that settled last, and `byte` tells whether that part is u8 itself.
    fn complete(
        &mut self,
        counter: Counter,
        last: Option<Target>,
        byte: bool,
    ) -> Result<(), Refused>
        requires { KnowsType (progress_of self.old) counter.owner }
        ensures { OnOk result (progress_of self.new
            ≡ completed (progress_of self.old) counter last byte) }
    {
        match counter.kind.outcome(counter.sized, last) {
            Some(found) => {
                let step = &self.steps[counter.owner as usize];
                let step = counter.kind.settled_step(found.class, last, byte, step);
                self.settle(counter.owner, found, step)
            }
            None => Ok(()),
        }
    }

    /// Counts a part that has settled as found, and is u8 itself or not.
    fn settle_part(&mut self, number: u32, found: Found, byte: bool) -> Result<(), Refused>
        requires number { number < length self.old.counters.items }
        requires owner { KnowsType (progress_of self.old)
            (counter_at (progress_of self.old) number).owner }
        requires left { 0 < (counter_at (progress_of self.old) number).left }
        ensures { OnOk result (progress_of self.new
            ≡ part_settled (progress_of self.old) number found byte) }
    {
        let mut counter = self.counters[number as usize];
        counter.left -= 1;
        if let Class::Sized = found.class {
            counter.sized = true;
        }
        self.counters[number as usize] = counter;
        if let Some(step) = counter.kind.told_step(found.class, byte) {
            self.steps[counter.owner as usize] = step;
        }
        if counter.left == 0 {
            self.complete(counter, found.target, byte)
        } else {
            Ok(())
        }
    }

    /// Counts what was found of a type at each reference to it.
    fn propagate(&mut self, graph: &mut Graph, propagated: u32) -> Result<(), Refused>
        requires { IsPending graph.old.registry graph.old (progress_of self.old) propagated }
        ensures propagates { OnOk result (Propagates graph.old.registry graph.old graph.new
            (progress_of self.old) (progress_of self.new) propagated) }
        ensures lists { Lists graph.old graph.new }
    {
        let found = Found {
            class: self.classes[propagated as usize],
            target: self.targets[propagated as usize],
        };
        let byte = self.steps[propagated as usize].is_byte();
        let mut at = graph.newest(propagated);
        'references: while at > 0 {
            let link = graph.link(at - 1);
            self.settle_part(link.counter, found, byte)?;
            at = link.before;
        }
        Ok(())
    }

    /// Counts what was found of the types that have settled at each reference to them, until
    /// nothing more settles. The first ones were counted before. Returns how many have settled.
    fn propagate_all(&mut self, graph: &mut Graph, first: usize) -> Result<usize, Refused>
        requires { IsPropagatedTo graph.old.registry graph.old (progress_of self.old) first }
        ensures propagates { IfOk result (λ done. PropagatesAll graph.old.registry graph.old
            graph.new (progress_of self.old) (progress_of self.new) done) }
        ensures lists { Lists graph.old graph.new }
    {
        let mut done = first;
        'propagated: while done < self.settled.len() {
            let propagated = self.settled[done];
            self.propagate(graph, propagated)?;
            done += 1;
        }
        Ok(done)
    }

    /// Settles the types without a part that must settle first, then each whose parts have. Returns
    /// how many have settled.
    pub(crate) fn begin(&mut self, graph: &mut Graph) -> Result<usize, Refused>
        requires { IsStart graph.old.registry graph.old (progress_of self.old) }
        ensures propagates { IfOk result (λ done. PropagatesAll graph.old.registry graph.old
            graph.new (progress_of self.old) (progress_of self.new) done) }
        ensures lists { Lists graph.old graph.new }
    {
        'counters: for number in 0..self.counters.len() {
            let counter = self.counters[number];
            if counter.left == 0 {
                self.complete(counter, None, false)?;
            }
        }
        self.propagate_all(graph, 0)
    }

    /// Settles the remaining compacts, which wrap no unsigned integer, then each type whose parts
    /// have settled. The first types had settled before. Returns how many have settled.
    pub(crate) fn settle_bad_compacts(
        &mut self,
        graph: &mut Graph,
        first: usize,
    ) -> Result<usize, Refused>
        requires propagated { IsPropagatedTo graph.old.registry graph.old
            (progress_of self.old) first }
        requires bad { IsBad graph.old.registry (progress_of self.old) }
        ensures propagated { IfOk result
            (λ done. PropagatesAll graph.old.registry graph.old graph.new (progress_of self.old)
            (progress_of self.new) done) }
        ensures compacts { OnOk result
            (AreCompactsSettled graph.old.registry (progress_of self.new)) }
        ensures lists { Lists graph.old graph.new }
    {
        'counters: for number in 0..self.counters.len() {
            let counter = self.counters[number];
            if let Kind::Compact = counter.kind {
                let found = Found {
                    class: Class::Sized,
                    target: None,
                };
                self.settle(counter.owner, found, None)?;
            }
        }
        self.propagate_all(graph, first)
    }

    /// Sets the steps of the types that have not settled: they have no value.
    pub(crate) fn finish(&mut self)
        requires { length self.old.classes.items ≡ length self.old.steps.items }
        ensures steps { FinishesSteps self.old.classes.items self.old.steps.items
            self.new.steps.items }
        ensures rows { self.new.rows ≡ self.old.rows }
    {
        'types: for position in 0..self.classes.len() {
            if !self.classes[position].has_value() {
                self.steps[position] = self.steps[position].without_value();
            }
        }
    }
}
