//! A value in progress.

ghost use Rattle.std.specs.Prelude.{ℕ, List, true, ◌≡◌, []};
ghost use Rattle.std.specs.Prelude.{false, None, IfSome};
ghost use Rattle.machine_core.specs.Running.{IsFresh};
ghost use Rattle.value_core.specs.Built.{finished};
ghost use Rattle.value_core.specs.Refusals.{is_complete};
ghost use Rattle.machine_core.specs.Turned.{Awaits, EndsTurns};
ghost use Rattle.machine_core.specs.Turned.{IsSound};
ghost use Rattle.machine_core.specs.Turned.{WantsBytes};

use crate::turned::Stopped;
use count_core::Count;
use form_core::{Carry, bytes_form};
use std::alloc::Allocator;
use std::marker::Model;
use value_core::{Form, Next, RawBuilder, Value};

/// A value in progress: what is built of it, and the bytes that do not complete the next node. The
/// bytes of an open run are in the builder.
#[derive(Drop)]
pub struct Partial<'r, A: Allocator> {
    pub(crate) builder: RawBuilder<'r, A>,
    pub(crate) carry: Carry,
}

impl<'r, A: Allocator> Model for Partial<'r, A> {
    ghost use Rattle.machine_core.specs.Running.{Running, IsRunning};

    ghost Value = { Running };

    ghost view = { λ s. record { built = s.builder; carry = s.carry } };

    ghost invariant = { λ s. IsRunning s.builder s.carry };
}

impl<'r, A: Allocator> Partial<'r, A> {
    /// Creates a value in progress from a builder without nodes.
    pub fn new(builder: RawBuilder<'r, A>) -> Partial<'r, A>
        requires fresh { IsFresh builder }
        ensures { result ≡ record { built = builder.entry; carry = [] } }
    {
        Partial {
            builder,
            carry: Carry::new(),
        }
    }

    /// Returns the value, which is complete. This allocates nothing.
    pub fn into_value(self) -> Value<'r, A>
        requires { is_complete self.built ≡ true }
        ensures { result ≡ finished self.entry.built }
    {
        self.builder.into_value()
    }

    /// Returns the builder, which holds what is built of the value.
    pub fn builder(&self) -> &RawBuilder<'r, A>
        ensures { result.now ≡ self.now.built }
    {
        &self.builder
    }

    /// Drops the value, and returns how many turns the calls of its builder have taken.
    pub fn into_turns(self) -> Count
        ensures { result.so_far ≡ self.entry.built.turns }
    {
        self.builder.into_turns()
    }

    /// Returns the form of the next node, if there can be one. No run is open.
    #[inline(always)]
    pub(crate) fn next_form(&self) -> Option<Form>
        requires { self.now.built.run ≡ None }
        ensures { IfSome result (λ form. Awaits self.now form) }
    {
        match self.builder.walk().next() {
            Next::Wants(form) => Some(form),
            _ => None,
        }
    }

    /// Returns whether the open run lacks bytes or, if none is open, the next node has bytes of its
    /// own.
    pub(crate) fn wants(&self) -> bool
        ensures wants { result ≡ true → WantsBytes self.now }
        ensures sound { result ≡ true → IsSound self.now }
    {
        if self.builder.is_run_open() {
            self.is_on_its_way();
            return self.builder.run_missing() > 0;
        }
        let Some(form) = self.next_form() else {
            return false;
        };
        bytes_form(form).is_some()
    }

    /// Returns whether the value is complete. No turn follows then.
    #[inline(always)]
    pub fn is_finished(&self) -> bool
        ensures ends { result ≡ true → (rest : List ℕ) → EndsTurns self.now rest Stopped.Finished }
        ensures whole { is_complete self.now.built ≡ true → result ≡ true }
        ensures sound { result ≡ true → IsSound self.now }
    {
        matches!(self.builder.walk().next(), Next::Finished)
    }

    /// No-op; its postcondition states what holds of every value in progress.
    #[inline(always)]
    pub(crate) fn is_on_its_way(&self)
        ensures { IsSound self.now }
    {
        let _walk = self.builder.walk();
    }
}
