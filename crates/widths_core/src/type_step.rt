//! How a value of a type is read, in a few bytes.

ghost use Rattle.std.specs.Prelude.{◌≡◌, slice_get};
ghost use Rattle.widths_core.specs.Completing.{is_byte_step, of_bytes, without_value};
ghost use Rattle.widths_core.specs.Steps.{class_of_step, compact_of_step, row_of_step};

use crate::class::Class;
use scale_core::Target;
use types_core::{BitForm, Primitive};

/// The position of parts in the list of all references of a registry.
#[derive(Clone, Copy)]
pub(crate) struct Parts {
    pub from: u32,
    pub count: u32,
}

/// How a value of a type is read, by the first of these that applies (SCALE codec, "Types"). It
/// takes 12 bytes.
///
/// Ids are given as numbers. The numbers of references are those of `Checked::member`.
#[derive(Clone, Copy, Debug, PartialEq, Eq)]
pub enum TypeStep {
    /// As a compact unsigned integer that fits the target; without a target, not at all.
    Compact(Option<Target>),
    /// Not at all, because no arm of the variant has a value. Its arms are those of
    /// `Checked::arm_step`.
    NoArm { from: u32, count: u32 },
    /// Not at all, because the type has no value.
    NoValue,
    /// From no bytes.
    Empty,
    /// As a value of a primitive type.
    Primitive(Primitive),
    /// As a value of each type among `count` references from number `from` on: a composite or a
    /// tuple.
    Parts { from: u32, count: u32 },
    /// As an arm of a variant: its arms are those of `Checked::arm_step`.
    Arms { from: u32, count: u32 },
    /// As this many values of one type, which is not the primitive u8 itself.
    Array { len: u32, element: u32 },
    /// As this many bytes, at least one: an array of the primitive u8 itself, not of a wrapper
    /// around it.
    ByteArray { len: u32 },
    /// As a length, then that many values of one type, which takes bytes or has no value, and is
    /// not the primitive u8 itself.
    Sequence { element: u32 },
    /// As a length, then that many bytes: a sequence of the primitive u8 itself, not of a wrapper
    /// around it.
    Bytes,
    /// As a length alone, because the elements take no bytes.
    Count,
    /// As bits of this form; without a form, not at all.
    BitSequence(Option<BitForm>),
}

/// An arm of a variant: its position among the arms, and the position of its field types among the
/// references.
#[derive(Clone, Copy, Debug, PartialEq, Eq)]
pub struct ArmStep {
    /// Its position among the arms.
    pub position: u32,
    /// The number of the first reference of its fields.
    pub from: u32,
    /// How many fields it has.
    pub count: u32,
}

impl TypeStep {
    /// Returns the class of a type of this step.
    pub(crate) fn class(self) -> Class
        ensures { result ≡ class_of_step self }
    {
        match self {
            TypeStep::NoValue | TypeStep::NoArm { .. } => Class::NoValue,
            TypeStep::Empty | TypeStep::Compact(Some(Target::Unit)) => Class::Empty,
            _ => Class::Sized,
        }
    }

    /// Returns the step of an array of as many bytes, if this is the step of an array.
    pub(crate) fn of_bytes(&self) -> Option<TypeStep>
        ensures { result ≡ of_bytes self.now }
    {
        match self {
            TypeStep::Array { len, .. } => Some(TypeStep::ByteArray { len: *len }),
            _ => None,
        }
    }

    /// Returns whether this is the step of u8 itself.
    pub(crate) fn is_byte(&self) -> bool
        ensures { result ≡ is_byte_step self.now }
    {
        matches!(self, TypeStep::Primitive(Primitive::U8))
    }

    /// Returns the step of a type that turns out to have no value.
    pub(crate) fn without_value(self) -> TypeStep
        ensures { result ≡ without_value self }
    {
        match self {
            TypeStep::Arms { from, count } => TypeStep::NoArm { from, count },
            _ => TypeStep::NoValue,
        }
    }

    /// Returns the position of a variant's row of arms.
    pub(crate) fn row(self) -> Option<Parts>
        ensures { result ≡ row_of_step self }
    {
        match self {
            TypeStep::Arms { from, count } | TypeStep::NoArm { from, count } => Some(Parts {
                from,
                count,
            }),
            _ => None,
        }
    }

    /// Returns the target of a compact of this step.
    pub(crate) fn compact_target(self) -> Option<Target>
        ensures { result ≡ compact_of_step self }
    {
        match self {
            TypeStep::Compact(target) => target,
            _ => None,
        }
    }
}

/// Returns the step of a type, if there is one.
pub(crate) fn step_of(steps: &[TypeStep], at: u32) -> Option<TypeStep>
    ensures { result ≡ slice_get steps.now at }
{
    steps.get(at as usize).copied()
}

const _: () = prove!(size_of::<TypeStep>() == 12);

const _: () = prove!(size_of::<ArmStep>() == 12);
