//! Counters of the parts of a type that have not settled.

ghost use Rattle.std.specs.Prelude.{◌≡◌};
ghost use Rattle.widths_core.specs.Completing.{element_step, empty_step, settled_step, told_step};
ghost use Rattle.widths_core.specs.Rules.{class_by, outcome};

use crate::class::Class;
use crate::type_step::TypeStep;
use scale_core::Target;

/// What is found of a type when it settles: its class, and the target of a compact over it.
#[derive(Clone, Copy)]
pub(crate) struct Found {
    pub class: Class,
    pub target: Option<Target>,
}

/// What the owner of a counter settles as when the last of the counted parts has settled.
#[derive(Clone, Copy)]
pub(crate) enum Kind {
    /// Not at all: the parts say nothing of the owner.
    Idle,
    /// As a type that takes no bytes if no part does, and is no wrapper.
    Parts,
    /// As its one part.
    Wrap,
    /// As a compact over its one part.
    Compact,
    /// As an array of at least one value of its one part.
    Array,
    /// Not at all: the one part is the element of a sequence, and determines the step of that.
    Sequence,
    /// As this, whatever its parts are.
    Fixed(Found),
}

/// How many parts of a type, or of one of its arms, have not settled.
#[derive(Clone, Copy)]
pub(crate) struct Counter {
    pub owner: u32,
    pub kind: Kind,
    pub left: u32,
    /// Whether a part that has settled takes bytes.
    pub sized: bool,
}

const _: () = prove!(size_of::<Counter>() == 16);

/// Returns the class of a value of parts that all have values, one of which takes bytes or none
/// does.
fn class_by(sized: bool) -> Class
    ensures { result ≡ class_by sized }
{
    if sized { Class::Sized } else { Class::Empty }
}

/// Returns the new step of a type that settles with this class, if its step changes.
fn empty_step(class: Class) -> Option<TypeStep>
    ensures { result ≡ empty_step class }
{
    match class {
        Class::Empty => Some(TypeStep::Empty),
        Class::NoValue | Class::Sized => None,
    }
}

/// Returns the new step of a sequence whose elements are of this class, and are u8 itself or not,
/// if its step changes.
fn element_step(class: Class, byte: bool) -> Option<TypeStep>
    ensures { result ≡ element_step class byte }
{
    match class {
        Class::Empty => Some(TypeStep::Count),
        Class::NoValue | Class::Sized if byte => Some(TypeStep::Bytes),
        Class::NoValue | Class::Sized => None,
    }
}

impl Kind {
    /// Returns what is found of the owner if a part takes bytes or none does, and a compact over
    /// the last part has this target.
    pub(crate) fn outcome(self, sized: bool, last: Option<Target>) -> Option<Found>
        ensures { result ≡ outcome self sized last }
    {
        match self {
            Kind::Idle | Kind::Sequence => None,
            Kind::Parts | Kind::Array => Some(Found {
                class: class_by(sized),
                target: None,
            }),
            Kind::Wrap => Some(Found {
                class: class_by(sized),
                target: last,
            }),
            Kind::Compact => Some(Found {
                class: match last {
                    Some(Target::Unit) => Class::Empty,
                    _ => Class::Sized,
                },
                target: None,
            }),
            Kind::Fixed(found) => Some(found),
        }
    }
    /// Returns the new step of an owner that settles with this class, if its step changes. The last
    /// part, whose compact target this is, is u8 itself or not.
    pub(crate) fn settled_step(
        self,
        class: Class,
        last: Option<Target>,
        byte: bool,
        step: &TypeStep,
    ) -> Option<TypeStep>
        ensures { result ≡ settled_step self class last byte step.now }
    {
        match self {
            Kind::Compact => Some(TypeStep::Compact(last)),
            Kind::Array => match class {
                Class::Sized if byte => step.of_bytes(),
                _ => empty_step(class),
            },
            Kind::Idle | Kind::Parts | Kind::Wrap | Kind::Sequence | Kind::Fixed(_) => {
                empty_step(class)
            }
        }
    }

    /// Returns the new step of an owner whose element has settled with this class, if its step
    /// changes. The element is u8 itself or not.
    pub(crate) fn told_step(self, class: Class, byte: bool) -> Option<TypeStep>
        ensures { result ≡ told_step self class byte }
    {
        match self {
            Kind::Sequence => element_step(class, byte),
            _ => None,
        }
    }
}
