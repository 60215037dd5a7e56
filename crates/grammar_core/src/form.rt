//! What a value of a type begins with, by its step in the registry's table.

ghost use Rattle.std.specs.Prelude.{◌≡◌};
ghost use Rattle.grammar_core.specs.Forms.{next_of_step};

use scale_core::Target;
use types_core::{BitForm, Primitive};
use widths_core::TypeStep;

/// The form of a node, which says how many parts it has (SCALE codec, "Types").
#[derive(Clone, Copy, Debug, PartialEq, Eq)]
pub enum Form {
    /// The one value of a type that takes no bytes. It has no parts.
    Empty,
    /// A value of a primitive type. It has no parts.
    Primitive(Primitive),
    /// An unsigned integer in its compact form, which fits the target. It has no parts.
    Compact(Target),
    /// A value of each field of a composite, or of each member of a tuple, in order.
    Fields,
    /// The index byte of an arm, then a value of each field of the first arm of this index, in
    /// order.
    Arm,
    /// This many values, at least one, of one type other than u8, without a length before them.
    Array(u32),
    /// This many bytes, at least one, without a length before them: an array of u8. It has no
    /// parts.
    ByteArray(u32),
    /// A compact length, then that many values of one type other than u8.
    Sequence,
    /// A compact length, then that many bytes: a sequence of u8. It has no parts.
    Bytes,
    /// A compact length alone, because the elements take no bytes.
    Count,
    /// A bit sequence: its number of bits as a compact integer, then the words that hold them. It
    /// has no parts.
    Bits(BitForm),
}

/// Why no value can be read at a position. If several apply, the first in this order is reported
/// (this project's own order).
#[derive(Clone, Copy, Debug, PartialEq, Eq)]
pub enum StopReason {
    /// The depth is above the limit.
    TooDeep,
    /// The type has no finite value: each would contain another of its type, or the type is a
    /// variant without arms.
    NoFiniteValue,
    /// The type is a bit sequence that is not allowed, or whose words are not known.
    BitSequence,
    /// The type is a compact that wraps no unsigned integer of at most 128 bits, no empty type, and
    /// no wrapper of one of these.
    BadCompact,
}

/// What comes next in a value.
#[derive(Clone, Copy, Debug, PartialEq, Eq)]
pub enum Next {
    /// Nothing: the value is complete.
    Finished,
    /// A value that cannot be read.
    Stop(StopReason),
    /// A value of this form.
    Wants(Form),
}

/// Returns what a value of a type of this step begins with, or why there is none, at a depth within
/// the limit (SCALE codec, "Types").
pub fn next_of_step(step: TypeStep) -> Next
    ensures { result ≡ next_of_step step }
{
    match step {
        TypeStep::NoValue | TypeStep::NoArm { .. } => Next::Stop(StopReason::NoFiniteValue),
        TypeStep::Empty | TypeStep::Compact(Some(Target::Unit)) => Next::Wants(Form::Empty),
        TypeStep::Compact(Some(target)) => Next::Wants(Form::Compact(target)),
        TypeStep::Compact(None) => Next::Stop(StopReason::BadCompact),
        TypeStep::Primitive(primitive) => Next::Wants(Form::Primitive(primitive)),
        TypeStep::Parts { .. } => Next::Wants(Form::Fields),
        TypeStep::Arms { .. } => Next::Wants(Form::Arm),
        TypeStep::Array { len, .. } => Next::Wants(Form::Array(len)),
        TypeStep::ByteArray { len } => Next::Wants(Form::ByteArray(len)),
        TypeStep::Sequence { .. } => Next::Wants(Form::Sequence),
        TypeStep::Bytes => Next::Wants(Form::Bytes),
        TypeStep::Count => Next::Wants(Form::Count),
        TypeStep::BitSequence(Some(bits)) => Next::Wants(Form::Bits(bits)),
        TypeStep::BitSequence(None) => Next::Stop(StopReason::BitSequence),
    }
}
