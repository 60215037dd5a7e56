//! The forms of nodes that have few bytes of their own.

ghost use Rattle.std.specs.Prelude.{◌≡◌, IfNone, IfSome};
ghost use Rattle.form_core.specs.Needs.{HasBytes};
ghost use Rattle.form_core.specs.NodeForms.{form_of_bytes};

use grammar_core::Form;
use scale_core::Target;
use types_core::{BitForm, IntegerWidth, Primitive, PrimitiveKind, Signedness};

/// The form of a node without parts that is no text, no run of bytes and no bit sequence (SCALE
/// codec, "Types"): at most 32 bytes spell it.
#[derive(Clone, Copy)]
pub enum PlainForm {
    /// A boolean, in one byte.
    Bool,
    /// A character, in four bytes.
    Char,
    /// An unsigned integer of this width.
    Unsigned(IntegerWidth),
    /// A signed integer of this width.
    Signed(IntegerWidth),
    /// A 256-bit integer, in 32 bytes.
    Wide(Signedness),
    /// A compact integer that fits the target, in 1 to 17 bytes.
    Compact(Target),
    /// A sequence of elements that take no bytes: its length alone, a compact integer.
    Count,
}

/// The form of a node that has 1 to 32 bytes of its own. Those of a text, a run of bytes or a bit
/// sequence are its length's.
#[derive(Clone, Copy)]
pub enum BytesForm {
    /// A node without parts.
    Plain(PlainForm),
    /// A text, after its length.
    Text,
    /// A sequence of u8, after its length.
    Bytes,
    /// A bit sequence in words of this form, after its number of bits.
    Bits(BitForm),
    /// A variant, whose own byte is the index of its arm.
    Arm,
    /// A sequence, whose own bytes are its length.
    Sequence,
}

/// Returns the form of a value of a primitive type.
#[inline(always)]
fn primitive_form(primitive: Primitive) -> BytesForm
    ensures { form_of_bytes result ≡ Form.Primitive primitive }
{
    BytesForm::Plain(match primitive.kind() {
        PrimitiveKind::Str => return BytesForm::Text,
        PrimitiveKind::Bool => PlainForm::Bool,
        PrimitiveKind::Char => PlainForm::Char,
        PrimitiveKind::Unsigned(width) => PlainForm::Unsigned(width),
        PrimitiveKind::Signed(width) => PlainForm::Signed(width),
        PrimitiveKind::Wide(signedness) => PlainForm::Wide(signedness),
    })
}

/// Returns the form by which a node's own bytes are read, or `None` for a node without any and for
/// an array of u8, which has as many as its type says.
#[inline(always)]
pub fn bytes_form(form: Form) -> Option<BytesForm>
    ensures some { IfSome result (λ own. form_of_bytes own ≡ form) }
    ensures none { IfNone result (HasBytes form → ⊥) }
{
    match form {
        Form::Primitive(primitive) => Some(primitive_form(primitive)),
        Form::Compact(target) => Some(BytesForm::Plain(PlainForm::Compact(target))),
        Form::Count => Some(BytesForm::Plain(PlainForm::Count)),
        Form::Arm => Some(BytesForm::Arm),
        Form::Sequence => Some(BytesForm::Sequence),
        Form::Bytes => Some(BytesForm::Bytes),
        Form::Bits(bits) => Some(BytesForm::Bits(bits)),
        Form::Empty | Form::Fields | Form::Array(_) | Form::ByteArray(_) => None,
    }
}
