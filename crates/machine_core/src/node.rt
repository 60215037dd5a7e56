//! Adding a node by the bytes that are its own.

ghost use Rattle.std.specs.Prelude.{◌≡◌, [], None};
ghost use Rattle.value_core.specs.Walked.{next_of};
ghost use Rattle.form_core.specs.Needs.{AreOwn, IsBare};
ghost use Rattle.machine_core.specs.NodeAdds.{AddsBytes, AddsNode};
ghost use Rattle.form_core.specs.NodeForms.{form_of_plain};

use crate::reason::DecodeReason;
use form_core::{PlainForm, read_length, read_plain};
use growth_core::Refused;
use scale_core::Fault;
use std::alloc::Allocator;
use value_core::{Form, Leaf, Next, RawBuilder};

/// Why a node is not added.
#[derive(Clone, Copy, Debug, PartialEq, Eq)]
pub(crate) enum NodeFault {
    /// Its bytes are rejected, at this place from the first of them.
    Refused(DecodeReason, u64),
    /// An allocation failed.
    OutOfMemory(Refused),
}

impl From<Fault> for NodeFault {
    ghost use Rattle.std.specs.Prelude.{◌≡◌};
    ghost use Rattle.grammar_core.specs.Reading.{basic};
    ghost use Rattle.machine_core.specs.Reasons.{reason_of};
    ghost use Rattle.machine_core.specs.declared.node.NodeFault.TheVariants.{Refused};

    ghost from_gives = { λ f r. r ≡ Refused (reason_of (basic f.reason)) f.at };

    fn from(fault: Fault) -> NodeFault {
        NodeFault::Refused(fault.reason.into(), fault.at)
    }
}

impl From<Refused> for NodeFault {
    ghost use Rattle.std.specs.Prelude.{◌≡◌};
    ghost use Rattle.machine_core.specs.declared.node.NodeFault.TheVariants.{OutOfMemory};

    ghost from_gives = { λ refused fault. fault ≡ OutOfMemory refused };

    fn from(refused: Refused) -> NodeFault {
        NodeFault::OutOfMemory(refused)
    }
}

/// Adds the next node, which has no parts, by its bytes.
#[inline(always)]
pub(crate) fn add_plain<A: Allocator>(
    builder: &mut RawBuilder<'_, A>,
    form: PlainForm,
    own: &[u8],
) -> Result<(), NodeFault>
    requires next { next_of builder.old.walk ≡ Next.Wants (form_of_plain form) }
    requires closed { builder.old.run ≡ None }
    requires whole { AreOwn (form_of_plain form) own.now }
    ensures { AddsNode builder.old builder.new own.now result }
{
    let leaf = read_plain(form, own)?;
    builder.add_leaf(leaf)?;
    Ok(())
}

/// Adds the arm that is next, by its index.
#[inline(always)]
pub(crate) fn add_arm<A: Allocator>(
    builder: &mut RawBuilder<'_, A>,
    own: &[u8],
) -> Result<(), NodeFault>
    requires next { next_of builder.old.walk ≡ Next.Wants Form.Arm }
    requires closed { builder.old.run ≡ None }
    requires whole { AreOwn Form.Arm own.now }
    ensures { AddsNode builder.old builder.new own.now result }
{
    if !builder.add_arm(own[0])? {
        return Err(NodeFault::Refused(DecodeReason::NoSuchVariant, 0));
    }
    Ok(())
}

/// Adds the sequence that is next, by the bytes of its length.
pub(crate) fn add_sequence<A: Allocator>(
    builder: &mut RawBuilder<'_, A>,
    own: &[u8],
) -> Result<(), NodeFault>
    requires next { next_of builder.old.walk ≡ Next.Wants Form.Sequence }
    requires closed { builder.old.run ≡ None }
    requires whole { AreOwn Form.Sequence own.now }
    ensures { AddsNode builder.old builder.new own.now result }
{
    let length = read_length(own)?;
    builder.add_list(length)?;
    Ok(())
}

/// Adds the next node, which has no bytes of its own.
#[inline(always)]
pub(crate) fn add_bare<A: Allocator>(
    builder: &mut RawBuilder<'_, A>,
    form: Form,
) -> Result<(), Refused>
    requires bare { IsBare form }
    requires next { next_of builder.old.walk ≡ Next.Wants form }
    requires closed { builder.old.run ≡ None }
    ensures { AddsBytes builder.old builder.new [] result }
{
    match form {
        Form::Fields => builder.add_fields(),
        Form::Array(length) => builder.add_list(length),
        _ => builder.add_leaf(Leaf::Empty),
    }
}
