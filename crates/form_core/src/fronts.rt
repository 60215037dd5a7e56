//! Finds a complete node without parts at the start of a piece, by its form.

ghost use Rattle.std.specs.Prelude.{ℕ, List, ◌≤◌, IfNone, IfSome, IsErr, length};
ghost use Rattle.scale_core.specs.Read.{compact_at};
ghost use Rattle.grammar_core.specs.Runs.{run_at};
ghost use Rattle.node_core.specs.Leaves.{FitsLeaf};
ghost use Rattle.form_core.specs.Fronts.{Front, LacksPlain, StandsWhole, compact, plain, run};

use crate::compacts::whole_compact;
use crate::forms::{BytesForm, PlainForm};
use crate::needs::need;
use crate::plain::read_plain;
use crate::runs::whole_run;
use grammar_core::RunKind;
use node_core::Leaf;
use scale_core::Target;

/// A form by which a complete node without parts is read from the start of a piece: a
/// [`PlainForm`], the [`Target`] of a compact integer, or the [`RunKind`] of a text or a run of
/// bytes.
// Three types, so that the loop over a list of nodes is compiled for each of them.
pub trait LeafForm: Copy {
    /// The form as a definition.
    ghost front: { Self → Front };

    /// That no complete node of this form begins a piece.
    ghost lacks: { Self → List ℕ → Type 0 };

    /// Returns the node that begins the piece and how many bytes it has (SCALE codec, "Types"), or
    /// `None` if bytes of it are missing or it is rejected. It allocates nothing: texts, runs of
    /// bytes and integers of 256 bits borrow from the piece.
    fn leaf_at_front<'p>(self, piece: &'p [u8]) -> Option<(Leaf<'p>, usize)>
        ensures whole { IfSome result (λ x. StandsWhole (front self) piece.now x.0 x.1) }
        ensures fits { IfSome result (λ x. FitsLeaf x.0) }
        ensures within { IfSome result (λ x. x.1 ≤ length piece.now) }
        ensures none { IfNone result (lacks self piece.now) };
}

impl LeafForm for PlainForm {
    ghost front = { plain };

    ghost lacks = { LacksPlain };

    #[inline(always)]
    fn leaf_at_front<'p>(self, piece: &'p [u8]) -> Option<(Leaf<'p>, usize)> {
        if piece.is_empty() {
            return None;
        }
        let len = need(BytesForm::Plain(self), piece[0]);
        if piece.len() < len {
            return None;
        }
        let Ok(leaf) = read_plain(self, &piece[..len]) else {
            return None;
        };
        Some((leaf, len))
    }
}

impl LeafForm for Target {
    ghost front = { compact };

    ghost lacks = { λ m piece. IsErr (compact_at m piece) };

    #[inline(always)]
    fn leaf_at_front<'p>(self, piece: &'p [u8]) -> Option<(Leaf<'p>, usize)> {
        let Some((number, count)) = whole_compact(self, piece) else {
            return None;
        };
        Some((Leaf::Compact(number), count))
    }
}

impl LeafForm for RunKind {
    ghost front = { run };

    ghost lacks = { λ k piece. IsErr (run_at k piece) };

    #[inline(always)]
    fn leaf_at_front<'p>(self, piece: &'p [u8]) -> Option<(Leaf<'p>, usize)> {
        whole_run(self, piece)
    }
}
