//! Finds a complete text, run of bytes or bit sequence at the start of a piece.

ghost use Rattle.std.specs.Prelude.{◌↔◌, IfNone, IfSome, IsErr, IsTrue, IsUtf8};
ghost use Rattle.grammar_core.specs.Runs.{run_at, run_length_at};
ghost use Rattle.form_core.specs.WholeRuns.{IsAtFront, IsLengthAtFront, ReadsRun, run_bytes_at};

use crate::compacts::whole_compact;
use grammar_core::RunKind;
use node_core::Leaf;
use scale_core::Target;
use simdutf8::compat::from_utf8;

/// Texts of at most so many bytes are checked for ASCII first.
const SHORT: usize = 64;

/// Returns whether the bytes are UTF-8.
// Most texts are short and ASCII, which a few words decide.
#[inline(always)]
fn is_text(bytes: &[u8]) -> bool
    ensures { IsTrue result ↔ IsUtf8 bytes.now }
{
    if bytes.len() <= SHORT && bytes.is_ascii() {
        return true;
    }
    from_utf8(bytes).is_ok()
}

/// Returns the length of the run that begins the piece and how many bytes spell it, or `None` if it
/// is cut or rejected. The type gives the length of an array.
#[inline(always)]
fn length_at_front(kind: RunKind, piece: &[u8]) -> Option<(u32, usize)>
    ensures some { IfSome result (λ x. IsLengthAtFront kind piece.now x.0 x.1) }
    ensures none { IfNone result (IsErr (run_length_at kind piece.now)) }
{
    match kind {
        RunKind::ByteArray(len) => Some((len, 0)),
        RunKind::Text | RunKind::Bytes | RunKind::Bits(_) => {
            let (len, count) = whole_compact(Target::U32, piece)?;
            Some((len as u32, count))
        }
    }
}

/// Returns the length and the bytes of the run that begins the piece and how many bytes it has with
/// its length, or `None` if bytes are missing or its length is rejected.
#[inline(always)]
fn bytes_at_front(kind: RunKind, piece: &[u8]) -> Option<(u32, &[u8], usize)>
    ensures some { IfSome result (λ x. IsAtFront kind piece.now (x.0, x.1.now) x.2) }
    ensures none { IfNone result (IsErr (run_bytes_at kind piece.now)) }
{
    let (len, start) = length_at_front(kind, piece)?;
    let rest = &piece[start..];
    let bytes = kind.bytes(len);
    if rest.len() < bytes {
        return None;
    }
    Some((len, &rest[..bytes], start + bytes))
}

/// Returns the text, the run of bytes or the bit sequence that begins the piece and how many bytes
/// it has with its length (SCALE codec, "Strings" and "Vectors"), or `None` if bytes of it are
/// missing, its length is rejected, a text is not UTF-8, or an unused bit is 1. It allocates
/// nothing: the leaf borrows from the piece.
#[inline(always)]
pub fn whole_run(kind: RunKind, piece: &[u8]) -> Option<(Leaf<'_>, usize)>
    ensures some { IfSome result (λ x. ReadsRun kind piece.now x.0 x.1) }
    ensures none { IfNone result (IsErr (run_at kind piece.now)) }
{
    let (len, bytes, count) = bytes_at_front(kind, piece)?;
    match kind {
        RunKind::Text if !is_text(bytes) => None,
        RunKind::Text => Some((Leaf::Text(bytes), count)),
        RunKind::Bytes | RunKind::ByteArray(_) => Some((Leaf::Bytes(bytes), count)),
        RunKind::Bits(form) => match form.unused_at(len, 0, bytes) {
            Some(_) => None,
            None => Some((Leaf::Bits(len, bytes), count)),
        },
    }
}
