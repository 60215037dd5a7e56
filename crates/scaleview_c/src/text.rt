//! Texts that are copied to memory of the caller.

ghost use Rattle.scaleview_c.specs.Calls.{Writes};

use c_answers::Answer;

/// Copies the text to the front of `out`, if it fits.
pub(crate) fn put(out: &mut [u8], text: &[u8]) -> Answer
    ensures { Writes text.now out.old out.new result }
{
    if text.len() <= out.len() {
        out[..text.len()].copy_from_slice(text);
    }
    Answer::of_text(text.len(), out.len())
}
