//! The call on an opaque value.

ghost use Rattle.std.specs.Prelude.{◌≡◌};
ghost use Rattle.scaleview_c.specs.TypeNames.{opaque_answer};

use c_answers::{Answer, OK};
use scale_calls::opaque_start;

/// Reports where an opaque value begins, after its length, and how many bytes it has.
///
/// # Errors
///
/// The code and the place of the fault of the length, or of the bytes that are missing or follow.
#[unsafe(no_mangle)]
pub extern "C" fn scaleview_opaque(bytes: &[u8], answer: &mut Answer) -> u32
    ensures start { answer.new ≡ opaque_answer bytes.now }
    ensures code { result ≡ answer.new.code }
{
    *answer = match opaque_start(bytes) {
        Ok(start) => Answer {
            code: OK,
            from: 0,
            at: start as u64,
            length: (bytes.len() - start) as u64,
        },
        Err(refusal) => Answer::of_value(refusal),
    };
    answer.code
}
