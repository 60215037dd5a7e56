//! The names of the codes, and the version of the library.

ghost use Rattle.std.specs.Prelude.{◌≡◌};
ghost use Rattle.scaleview_c.specs.Calls.{Writes};
ghost use Rattle.c_answers.specs.Reasons.{code_name};

use crate::text::put;
use c_answers::{Answer, code_name};

/// The version of the library: ten thousand times the major number, and a hundred times the minor
/// one, and the patch number.
const VERSION: u32 = 100;

/// Writes the name of a code.
#[unsafe(no_mangle)]
pub extern "C" fn scaleview_reason(code: u32, out: &mut [u8], answer: &mut Answer) -> u32
    ensures name { Writes (code_name code) out.old out.new answer.new }
    ensures code { result ≡ answer.new.code }
{
    *answer = put(out, code_name(code).as_bytes());
    answer.code
}

/// Returns the version of the library.
#[unsafe(no_mangle)]
pub extern "C" fn scaleview_version() -> u32
    ensures { result ≡ 100 }
{
    VERSION
}
