//! Texts: the number of bytes as a compact u32, and that many bytes of UTF-8 (SCALE codec
//! specification, "Strings").

ghost use Rattle.std.specs.Prelude.{◌≡◌, ◌≢◌, ◌<◌, ◌^◌, ◌++◌, length, IfErr, OnOk, OnErr};
ghost use Rattle.scale_core.specs.Answers.{Answers};
ghost use Rattle.scale_core.specs.Compact.{compact};
ghost use Rattle.scale_core.specs.Read.{text_at};

use crate::compact::{Target, put_compact, read_compact};
use crate::fault::{Fault, Reason};
use growth_core::{Refused, extend_from_slice, make_room};

/// Reads a text from the start of `bytes`, and returns it, borrowed from them, with the length of
/// its encoding in bytes.
///
/// The encoding is a compact u32 of 1 to 5 bytes, and as many bytes of UTF-8 as that number (SCALE
/// codec specification, "Strings").
///
/// # Errors
///
/// The first that applies:
///
/// - Those of [`read_compact`] for the length, with the same reason and place.
/// - `Truncated` at the length of `bytes` if fewer bytes than that number follow.
/// - `BadUtf8` at the first byte after the longest valid prefix, if the text is not UTF-8.
pub fn read_text(bytes: &[u8]) -> Result<(&str, usize), Fault>
    ensures reads { Answers (λ s. s.now) bytes.now result (text_at bytes.now) }
    ensures reasons { IfErr result (λ f. (f.reason ≢ Reason.BadBool)
        × (f.reason ≢ Reason.BadChar) × (f.reason ≢ Reason.UnusedBits)) }
{
    let (count, start) = read_compact(bytes, Target::U32)?;
    let Some(spelled) = bytes[start..].get(..count as usize) else {
        return Err(Fault {
            reason: Reason::Truncated,
            at: bytes.len() as u64,
        });
    };
    match simdutf8::compat::from_utf8(spelled) {
        Ok(text) => Ok((text, start + spelled.len())),
        Err(error) => {
            let valid_len = error.valid_up_to();
            Err(Fault {
                reason: Reason::BadUtf8,
                at: (start + valid_len) as u64,
            })
        }
    }
}

/// Appends the length of the text as a compact u32, 1 to 5 bytes, and its bytes. The text has fewer
/// than 2^32 bytes.
///
/// # Errors
///
/// `Refused` if the allocation fails; the elements of `out` are unchanged.
pub fn write_text(out: &mut Vec<u8>, text: &str) -> Result<(), Refused>
    requires { length text.now < 2 ^ 32 }
    ensures ok { OnOk result (out.new.items
        ≡ out.old.items ++ compact (length text.now) ++ text.now) }
    ensures err { OnErr result (out.new.items ≡ out.old.items) }
{
    let mut spelled = [0; 17];
    let len = put_compact(text.len() as u128, &mut spelled);
    let there = out.len();
    make_room(out, len + text.len(), Some(there))?;
    extend_from_slice(out, &spelled[..len])?;
    extend_from_slice(out, text.as_bytes())
}
