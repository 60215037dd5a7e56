//! The prefix of metadata: four letters and a version.

ghost use Rattle.registry_core.specs.Gives.{Gives};
ghost use Rattle.registry_core.specs.Reading.{letter_at, prefix_at, version_at};

use super::atoms::byte_of;
use super::read_stop::ReadStop;
use crate::fault::RegistryReason;
use crate::version::Version;

/// Returns the bytes after this letter.
///
/// # Errors
///
/// `Truncated` if `bytes` is empty, and `NotMetadata` if the first byte is another.
fn after_letter(letter: u8, bytes: &[u8]) -> Result<&[u8], ReadStop<'_>>
    ensures { Gives (λ rest. (tt, rest.now)) result (letter_at letter bytes.now) }
{
    let (byte, rest) = byte_of(bytes)?;
    if byte != letter {
        return Err(ReadStop::Fault(RegistryReason::NotMetadata, bytes));
    }
    Ok(rest)
}

/// Reads the version from the first byte, and returns it with the bytes after it.
///
/// # Errors
///
/// `Truncated` if `bytes` is empty, and `WrongVersion` if the byte is neither `0e` nor `0f`.
fn version_of(bytes: &[u8]) -> Result<(Version, &[u8]), ReadStop<'_>>
    ensures { Gives (λ x. (x.0, x.1.now)) result (version_at bytes.now) }
{
    let (byte, rest) = byte_of(bytes)?;
    match Version::from_byte(byte) {
        Some(version) => Ok((version, rest)),
        None => Err(ReadStop::Fault(RegistryReason::WrongVersion, bytes)),
    }
}

/// Reads the letters `meta` and the version, and returns the version with the bytes after it.
///
/// # Errors
///
/// The first that applies:
///
/// - `NotMetadata` if one of the first four bytes is present and is not that of `meta`.
/// - `Truncated` if there are fewer than five bytes.
/// - `WrongVersion` if the fifth byte is neither `0e` nor `0f`.
#[tactic(auto, unfolding(crate::specs::Reading::prefix_at))]
pub(crate) fn prefix_of(bytes: &[u8]) -> Result<(Version, &[u8]), ReadStop<'_>>
    ensures { Gives (λ x. (x.0, x.1.now)) result (prefix_at bytes.now) }
{
    let rest = after_letter(b'm', bytes)?;
    let rest = after_letter(b'e', rest)?;
    let rest = after_letter(b't', rest)?;
    let rest = after_letter(b'a', rest)?;
    version_of(rest)
}
