//! The versions of metadata whose registry can be read.

ghost use Rattle.std.specs.Prelude.{◌≡◌};

/// A version of metadata, given by the byte after its four letters (Substrate, `RuntimeMetadata`).
#[derive(Clone, Copy, Debug, PartialEq, Eq)]
pub enum Version {
    /// Version 14, with the byte `0e`.
    V14,
    /// Version 15, with the byte `0f`.
    V15,
}

impl Version {
    ghost use Rattle.registry_core.specs.Bytes.{version_byte, version_of};

    /// Returns the number of the version, which is also its byte.
    pub fn number(self) -> u8
        ensures { result ≡ version_byte self }
    {
        match self {
            Version::V14 => 14,
            Version::V15 => 15,
        }
    }

    /// Returns the version with this byte, or `None` if the byte is neither `0e` nor `0f`.
    pub(crate) fn from_byte(byte: u8) -> Option<Version>
        ensures { result ≡ version_of byte }
    {
        match byte {
            14 => Some(Version::V14),
            15 => Some(Version::V15),
            _ => None,
        }
    }
}
