//! A name that contracts see as its bytes.

ghost use Rattle.std.specs.Prelude.{◌≡◌, true};
ghost use Rattle.std.specs.Str.{is_utf8};
ghost use Rattle.plain_core.specs.Plain.{AreEscapes};

use crate::text::Text;
use plain_core::{Escapes, is_plain};
use std::marker::Model;

/// The name of a field or of an arm: a [`Text`] that contracts see as its bytes, which are UTF-8,
/// and whether it needs an escape in JSON, which takes 8 bytes.
#[derive(Debug, Drop)]
pub struct Name {
    text: Text,
    escapes: Escapes,
}

impl Model for Name {
    ghost use Rattle.std.specs.Prelude.{List, ℕ};
    ghost use Rattle.plain_core.specs.Plain.{AreEscapes};

    ghost Value = { List ℕ };

    ghost view = { λ n. n.text };

    ghost invariant = { λ n. AreEscapes n.escapes n.text };
}

impl Name {
    /// Creates a name from a text, and keeps its memory. It looks at each byte.
    pub fn from_text(text: Text) -> Name
        ensures { result ≡ text }
    {
        let escapes = if is_plain(text.as_str()) {
            Escapes::None
        } else {
            Escapes::Needed
        };
        Name { text, escapes }
    }

    /// Returns the name as a text.
    pub fn as_text(&self) -> &Text
        ensures { result.now ≡ self.now }
    {
        &self.text
    }

    /// Returns the name as a string slice.
    #[inline(always)]
    pub fn as_str(&self) -> &str
        ensures same { result.now ≡ self.now }
        ensures utf8 { is_utf8 self.now ≡ true }
    {
        self.text.as_str()
    }

    /// Returns whether the name needs escapes in JSON (RFC 8259, "Strings").
    #[inline(always)]
    pub fn escapes(&self) -> Escapes
        ensures { AreEscapes result self.now }
    {
        self.escapes
    }
}
