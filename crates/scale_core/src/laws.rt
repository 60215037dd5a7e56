//! Laws of the encodings. Each is the contract of a function that does nothing, so that it is
//! proved.

ghost use Rattle.scale_core.specs.Laws.{CompactIsPrefixFree, CompactIsReadAgain, CompactIsSpelled};
ghost use Rattle.scale_core.specs.Laws.{NumberIsSpelled, SignedIsSpelled};
ghost use Rattle.scale_core.specs.Laws.{TextIsPrefixFree, TextIsReadAgain, TextIsSpelled};
ghost use Rattle.scale_core.specs.Examples.{CompactRows, SpellingRows, TextRows};

/// Proves that no compact integer's encoding is a proper prefix of another's with the same target.
///
/// Two encodings that are prefixes of the same bytes are equal, and so are their numbers.
pub fn compact_is_prefix_free()
    ensures { CompactIsPrefixFree }
{}

/// Proves that the encoding of a compact integer is read as that integer, whatever follows.
pub fn compact_is_read_again()
    ensures { CompactIsReadAgain }
{}

/// Proves that a compact integer is read only from its one encoding at the start of the bytes.
pub fn compact_is_spelled()
    ensures { CompactIsSpelled }
{}

/// Proves that no text's encoding is a proper prefix of another's.
///
/// Two encodings that are prefixes of the same bytes are equal, and so are their texts.
pub fn text_is_prefix_free()
    ensures { TextIsPrefixFree }
{}

/// Proves that the encoding of a text is read as that text, whatever follows.
pub fn text_is_read_again()
    ensures { TextIsReadAgain }
{}

/// Proves that a text is read only from its one encoding at the start of the bytes.
pub fn text_is_spelled()
    ensures { TextIsSpelled }
{}

/// Proves that the bytes of a fixed-width integer encode it, and that bytes are those of the
/// integer that they encode.
pub fn fixed_width_is_spelled()
    ensures unsigned { NumberIsSpelled }
    ensures signed { SignedIsSpelled }
{}

/// Proves examples of the definitions with bytes known from outside: encodings, and readings with
/// their errors.
pub fn worked_examples()
    ensures spellings { SpellingRows }
    ensures compacts { CompactRows }
    ensures texts { TextRows }
{}
