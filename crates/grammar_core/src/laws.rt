//! Laws of every value and its bytes.

ghost use Rattle.grammar_core.specs.Spelled.{EncodedIsValue};
ghost use Rattle.grammar_core.specs.Laws.{ValuesArePrefixFree, ValueOrFault, ValueOrFaultNotBoth};
ghost use Rattle.grammar_core.specs.Laws.{FaultsAreStable, ValueIsRead, ReadIsValue, EmptyHasUnit};
ghost use Rattle.grammar_core.specs.Laws.{SizedHasBytes, ValuesAreFinite, ValuesAreBounded};
ghost use Rattle.grammar_core.specs.Laws.{OneSpelling, TextsAreText, FiniteHasValue, PartsFail};
ghost use Rattle.grammar_core.specs.Laws.{BegunTreesFit};

/// Two values of a type whose bytes both begin one list are equal.
pub fn values_are_prefix_free()
    ensures { ValuesArePrefixFree }
{}

/// A value begins the input, or the input is rejected.
pub fn value_or_fault()
    ensures { ValueOrFault }
{}

/// If a value begins the input, the input is not rejected.
pub fn not_both()
    ensures { ValueOrFaultNotBoth }
{}

/// A fault that more bytes cannot mend is the fault of every longer input.
pub fn faults_are_stable()
    ensures { FaultsAreStable }
{}

/// Every value is read from its bytes, whatever follows them.
pub fn value_is_read()
    ensures { ValueIsRead }
{}

/// What is read is a value.
pub fn read_is_value()
    ensures { ReadIsValue }
{}

/// A type that takes no bytes has one value, of no bytes.
pub fn empty_has_unit()
    ensures { EmptyHasUnit }
{}

/// A value of a type that takes bytes has at least one.
pub fn sized_has_bytes()
    ensures { SizedHasBytes }
{}

/// A type with a value is finite.
pub fn values_are_finite()
    ensures { ValuesAreFinite }
{}

/// A value has few nodes and text bytes for its bytes.
pub fn values_are_bounded()
    ensures { ValuesAreBounded }
{}

/// A value has one spelling.
pub fn one_spelling()
    ensures { OneSpelling }
{}

/// Each text of a value is UTF-8 and short enough to be spelled.
pub fn texts_are_text()
    ensures { TextsAreText }
{}

/// A finite type has a value, unless it reaches a definition whose values are not supported.
pub fn finite_has_value()
    ensures { FiniteHasValue }
{}

/// A list of parts is rejected exactly if its next part is.
pub fn parts_fail()
    ensures { PartsFail }
{}

/// The bytes that spell a value by the grammar are those that `encode` writes.
pub fn encoded_is_value()
    ensures { EncodedIsValue }
{}

/// A begun tree fits its room and wants its next type at the depth that the room leaves. If it
/// wants none, it is a value.
pub fn begun_trees_fit()
    ensures { BegunTreesFit }
{}
