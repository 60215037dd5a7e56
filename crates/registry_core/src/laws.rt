//! Laws of every registry and its encoding, alone and after the prefix of metadata.

ghost use Rattle.registry_core.specs.AsRead.{ReadRegistry};
ghost use Rattle.registry_core.specs.Laws.{FaultIsKept, FaultIsWithin, FitsMetadata, FrontIsCut};
ghost use Rattle.registry_core.specs.Laws.{ReadIsSpelled, SpelledIsRead, metadata_of};
ghost use Rattle.registry_core.specs.Reading.{metadata_at, registry_at};
ghost use Rattle.registry_core.specs.Examples.{FaultRows, MetadataRows, ReadRows};
ghost use Rattle.registry_core.specs.Spelling.{spelling};
ghost use Rattle.registry_core.specs.Splits.{DefinitionFaults, PartFaults, PieceFaults};
ghost use Rattle.registry_core.specs.Splits.{RegistryFaults};

/// Proves that the encoding of a registry is read as that registry, whatever follows.
pub fn spelled_is_read()
    ensures registry { SpelledIsRead ReadRegistry spelling registry_at }
    ensures metadata { SpelledIsRead FitsMetadata metadata_of metadata_at }
{}

/// Proves that a registry that is read is encoded by the bytes that it took, and by no others.
pub fn read_is_spelled()
    ensures registry { ReadIsSpelled ReadRegistry spelling registry_at }
    ensures metadata { ReadIsSpelled FitsMetadata metadata_of metadata_at }
{}

/// Proves that the place of each error of the format is within the input, and `Truncated` at its
/// end.
///
/// `OutOfMemory` is not an error of the format.
pub fn fault_is_within()
    ensures registry { FaultIsWithin registry_at }
    ensures metadata { FaultIsWithin metadata_at }
{}

/// Proves that an error other than `Truncated` is the same error at the same place, whatever
/// follows.
pub fn fault_is_kept()
    ensures registry { FaultIsKept registry_at }
    ensures metadata { FaultIsKept metadata_at }
{}

/// Proves that a proper prefix of an encoding is rejected as `Truncated`, at the end of the prefix.
pub fn front_is_cut()
    ensures registry { FrontIsCut ReadRegistry spelling registry_at }
    ensures metadata { FrontIsCut FitsMetadata metadata_of metadata_at }
{}

/// Proves that a reading is rejected at a part exactly if the parts before it are encodings and it
/// is itself rejected.
pub fn next_part_fails()
    ensures pieces { PieceFaults }
    ensures parts { PartFaults }
    ensures definitions { DefinitionFaults }
    ensures registry { RegistryFaults }
{}

/// Proves examples of the definitions with bytes known from outside: registries that are read or
/// rejected.
pub fn worked_examples()
    ensures read { ReadRows }
    ensures faults { FaultRows }
    ensures metadata { MetadataRows }
{}
