//! A law of every value and its records.

ghost use Rattle.record_core.specs.Records.{RecordsAreTree};

/// The records of a value and their pool, read back, are the value's tree.
pub fn records_are_tree()
    ensures { RecordsAreTree }
{}
