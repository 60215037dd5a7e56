//! What holds of every outcome.

ghost use Rattle.outcome_core.specs.Begins.{FaultIsBegun};
ghost use Rattle.outcome_core.specs.HeldTree.{BegunIsBounded, BegunIsMissing, MissingIsBegun};
ghost use Rattle.outcome_core.specs.HeldLaws.{HeldIsBounded, MoreHolds, OneBegun};
ghost use Rattle.outcome_core.specs.Outcome.{EncodedIsDone, OneOutcome, OutcomeIsComputed};
ghost use Rattle.outcome_core.specs.Outcome.{OutcomeIsKept, TakenByFault, TakenIsShortest};

/// What is encoded within the limits is decoded, and all of it is taken.
pub fn encoded_is_done()
    ensures { EncodedIsDone }
{}

/// An input has one outcome at most.
pub fn one_outcome()
    ensures { OneOutcome }
{}

/// Where bytes are missing, a begun tree is held.
pub fn missing_is_begun()
    ensures { MissingIsBegun }
{}

/// A begun tree has few levels, nodes, texts and runs of bytes for its bytes.
pub fn begun_is_bounded()
    ensures { BegunIsBounded }
{}

/// Every input has the outcome that is computed.
pub fn outcome_is_computed()
    ensures { OutcomeIsComputed }
{}

/// The bytes taken at a fault are the shortest front that is rejected with it.
pub fn taken_is_shortest()
    ensures { TakenIsShortest }
{}

/// If a begun tree is held, bytes are missing, and there is no other.
pub fn begun_is_missing()
    ensures { BegunIsMissing }
{}

/// An outcome that is decided is kept, whatever bytes follow.
pub fn outcome_is_kept()
    ensures { OutcomeIsKept }
{}

/// What is held of an input is bounded by the bytes taken.
pub fn held_is_bounded()
    ensures { HeldIsBounded }
{}

/// An input has one begun tree at most.
pub fn one_begun()
    ensures { OneBegun }
{}

/// How many bytes are taken at a fault follows from the fault alone.
pub fn taken_by_fault()
    ensures { TakenByFault }
{}

/// More bytes are needed exactly if a begun tree is held.
pub fn more_holds()
    ensures { MoreHolds }
{}

/// What is added before a fault is a begun tree.
pub fn fault_is_begun()
    ensures { FaultIsBegun }
{}
