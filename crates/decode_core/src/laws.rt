//! What holds of every outcome.

ghost use Rattle.decode_core.specs.Wanted.{WantedGoesOn};

pub use outcome_core::laws::{
    begun_is_bounded, begun_is_missing, encoded_is_done, fault_is_begun, held_is_bounded,
    missing_is_begun, more_holds, one_begun, one_outcome, outcome_is_computed, outcome_is_kept,
    taken_by_fault, taken_is_shortest,
};

/// If memory ran out, more bytes are needed and one is there, or a further node is read.
pub fn wanted_goes_on()
    ensures { WantedGoesOn }
{}
