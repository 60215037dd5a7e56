//! A value in progress, over a borrowed registry.

ghost use Rattle.std.specs.Prelude.{◌≡◌};
ghost use Rattle.scaleview_c.specs.Calls.{Ends, FeedsStage, Keeps, WritesStage, bytes_taken};
ghost use Rattle.scaleview_c.specs.Calls.{nodes_held, text_bytes_held};

use crate::allowance::CallBudget;
use crate::opened::Opened;
use budget_core::Budget;
use c_answers::{Answer, MORE, OK};
use decode_core::Decoder;
use scale_calls::ValueRefusal;
use std::alloc::Global;
use std::mem;
use value_core::Value;

/// The stage of a value.
#[derive(Drop)]
pub enum Stage {
    /// It takes bytes.
    Decoding(Decoder<'static, Budget<Global>>),
    /// It has ended, and is complete.
    Complete(Value<'static, Budget<Global>>),
    /// It has ended, and was rejected.
    Refused(ValueRefusal),
}

/// A value in progress. The type has no parameters, so its handle has none.
#[derive(Drop)]
pub struct Session {
    pub stage: Stage,
    pub registry: &'static Opened,
    /// The memory that the value, and its text while it is written, may take.
    pub budget: CallBudget,
}

impl Session {
    /// Ends the value, if it has not ended.
    pub(crate) fn end(&mut self)
        ensures ended { Ends self.old.stage self.new.stage }
        ensures kept { Keeps self.old self.new }
    {
        let stage = mem::replace(&mut self.stage, Stage::Refused(ValueRefusal::UnknownType));
        self.stage = stage.ended();
    }
}

impl Stage {
    /// Feeds the next piece, and returns how far the value is.
    pub(crate) fn feed(&mut self, piece: &[u8]) -> Answer
        ensures { FeedsStage self.old piece.now self.new result }
    {
        match self {
            Stage::Decoding(decoder) => match decoder.feed(piece) {
                Ok(progress) => Answer::of_progress(progress),
                Err(fault) => Answer::of_value(ValueRefusal::from(fault)),
            },
            Stage::Complete(_) => Answer::counted(OK, 0),
            Stage::Refused(refusal) => Answer::of_value(*refusal),
        }
    }

    /// Returns the number of bytes that a value in progress has taken.
    pub(crate) fn taken(&self) -> u64
        ensures { result ≡ bytes_taken self.now }
    {
        match self {
            Stage::Decoding(decoder) => decoder.taken(),
            Stage::Complete(_) | Stage::Refused(_) => 0,
        }
    }

    /// Returns the number of nodes held.
    pub(crate) fn nodes(&self) -> u64
        ensures { result ≡ nodes_held self.now }
    {
        match self {
            Stage::Decoding(decoder) => decoder.node_count(),
            Stage::Complete(value) => value.node_count(),
            Stage::Refused(_) => 0,
        }
    }

    /// Returns the number of bytes of texts and runs held.
    pub(crate) fn text_bytes(&self) -> u64
        ensures { result ≡ text_bytes_held self.now }
    {
        match self {
            Stage::Decoding(decoder) => decoder.text_bytes(),
            Stage::Complete(value) => value.text_bytes(),
            Stage::Refused(_) => 0,
        }
    }

    /// Ends the value, if it has not ended.
    fn ended(self) -> Stage
        ensures { Ends self result }
    {
        match self {
            Stage::Decoding(decoder) => match decoder.finish() {
                Ok(value) => Stage::Complete(value),
                Err(fault) => Stage::Refused(ValueRefusal::from(fault)),
            },
            ended => ended,
        }
    }

    /// Writes the JSON of an ended value to the front of `out`, by way of a text in the budget.
    pub(crate) fn put(&self, budget: &CallBudget, out: &mut [u8]) -> Answer
        ensures { WritesStage self.now out.old out.new result }
    {
        match self {
            Stage::Decoding(_) => Answer::plain(MORE),
            Stage::Complete(value) => budget.put_json(value, out),
            Stage::Refused(refusal) => Answer::of_value(*refusal),
        }
    }
}
