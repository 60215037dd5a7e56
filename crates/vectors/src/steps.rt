//! The steps of a builder's row: calls with their answers, and what comes next.

use crate::columns::{bytes_of, parsed};
use crate::wrong::Wrong;
use scale_tests::building::Call;
use std::alloc::Global;

/// The answer of a call that succeeds.
pub(crate) const ACCEPTED: &str = "accepted";

/// A step of a row.
#[derive(Clone, Copy)]
pub(crate) struct Step<'a> {
    /// The name of the call, or empty if the step only looks at what comes next.
    pub(crate) name: &'a str,
    pub(crate) argument: &'a str,
    /// The error as `Debug` prints it, or [`ACCEPTED`].
    pub(crate) answer: &'a str,
    /// What comes next as `Debug` prints it, and its depth, if the row has them.
    pub(crate) next: Option<&'a str>,
}

/// What a step does.
#[derive(Clone, Copy)]
pub(crate) enum Action {
    /// It only looks at what comes next.
    Look,
    Finish,
    /// It makes a call that adds a node, or a part of a text or of a run.
    Call,
}

/// Splits a step into its call and what comes next.
fn split_next(text: &str) -> (&str, Option<&str>) {
    if let Some(next) = text.strip_prefix("@ ") {
        return ("", Some(next));
    }
    match text.split_once(" @ ") {
        Some((call, next)) => (call, Some(next)),
        None => (text, None),
    }
}

/// Reads a step, `CALL ARGUMENT = ANSWER @ NEXT DEPTH`. Each part may be missing.
pub(crate) fn step_of(text: &str) -> Step<'_> {
    let (call, next) = split_next(text);
    let (call, answer) = call.split_once(" = ").unwrap_or((call, ACCEPTED));
    let (name, argument) = call.split_once(' ').unwrap_or((call, "-"));
    Step {
        name,
        argument,
        answer,
        next,
    }
}

impl Step<'_> {
    /// Returns what the step does.
    pub(crate) fn action(&self) -> Result<Action, Wrong> {
        match self.name {
            "" if self.next.is_none() => Err(Wrong::Column("a step")),
            "" => Ok(Action::Look),
            "finish" => Ok(Action::Finish),
            _ => Ok(Action::Call),
        }
    }

    /// Returns the bytes of the argument, or no bytes if the call takes none.
    pub(crate) fn bytes(&self, alloc: Global) -> Result<Vec<u8>, Wrong> {
        match self.name {
            "text" | "text_piece" | "bytes" | "bytes_piece" | "wide" => {
                bytes_of(alloc, self.argument)
            }
            "bits" => bytes_of(alloc, self.count_and_words().1),
            _ => Ok(Vec::new(alloc)),
        }
    }

    /// Returns the number of bits and the bytes of their words, as `COUNT BYTES` spells them.
    fn count_and_words(&self) -> (&str, &str) {
        self.argument
            .split_once(' ')
            .unwrap_or((self.argument, "-"))
    }

    /// Returns the call. `bytes` are the argument's bytes.
    pub(crate) fn call<'b>(&self, bytes: &'b [u8]) -> Result<Call<'b>, Wrong> {
        match self.name {
            "empty" => Ok(Call::Empty),
            "text" => Ok(Call::Text(text_of(bytes)?)),
            "text_piece" => Ok(Call::TextPiece(bytes)),
            "text_end" => Ok(Call::TextEnd),
            "bytes" => Ok(Call::Bytes(bytes)),
            "bytes_piece" => Ok(Call::BytesPiece(bytes)),
            "bytes_end" => Ok(Call::BytesEnd),
            "bits" => Ok(Call::Bits(parsed(self.count_and_words().0, "a length")?, bytes)),
            "wide" => Ok(Call::Wide(wide_of(bytes)?)),
            "fields" => Ok(Call::Fields),
            _ => self.call_with_number(),
        }
    }

    /// Returns the call, if its argument is a number, a character's code or a boolean.
    fn call_with_number(&self) -> Result<Call<'static>, Wrong> {
        match self.name {
            "bool" => Ok(Call::Bool(parsed(self.argument, "a bool")?)),
            "char" => Ok(Call::Char(char_of(self.argument)?)),
            "unsigned" => Ok(Call::Unsigned(parsed(self.argument, "unsigned")?)),
            "signed" => Ok(Call::Signed(parsed(self.argument, "signed")?)),
            "compact" => Ok(Call::Compact(parsed(self.argument, "unsigned")?)),
            "arm" => Ok(Call::Arm(parsed(self.argument, "an index")?)),
            _ => self.call_with_length(),
        }
    }

    /// Returns the call, if its argument is a length.
    fn call_with_length(&self) -> Result<Call<'static>, Wrong> {
        match self.name {
            "text_start" => Ok(Call::TextStart(parsed(self.argument, "a length")?)),
            "bytes_start" => Ok(Call::BytesStart(parsed(self.argument, "a length")?)),
            "count" => Ok(Call::Count(parsed(self.argument, "a length")?)),
            "list" => Ok(Call::List(parsed(self.argument, "a length")?)),
            _ => Err(Wrong::Column("a call")),
        }
    }
}

/// Reads a character by its code.
fn char_of(argument: &str) -> Result<char, Wrong> {
    let code = parsed(argument, "a length")?;
    char::from_u32(code).ok_or(Wrong::Column("a character"))
}

/// Returns the text of these bytes.
fn text_of(bytes: &[u8]) -> Result<&str, Wrong> {
    str::from_utf8(bytes).ok().ok_or(Wrong::Column("a text"))
}

/// Returns the 32 bytes of a wide integer.
fn wide_of(bytes: &[u8]) -> Result<[u8; 32], Wrong> {
    let wide = <[u8; 32]>::try_from(bytes).ok();
    wide.ok_or(Wrong::Column("32 bytes"))
}
