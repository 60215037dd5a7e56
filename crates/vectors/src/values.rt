//! Values: each is fed to a decoder at once and in pieces, read from readers, and shown by every
//! call that shows values.

use crate::columns::{bytes_of, parsed};
use crate::commands::check_command;
use crate::registries::{Bits, Registries};
use crate::shown::{check_forms, check_value};
use crate::way::Way;
use crate::wrong::{Wrong, check_same, check_text};
use decode_core::{DecodeFault, DecodeReason, Decoder, Progress, StreamFault};
use scale_core::Source;
use scale_tests::paced::{PacedReader, Then};
use std::alloc::{AllocError, Global};
use test_calls::calls::{Holding, all_of, feed, finish, front_of, held, open, opening_fault};
use value_core::{Limits, Value};
use widths_core::Checked;

/// The most bytes of a row that is fed in three pieces.
const LONGEST_IN_THREE: usize = 12;

/// A value's bytes, and what a decoder should answer once it has them all.
#[derive(Drop)]
pub(crate) struct Row<'a> {
    /// Whether bit sequences are read.
    pub(crate) bits: Bits,
    pub(crate) ty: u32,
    pub(crate) limits: Limits,
    pub(crate) bytes: Vec<u8>,
    pub(crate) answer: &'a str,
    pub(crate) held: Holding,
    pub(crate) json: &'a str,
}

impl Row<'_> {
    /// Returns the value's bytes, or `None` if the row has no value.
    pub(crate) fn value(&self) -> Option<&[u8]> {
        match self.answer {
            "Done" => self.bytes.get(..self.held.taken as usize),
            _ => None,
        }
    }

    /// Returns the error of the row's bytes if no more follow, or an empty text if they begin with
    /// a value.
    fn refusal(&self, alloc: Global) -> Result<String, AllocError> {
        match self.answer {
            "Done" => Ok(String::new(alloc)),
            "More" => format!(in alloc; "Truncated at {}", self.bytes.len()),
            refusal => String::from_str(alloc, refusal),
        }
    }

    /// Returns the error of the row's bytes if all of them must be one value, or an empty text if
    /// they are one.
    pub(crate) fn whole_refusal(&self, alloc: Global) -> Result<String, AllocError> {
        match self.value() {
            Some(value) if value.len() < self.bytes.len() => {
                format!(in alloc; "TrailingBytes at {}", value.len())
            }
            _ => self.refusal(alloc),
        }
    }
}

/// Reads the columns of a row.
fn row_of<'a>(alloc: Global, bits: Bits, columns: &[&'a str]) -> Result<Row<'a>, Wrong> {
    let [
        _,
        _,
        ty,
        depth,
        limit,
        bytes,
        answer,
        taken,
        nodes,
        texts,
        json,
    ] = columns
    else {
        return Err(Wrong::Column("one of eleven"));
    };
    Ok(Row {
        bits,
        ty: parsed(ty, "a type")?,
        limits: Limits {
            depth: parsed(depth, "a depth")?,
            bytes: parsed(limit, "a number")?,
        },
        bytes: bytes_of(alloc, bytes)?,
        answer: *answer,
        held: Holding {
            nodes: parsed(nodes, "a number")?,
            texts: parsed(texts, "a number")?,
            taken: parsed(taken, "a number")?,
        },
        json: *json,
    })
}

/// Creates a decoder of a value of the row's type.
fn decoder_of<'r>(
    alloc: Global,
    checked: &'r Checked,
    row: &Row<'_>,
) -> Result<Decoder<'r, Global>, Wrong> {
    open(alloc, checked, row.ty, row.limits).ok_or(Wrong::Call("Decoder::new"))
}

/// The answer to the pieces so far, with the total number of bytes used.
#[derive(Clone, Copy, Debug, PartialEq, Eq)]
enum Fed {
    More(u64),
    Done(u64),
    Refused(DecodeFault),
}

/// Feeds the next piece, and returns the answer to the pieces so far.
fn feed_next(decoder: &mut Decoder<'_, Global>, fed: Fed, piece: &[u8]) -> Fed {
    let before = match fed {
        Fed::More(used) | Fed::Done(used) => used,
        Fed::Refused(_) => 0,
    };
    match feed(decoder, piece) {
        Ok(Progress::More) => Fed::More(before.saturating_add(piece.len() as u64)),
        Ok(Progress::Done { used }) => Fed::Done(before.saturating_add(used)),
        Err(fault) => Fed::Refused(fault),
    }
}

/// Returns the answer in the format of a row, and the number of bytes used unless they are
/// rejected.
fn fed_line(alloc: Global, fed: Fed) -> Result<(String, Option<u64>), AllocError> {
    match fed {
        Fed::More(used) => Ok((String::from_str(alloc, "More")?, Some(used))),
        Fed::Done(used) => Ok((String::from_str(alloc, "Done")?, Some(used))),
        Fed::Refused(fault) => Ok((format!(in alloc; "{fault}")?, None)),
    }
}

/// Checks the answer of a decoder that was fed the row's bytes, and what it holds.
fn check_fed(
    alloc: Global,
    way: Way,
    row: &Row<'_>,
    fed: Fed,
    decoder: &Decoder<'_, Global>,
) -> Result<(), Wrong> {
    let (line, used) = fed_line(alloc, fed)?;
    check_text(alloc, way, row.answer, &line)?;
    if let Some(used) = used {
        check_same(alloc, way, row.held.taken, used)?;
    }
    check_same(alloc, way, row.held, held(decoder))
}

/// Checks that the decoder of the row's bytes finishes as the row says.
fn check_finished(
    alloc: Global,
    way: Way,
    row: &Row<'_>,
    end: Result<Value<'_, Global>, DecodeFault>,
) -> Result<(), Wrong> {
    let wanted = row.refusal(alloc)?;
    match end {
        Ok(value) => {
            check_text(alloc, way, &wanted, "")?;
            check_value(alloc, way, row, &value)
        }
        Err(fault) => {
            let line = format!(in alloc; "{fault}")?;
            check_text(alloc, way, &wanted, &line)
        }
    }
}

/// Returns a piece that changes nothing after the row's bytes: an empty one if the value is
/// incomplete, and any other otherwise.
fn idle_piece(row: &Row<'_>) -> &'static [u8] {
    match row.answer {
        "More" => b"",
        _ => b"\x00\x01",
    }
}

/// Feeds the pieces and one more that changes nothing, and finishes the decoder.
fn check_pieces(
    alloc: Global,
    checked: &Checked,
    row: &Row<'_>,
    way: Way,
    pieces: &[&[u8]],
) -> Result<(), Wrong> {
    let mut decoder = decoder_of(alloc, checked, row)?;
    let mut fed = Fed::More(0);
    'pieces: for piece in pieces {
        fed = feed_next(&mut decoder, fed, piece);
    }
    check_fed(alloc, way, row, fed, &decoder)?;
    let again = feed_next(&mut decoder, fed, idle_piece(row));
    check_fed(alloc, way, row, again, &decoder)?;
    check_finished(alloc, way, row, finish(decoder))
}

/// Feeds the bytes one by one, each between two empty pieces. Checks that the second one changes
/// nothing, and returns the answer.
fn feed_singly(
    alloc: Global,
    decoder: &mut Decoder<'_, Global>,
    bytes: &[u8],
) -> Result<Fed, Wrong> {
    let mut fed = feed_next(decoder, Fed::More(0), b"");
    'bytes: for byte in bytes {
        fed = feed_next(decoder, fed, &[*byte]);
        check_same(alloc, Way::Singly, fed, feed_next(decoder, fed, b""))?;
    }
    Ok(fed)
}

/// Feeds the bytes one by one, and checks the answer.
fn check_singly(alloc: Global, checked: &Checked, row: &Row<'_>) -> Result<(), Wrong> {
    let mut decoder = decoder_of(alloc, checked, row)?;
    let fed = feed_singly(alloc, &mut decoder, &row.bytes)?;
    check_fed(alloc, Way::Singly, row, fed, &decoder)?;
    check_finished(alloc, Way::Singly, row, finish(decoder))
}

/// Feeds the bytes in two pieces, split at every place. Returns the number of places.
fn check_two_pieces(alloc: Global, checked: &Checked, row: &Row<'_>) -> Result<u64, Wrong> {
    'cuts: for cut in 0..=row.bytes.len() {
        let (front, rest) = row.bytes.split_at(cut);
        check_pieces(alloc, checked, row, Way::TwoPieces(cut), &[front, rest])?;
    }
    Ok((row.bytes.len() as u64).saturating_add(1))
}

/// Feeds the bytes of a short row in three pieces, split at every two places. Returns the number of
/// splits.
fn check_three_pieces(alloc: Global, checked: &Checked, row: &Row<'_>) -> Result<u64, Wrong> {
    let mut count = 0u64;
    if row.bytes.len() > LONGEST_IN_THREE {
        return Ok(count);
    }
    'seconds: for second in 0..=row.bytes.len() {
        let (front, last) = row.bytes.split_at(second);
        'firsts: for first in 0..=front.len() {
            let (first_piece, middle) = front.split_at(first);
            let way = Way::ThreePieces(first, second);
            check_pieces(alloc, checked, row, way, &[first_piece, middle, last])?;
            count = count.saturating_add(1);
        }
    }
    Ok(count)
}

/// Checks that every front shorter than the bytes taken is incomplete, and is rejected as truncated
/// if no more bytes follow. Returns the number of fronts.
fn check_fronts(alloc: Global, checked: &Checked, row: &Row<'_>) -> Result<u64, Wrong> {
    let taken = row.held.taken as usize;
    'fronts: for len in 0..taken {
        let front = row.bytes.get(..len).ok_or(Wrong::Column("long enough"))?;
        let mut decoder = decoder_of(alloc, checked, row)?;
        let fed = feed_next(&mut decoder, Fed::More(0), front);
        check_same(alloc, Way::Front(len), Fed::More(len as u64), fed)?;
        let cut = DecodeFault {
            reason: DecodeReason::Truncated,
            at: len as u64,
        };
        check_same(alloc, Way::Front(len), Some(cut), finish(decoder).err())?;
    }
    Ok(row.held.taken)
}

/// Checks that all bytes of the row are one value, or are rejected as the row says.
fn check_all(
    alloc: Global,
    way: Way,
    row: &Row<'_>,
    end: Result<Value<'_, Global>, String>,
) -> Result<(), Wrong> {
    let wanted = row.whole_refusal(alloc)?;
    match end {
        Ok(value) => {
            check_text(alloc, way, &wanted, "")?;
            check_value(alloc, way, row, &value)
        }
        Err(line) => check_text(alloc, way, &wanted, &line),
    }
}

/// Reads the row's bytes from a reader of `step` bytes a call, which doesn't fail.
fn check_reader(alloc: Global, checked: &Checked, row: &Row<'_>, step: usize) -> Result<(), Wrong> {
    let way = Way::Reader(step);
    let mut source = Source::new(PacedReader::new(&row.bytes, step, Then::GoesOn));
    let end = match all_of(alloc, checked, row.ty, row.limits, &mut source) {
        Ok(value) => Ok(value),
        Err(fault) => Err(format!(in alloc; "{fault}")?),
    };
    check_same(alloc, way, false, source.failed())?;
    check_all(alloc, way, row, end)
}

/// Decodes the value that the row's bytes begin with, from pieces that hold all of them.
fn check_front_of(alloc: Global, checked: &Checked, row: &Row<'_>) -> Result<(), Wrong> {
    let way = Way::DecodePieces;
    match front_of(alloc, checked, row.ty, row.limits, &[b"", &row.bytes]) {
        Ok((value, taken)) => {
            check_text(alloc, way, row.answer, "Done")?;
            check_same(alloc, way, row.held.taken, taken)?;
            check_value(alloc, way, row, &value)
        }
        Err(fault) => {
            let line = format!(in alloc; "{fault}")?;
            check_text(alloc, way, &row.refusal(alloc)?, &line)
        }
    }
}

/// Checks that a decoder leaves a byte after the value, which is rejected if all bytes must be the
/// value.
fn check_further_byte(alloc: Global, checked: &Checked, row: &Row<'_>) -> Result<u64, Wrong> {
    let way = Way::FurtherByte;
    let Some(value) = row.value() else {
        return Ok(0);
    };
    let mut bytes = Vec::from_slice(alloc, value)?;
    bytes.extend_from_slice(&[0])?;
    let mut decoder = decoder_of(alloc, checked, row)?;
    let fed = feed_next(&mut decoder, Fed::More(0), &bytes);
    check_fed(alloc, way, row, fed, &decoder)?;
    let mut source = Source::new(bytes.as_slice());
    let reported = all_of(alloc, checked, row.ty, row.limits, &mut source).err();
    let at = value.len() as u64;
    let wanted = Some(StreamFault::TrailingBytes { at });
    check_same(alloc, way, wanted, reported)?;
    Ok(2)
}

/// Checks that the decoder of the row is not created.
fn check_unopened(alloc: Global, checked: &Checked, row: &Row<'_>) -> Result<u64, Wrong> {
    let fault = opening_fault(alloc, checked, row.ty, row.limits);
    let line = match fault {
        Some(fault) => format!(in alloc; "{fault}")?,
        None => String::from_str(alloc, "a decoder")?,
    };
    check_text(alloc, Way::Open, row.answer, &line)?;
    let mut source = Source::new(row.bytes.as_slice());
    let reported = all_of(alloc, checked, row.ty, row.limits, &mut source).err();
    check_same(alloc, Way::Open, fault.map(StreamFault::Open), reported)?;
    Ok(2)
}

/// Checks the row's bytes in every way. Returns the number of ways.
fn check_ways(
    alloc: Global,
    checked: &Checked,
    row: &Row<'_>,
    registry: &[u8],
) -> Result<u64, Wrong> {
    if let "UnknownType" | "LimitOutOfRange" = row.answer {
        return check_unopened(alloc, checked, row);
    }
    check_pieces(alloc, checked, row, Way::Whole, &[&row.bytes])?;
    check_singly(alloc, checked, row)?;
    check_reader(alloc, checked, row, 1)?;
    check_reader(alloc, checked, row, 4096)?;
    check_front_of(alloc, checked, row)?;
    let mut ways = 5u64;
    for more in [
        check_two_pieces(alloc, checked, row)?,
        check_three_pieces(alloc, checked, row)?,
        check_fronts(alloc, checked, row)?,
        check_further_byte(alloc, checked, row)?,
        check_forms(alloc, checked, row)?,
        check_command(alloc, registry, row)?,
    ] {
        ways = ways.saturating_add(more);
    }
    Ok(ways)
}

/// Checks one row, with bits allowed or without. Returns the number of ways in which it was
/// checked.
pub(crate) fn check_row(
    alloc: Global,
    registries: &Registries<'_>,
    bits: Bits,
    columns: &[&str],
) -> Result<u64, Wrong> {
    let row = row_of(alloc, bits, columns)?;
    let registry = registries.bytes_of(alloc, columns, 1)?;
    let checked = registries.checked(alloc, bits, columns)?;
    check_ways(alloc, &checked, &row, &registry)
}
