//! Compact integers (SCALE codec specification, "Compact/general integers").
//!
//! The two low bits of the first byte name one of four modes. A value is encoded in the mode that
//! takes the fewest bytes.

ghost use Rattle.std.specs.Prelude.{◌≡◌, ◌≢◌, ◌+◌, ◌*◌, ◌/◌, ◌%◌, ◌^◌, ◌<◌, ◌≤◌, ◌++◌, ◌∷◌};
ghost use Rattle.std.specs.Prelude.{nat_lt, ◌==◌, length, take, drop, MatchResult};
ghost use Rattle.std.specs.Prelude.{IfOk, IfErr, OnOk, OnErr, ◌⊎◌};
ghost use Rattle.scale_core.specs.Answers.{Answers, judged_compact, truncated_fault};
ghost use Rattle.scale_core.specs.Compact.{big_bytes, compact, target_bytes};
ghost use Rattle.scale_core.specs.Number.{number};
ghost use Rattle.scale_core.specs.Read.{compact_at, integer_at};

use crate::fault::{Fault, Reason};
use crate::integer::front;
use growth_core::{Refused, extend_from_slice};

/// The type that a compact integer stands for: an unsigned integer of this width, or `Unit`, which
/// takes no bytes.
#[derive(Clone, Copy, Debug, PartialEq, Eq)]
pub enum Target {
    Unit,
    U8,
    U16,
    U32,
    U64,
    U128,
}

impl Target {
    /// Returns the number of bytes of the integer type, 0 for `Unit`.
    pub fn bytes(self) -> usize
        ensures exact { result ≡ target_bytes self }
        ensures bound { result ≤ 16 }
    {
        match self {
            Target::Unit => 0,
            Target::U8 => 1,
            Target::U16 => 2,
            Target::U32 => 4,
            Target::U64 => 8,
            Target::U128 => 16,
        }
    }

    /// Returns whether the value is in the range of the type. `Unit` has only the value 0.
    pub fn holds(self, value: u128) -> bool
        ensures { result ≡ nat_lt value (256 ^ target_bytes self) }
    {
        match self {
            Target::Unit => value == 0,
            Target::U8 => value <= u128::from(u8::MAX),
            Target::U16 => value <= u128::from(u16::MAX),
            Target::U32 => value <= u128::from(u32::MAX),
            Target::U64 => value <= u128::from(u64::MAX),
            Target::U128 => true,
        }
    }
}

/// Returns the number that at most sixteen bytes encode, in little-endian order.
fn number_of(spelled: &[u8]) -> u128
    requires { length spelled.now ≤ 16 }
    ensures { result ≡ number spelled.now }
{
    let mut padded = [0; 16];
    padded[..spelled.len()].copy_from_slice(spelled);
    u128::from_le_bytes(padded)
}

/// Returns the number in the `count` bytes after the first one.
///
/// # Errors
///
/// `Truncated` at the length of `bytes` if fewer than `count` bytes follow the first one.
fn number_after_first(bytes: &[u8], count: usize) -> Result<u128, Fault>
    requires { count ≤ 16 }
    ensures { MatchResult result
        (λ n. (count < length bytes.now) × (n ≡ number (take count (drop 1 bytes.now))))
        (λ f. (length bytes.now ≤ count) × (f ≡ truncated_fault bytes.now)) }
{
    match bytes.get(1..=count) {
        Some(spelled) => Ok(number_of(spelled)),
        None => Err(Fault {
            reason: Reason::Truncated,
            at: bytes.len() as u64,
        }),
    }
}

/// Returns the number of a complete mode, with its length.
///
/// # Errors
///
/// The first that applies:
///
/// - `CompactNotShortest` at 0 if a shorter mode has the number.
/// - `CompactTooLarge` at 0 if the number is above the range of the target.
#[inline(always)]
fn judge(
    target: Target,
    number: u128,
    len: usize,
    is_shortest: bool,
) -> Result<(u128, usize), Fault>
    requires shortest { is_shortest ≡ (len == length (compact number)) }
    ensures exact { result ≡ judged_compact target number len }
    ensures fits { IfOk result (λ x. x.0 < 256 ^ target_bytes target) }
    ensures len { IfOk result (λ x. x.1 ≡ len) }
    ensures reasons { IfErr result
        (λ f. (f.reason ≡ Reason.CompactNotShortest) ⊎ (f.reason ≡ Reason.CompactTooLarge)) }
{
    if !is_shortest {
        return Err(Fault {
            reason: Reason::CompactNotShortest,
            at: 0,
        });
    }
    if !target.holds(number) {
        return Err(Fault {
            reason: Reason::CompactTooLarge,
            at: 0,
        });
    }
    Ok((number, len))
}

/// Reads the fourth mode. The upper six bits of its first byte are the number of bytes after it,
/// less four.
///
/// # Errors
///
/// Those of [`read_compact`].
fn read_long(bytes: &[u8], first: u8, target: Target) -> Result<(u128, usize), Fault>
    requires front { bytes.now ≡ first ∷ drop 1 bytes.now }
    requires long { first % 4 ≡ 3 }
    ensures reads { Answers (λ x. x) bytes.now result (integer_at target bytes.now) }
    ensures fits { IfOk result (λ x. x.0 < 256 ^ target_bytes target) }
    ensures reasons { IfErr result (λ f. (f.reason ≢ Reason.BadBool) × (f.reason ≢ Reason.BadChar)
        × (f.reason ≢ Reason.BadUtf8) × (f.reason ≢ Reason.UnusedBits)) }
    ensures len { IfOk result (λ x. x.1 ≤ 17) }
{
    let count = usize::from(first / 4) + 4;
    if target.bytes() < count {
        return Err(Fault {
            reason: Reason::CompactTooLarge,
            at: 0,
        });
    }
    let number = number_after_first(bytes, count)?;
    judge(target, number, count + 1, compact_len(number) == count + 1)
}

/// Reads a compact integer from the start of `bytes`, and returns its value with its length, 1 to
/// 17 bytes (SCALE codec specification, "Compact/general integers").
///
/// Only the one encoding of each value is accepted. If the target is `Unit`, it returns 0 with the
/// length 0, and reads nothing.
///
/// # Errors
///
/// The first that applies:
///
/// - `Truncated` at 0 if `bytes` is empty.
/// - `CompactTooLarge` at 0 if the first byte claims more bytes than the target has, whatever
///   follows.
/// - `Truncated` at the length of `bytes` if it has fewer than the first byte claims.
/// - `CompactNotShortest` at 0 if the mode is longer than the value needs.
/// - `CompactTooLarge` at 0 if the value is above the range of the target.
///
/// # Examples
///
/// 300 in the mode of two bytes, and a byte after it:
///
/// ```
/// let (value, taken) = read_compact(b"\xb1\x04\xff", Target::U32)?;
/// assert_eq!(rt; (value, taken), (300, 2));
/// ```
pub fn read_compact(bytes: &[u8], target: Target) -> Result<(u128, usize), Fault>
    ensures reads { Answers (λ x. x) bytes.now result (compact_at target bytes.now) }
    ensures fits { IfOk result (λ x. x.0 < 256 ^ target_bytes target) }
    ensures reasons { IfErr result (λ f. (f.reason ≢ Reason.BadBool) × (f.reason ≢ Reason.BadChar)
        × (f.reason ≢ Reason.BadUtf8) × (f.reason ≢ Reason.UnusedBits)) }
    ensures len { IfOk result (λ x. x.1 ≤ 17) }
{
    if target == Target::Unit {
        return Ok((0, 0));
    }
    let [first] = front::<1>(bytes)?;
    // The two low bits name the mode: one, two or four bytes whose upper bits are the number, or a
    // count of bytes.
    match first % 4 {
        // One byte is the shortest mode of its number, which fits every target.
        0 => Ok((u128::from(first / 4), 1)),
        1 => {
            let number = u16::from_le_bytes(front(bytes)?) / 4;
            judge(target, u128::from(number), 2, 0x40 <= number)
        }
        2 => {
            let number = u32::from_le_bytes(front(bytes)?) / 4;
            judge(target, u128::from(number), 4, 0x4000 <= number)
        }
        _ => read_long(bytes, first, target),
    }
}

/// Returns the number of bytes after the first one in the fourth mode, for a value that needs that
/// mode.
fn big_bytes(value: u128) -> usize
    requires { 2 ^ 30 ≤ value }
    ensures exact { result ≡ big_bytes value }
    ensures least { 4 ≤ result }
    ensures most { result ≤ 16 }
{
    value.ilog2() as usize / 8 + 1
}

/// Returns the length in bytes of the compact integer of this value.
///
/// It is 1, 2 or 4 for a value below 2^6, 2^14 or 2^30. For any other value it is one more than the
/// value itself needs, at most 17.
pub fn compact_len(value: u128) -> usize
    ensures exact { result ≡ length (compact value) }
    ensures bound { result ≤ 17 }
{
    match value {
        0..0x40 => 1,
        0x40..0x4000 => 2,
        0x4000..0x4000_0000 => 4,
        _ => big_bytes(value) + 1,
    }
}

/// Writes the fourth mode of a value that needs it to the start of the array, and returns its
/// length in bytes.
fn put_big(value: u128, out: &mut [u8; 17]) -> usize
    requires { 2 ^ 30 ≤ value }
    ensures len { result ≡ length (compact value) }
    ensures bound { result ≤ 17 }
    ensures bytes { out.new ≡ compact value ++ drop result out.old }
{
    let count = big_bytes(value);
    out[0] = (count as u8 - 4) * 4 + 3;
    out[1..=count].copy_from_slice(&value.to_le_bytes()[..count]);
    count + 1
}

/// Writes the compact integer of this value to the start of the array, and returns its length, 1 to
/// 17 bytes. The rest of the array is unchanged.
pub fn put_compact(value: u128, out: &mut [u8; 17]) -> usize
    ensures len { result ≡ length (compact value) }
    ensures bound { result ≤ 17 }
    ensures bytes { out.new ≡ compact value ++ drop result out.old }
{
    match value {
        0..0x40 => {
            out[0] = value as u8 * 4;
            1
        }
        0x40..0x4000 => {
            out[..2].copy_from_slice(&(value as u16 * 4 + 1).to_le_bytes());
            2
        }
        0x4000..0x4000_0000 => {
            out[..4].copy_from_slice(&(value as u32 * 4 + 2).to_le_bytes());
            4
        }
        _ => put_big(value, out),
    }
}

/// Appends the compact integer of this value, 1 to 17 bytes.
///
/// # Errors
///
/// `Refused` if the allocation fails; the elements of `out` are unchanged.
pub fn write_compact(out: &mut Vec<u8>, value: u128) -> Result<(), Refused>
    ensures ok { OnOk result (out.new.items ≡ out.old.items ++ compact value) }
    ensures err { OnErr result (out.new.items ≡ out.old.items) }
{
    let mut spelled = [0; 17];
    let len = put_compact(value, &mut spelled);
    extend_from_slice(out, &spelled[..len])
}
