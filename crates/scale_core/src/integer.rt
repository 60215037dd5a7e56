//! Fixed-width integers: little-endian, and in two's complement if signed (SCALE codec
//! specification, "Fixed-width integers").

ghost use Rattle.std.specs.Prelude.{◌≡◌, ◌<◌, ◌≤◌, ◌++◌, length, take, MatchResult, OnOk, OnErr};
ghost use Rattle.scale_core.specs.Answers.{Answers, truncated_fault};
ghost use Rattle.scale_core.specs.Number.{le_bytes, signed_bytes};
ghost use Rattle.scale_core.specs.Read.{bytes_at, number_at, signed_at};

use crate::fault::{Fault, Reason};
use growth_core::{Refused, extend_from_slice};

/// Returns the first `N` bytes.
///
/// # Errors
///
/// `Truncated` at the length of `bytes` if it has fewer.
pub(crate) fn front<const N: usize>(bytes: &[u8]) -> Result<[u8; N], Fault>
    ensures { MatchResult result
        (λ a. (N ≤ length bytes.now) × (a ≡ take N bytes.now))
        (λ f. (length bytes.now < N) × (f ≡ truncated_fault bytes.now)) }
{
    match bytes.first_chunk::<N>() {
        Some(chunk) => Ok(*chunk),
        None => Err(Fault {
            reason: Reason::Truncated,
            at: bytes.len() as u64,
        }),
    }
}

/// Reads a u8 from the start of `bytes`, and returns it with its length, 1.
///
/// # Errors
///
/// `Truncated` at 0 if `bytes` is empty.
pub fn read_u8(bytes: &[u8]) -> Result<(u8, usize), Fault>
    ensures { Answers (λ x. x) bytes.now result (number_at 1 bytes.now) }
{
    let spelled = front(bytes)?;
    Ok((u8::from_le_bytes(spelled), 1))
}

/// Reads a u16 from the start of `bytes`, and returns it with its length, 2.
///
/// # Errors
///
/// `Truncated` at the length of `bytes` if it has fewer than two.
pub fn read_u16(bytes: &[u8]) -> Result<(u16, usize), Fault>
    ensures { Answers (λ x. x) bytes.now result (number_at 2 bytes.now) }
{
    let spelled = front(bytes)?;
    Ok((u16::from_le_bytes(spelled), 2))
}

/// Reads a u32 from the start of `bytes`, and returns it with its length, 4.
///
/// # Errors
///
/// `Truncated` at the length of `bytes` if it has fewer than four.
pub fn read_u32(bytes: &[u8]) -> Result<(u32, usize), Fault>
    ensures { Answers (λ x. x) bytes.now result (number_at 4 bytes.now) }
{
    let spelled = front(bytes)?;
    Ok((u32::from_le_bytes(spelled), 4))
}

/// Reads a u64 from the start of `bytes`, and returns it with its length, 8.
///
/// # Errors
///
/// `Truncated` at the length of `bytes` if it has fewer than eight.
pub fn read_u64(bytes: &[u8]) -> Result<(u64, usize), Fault>
    ensures { Answers (λ x. x) bytes.now result (number_at 8 bytes.now) }
{
    let spelled = front(bytes)?;
    Ok((u64::from_le_bytes(spelled), 8))
}

/// Reads a u128 from the start of `bytes`, and returns it with its length, 16.
///
/// # Errors
///
/// `Truncated` at the length of `bytes` if it has fewer than sixteen.
pub fn read_u128(bytes: &[u8]) -> Result<(u128, usize), Fault>
    ensures { Answers (λ x. x) bytes.now result (number_at 16 bytes.now) }
{
    let spelled = front(bytes)?;
    Ok((u128::from_le_bytes(spelled), 16))
}

/// Reads an i8 from the start of `bytes`, and returns it with its length, 1.
///
/// # Errors
///
/// `Truncated` at 0 if `bytes` is empty.
pub fn read_i8(bytes: &[u8]) -> Result<(i8, usize), Fault>
    ensures { Answers (λ x. x) bytes.now result (signed_at 1 bytes.now) }
{
    let (number, len) = read_u8(bytes)?;
    Ok((number.cast_signed(), len))
}

/// Reads an i16 from the start of `bytes`, and returns it with its length, 2.
///
/// # Errors
///
/// `Truncated` at the length of `bytes` if it has fewer than two.
pub fn read_i16(bytes: &[u8]) -> Result<(i16, usize), Fault>
    ensures { Answers (λ x. x) bytes.now result (signed_at 2 bytes.now) }
{
    let (number, len) = read_u16(bytes)?;
    Ok((number.cast_signed(), len))
}

/// Reads an i32 from the start of `bytes`, and returns it with its length, 4.
///
/// # Errors
///
/// `Truncated` at the length of `bytes` if it has fewer than four.
pub fn read_i32(bytes: &[u8]) -> Result<(i32, usize), Fault>
    ensures { Answers (λ x. x) bytes.now result (signed_at 4 bytes.now) }
{
    let (number, len) = read_u32(bytes)?;
    Ok((number.cast_signed(), len))
}

/// Reads an i64 from the start of `bytes`, and returns it with its length, 8.
///
/// # Errors
///
/// `Truncated` at the length of `bytes` if it has fewer than eight.
pub fn read_i64(bytes: &[u8]) -> Result<(i64, usize), Fault>
    ensures { Answers (λ x. x) bytes.now result (signed_at 8 bytes.now) }
{
    let (number, len) = read_u64(bytes)?;
    Ok((number.cast_signed(), len))
}

/// Reads an i128 from the start of `bytes`, and returns it with its length, 16.
///
/// # Errors
///
/// `Truncated` at the length of `bytes` if it has fewer than sixteen.
pub fn read_i128(bytes: &[u8]) -> Result<(i128, usize), Fault>
    ensures { Answers (λ x. x) bytes.now result (signed_at 16 bytes.now) }
{
    let (number, len) = read_u128(bytes)?;
    Ok((number.cast_signed(), len))
}

/// Reads a u256 or an i256 from the start of `bytes`, and returns its 32 bytes unchanged with their
/// length, 32.
///
/// # Errors
///
/// `Truncated` at the length of `bytes` if it has fewer than 32.
pub fn read_wide(bytes: &[u8]) -> Result<([u8; 32], usize), Fault>
    ensures { Answers (λ x. x) bytes.now result (bytes_at 32 bytes.now) }
{
    let spelled = front(bytes)?;
    Ok((spelled, 32))
}

/// Appends the byte of a u8.
///
/// # Errors
///
/// `Refused` if the allocation fails; the elements of `out` are unchanged.
pub fn write_u8(out: &mut Vec<u8>, value: u8) -> Result<(), Refused>
    ensures ok { OnOk result (out.new.items ≡ out.old.items ++ le_bytes 1 value) }
    ensures err { OnErr result (out.new.items ≡ out.old.items) }
{
    extend_from_slice(out, &u8::to_le_bytes(value))
}

/// Appends the two bytes of a u16.
///
/// # Errors
///
/// `Refused` if the allocation fails; the elements of `out` are unchanged.
pub fn write_u16(out: &mut Vec<u8>, value: u16) -> Result<(), Refused>
    ensures ok { OnOk result (out.new.items ≡ out.old.items ++ le_bytes 2 value) }
    ensures err { OnErr result (out.new.items ≡ out.old.items) }
{
    extend_from_slice(out, &u16::to_le_bytes(value))
}

/// Appends the four bytes of a u32.
///
/// # Errors
///
/// `Refused` if the allocation fails; the elements of `out` are unchanged.
pub fn write_u32(out: &mut Vec<u8>, value: u32) -> Result<(), Refused>
    ensures ok { OnOk result (out.new.items ≡ out.old.items ++ le_bytes 4 value) }
    ensures err { OnErr result (out.new.items ≡ out.old.items) }
{
    extend_from_slice(out, &u32::to_le_bytes(value))
}

/// Appends the eight bytes of a u64.
///
/// # Errors
///
/// `Refused` if the allocation fails; the elements of `out` are unchanged.
pub fn write_u64(out: &mut Vec<u8>, value: u64) -> Result<(), Refused>
    ensures ok { OnOk result (out.new.items ≡ out.old.items ++ le_bytes 8 value) }
    ensures err { OnErr result (out.new.items ≡ out.old.items) }
{
    extend_from_slice(out, &u64::to_le_bytes(value))
}

/// Appends the sixteen bytes of a u128.
///
/// # Errors
///
/// `Refused` if the allocation fails; the elements of `out` are unchanged.
pub fn write_u128(out: &mut Vec<u8>, value: u128) -> Result<(), Refused>
    ensures ok { OnOk result (out.new.items ≡ out.old.items ++ le_bytes 16 value) }
    ensures err { OnErr result (out.new.items ≡ out.old.items) }
{
    extend_from_slice(out, &u128::to_le_bytes(value))
}

/// Appends the byte of an i8.
///
/// # Errors
///
/// `Refused` if the allocation fails; the elements of `out` are unchanged.
pub fn write_i8(out: &mut Vec<u8>, value: i8) -> Result<(), Refused>
    ensures ok { OnOk result (out.new.items ≡ out.old.items ++ signed_bytes 1 value) }
    ensures err { OnErr result (out.new.items ≡ out.old.items) }
{
    write_u8(out, value.cast_unsigned())
}

/// Appends the two bytes of an i16.
///
/// # Errors
///
/// `Refused` if the allocation fails; the elements of `out` are unchanged.
pub fn write_i16(out: &mut Vec<u8>, value: i16) -> Result<(), Refused>
    ensures ok { OnOk result (out.new.items ≡ out.old.items ++ signed_bytes 2 value) }
    ensures err { OnErr result (out.new.items ≡ out.old.items) }
{
    write_u16(out, value.cast_unsigned())
}

/// Appends the four bytes of an i32.
///
/// # Errors
///
/// `Refused` if the allocation fails; the elements of `out` are unchanged.
pub fn write_i32(out: &mut Vec<u8>, value: i32) -> Result<(), Refused>
    ensures ok { OnOk result (out.new.items ≡ out.old.items ++ signed_bytes 4 value) }
    ensures err { OnErr result (out.new.items ≡ out.old.items) }
{
    write_u32(out, value.cast_unsigned())
}

/// Appends the eight bytes of an i64.
///
/// # Errors
///
/// `Refused` if the allocation fails; the elements of `out` are unchanged.
pub fn write_i64(out: &mut Vec<u8>, value: i64) -> Result<(), Refused>
    ensures ok { OnOk result (out.new.items ≡ out.old.items ++ signed_bytes 8 value) }
    ensures err { OnErr result (out.new.items ≡ out.old.items) }
{
    write_u64(out, value.cast_unsigned())
}

/// Appends the sixteen bytes of an i128.
///
/// # Errors
///
/// `Refused` if the allocation fails; the elements of `out` are unchanged.
pub fn write_i128(out: &mut Vec<u8>, value: i128) -> Result<(), Refused>
    ensures ok { OnOk result (out.new.items ≡ out.old.items ++ signed_bytes 16 value) }
    ensures err { OnErr result (out.new.items ≡ out.old.items) }
{
    write_u128(out, value.cast_unsigned())
}

/// Appends the 32 bytes of a u256 or an i256.
///
/// # Errors
///
/// `Refused` if the allocation fails; the elements of `out` are unchanged.
pub fn write_wide(out: &mut Vec<u8>, value: &[u8; 32]) -> Result<(), Refused>
    ensures ok { OnOk result (out.new.items ≡ out.old.items ++ value.now) }
    ensures err { OnErr result (out.new.items ≡ out.old.items) }
{
    extend_from_slice(out, value)
}
