//! Writes bytes in hexadecimal digits, 0 to 9 and a to f, the higher half of each byte first, and
//! bits in binary digits.

ghost use Rattle.std.specs.Prelude.{◌≡◌, ◌+◌, ◌*◌, ◌/◌, ◌%◌, ◌≤◌, length, map, slice_index};
ghost use Rattle.hex.specs.Hex.{encode_lower, lower_digits};
ghost use Rattle.token_core.specs.Digits.{bit_digit, bit_digits};
ghost use Rattle.token_core.specs.Places.{OnlyPlaced};

use crate::places::place_bytes;
use std::simd::prelude::*;
use types_core::BitForm;

/// How many bytes are turned into digits, or escaped, at once.
pub(crate) const BLOCK: usize = 16;

/// The sixteen digits, by their value.
const DIGITS: [u8; BLOCK] = *b"0123456789abcdef";

/// Returns the digit of each byte's higher half.
#[inline(always)]
fn first_digits(bytes: u8x16) -> u8x16
    ensures { result ≡ map (λ x. slice_index lower_digits (x / 16)) bytes }
{
    u8x16::from_array(DIGITS).swizzle_dyn(bytes >> u8x16::splat(4))
}

/// Returns the digit of each byte's lower half.
#[inline(always)]
fn second_digits(bytes: u8x16) -> u8x16
    ensures { result ≡ map (λ x. slice_index lower_digits (x % 16)) bytes }
{
    u8x16::from_array(DIGITS).swizzle_dyn(bytes & u8x16::splat(0x0f))
}

/// Writes 16 bytes. Like each function below, it returns the position after what it wrote, and
/// leaves the rest of the buffer unchanged.
#[inline(always)]
fn place_lanes(buffer: &mut [u8], at: usize, lanes: u8x16) -> usize
    requires { at + BLOCK ≤ length buffer.old }
    ensures { OnlyPlaced buffer.old buffer.new at lanes result }
{
    lanes.copy_to_slice(&mut buffer[at..]);
    at + BLOCK
}

/// Writes two digits for each of 16 bytes, which are turned at once.
#[inline(always)]
fn place_block(buffer: &mut [u8], at: usize, bytes: &[u8]) -> usize
    requires block { length bytes.now ≡ BLOCK }
    requires room { at + 2 * BLOCK ≤ length buffer.old }
    ensures { OnlyPlaced buffer.old buffer.new at (encode_lower bytes.now) result }
{
    let bytes = u8x16::from_slice(bytes);
    let (first, second) = (first_digits(bytes), second_digits(bytes));
    let front = first.shuffle(
        second,
        [0, 16, 1, 17, 2, 18, 3, 19, 4, 20, 5, 21, 6, 22, 7, 23],
    );
    let back = first.shuffle(
        second,
        [8, 24, 9, 25, 10, 26, 11, 27, 12, 28, 13, 29, 14, 30, 15, 31],
    );
    let at = place_lanes(buffer, at, front);
    place_lanes(buffer, at, back)
}

/// Writes two digits for each byte, one byte at a time.
#[inline(always)]
fn place_each(buffer: &mut [u8], at: usize, bytes: &[u8]) -> usize
    requires { at + 2 * length bytes.now ≤ length buffer.old }
    ensures { OnlyPlaced buffer.old buffer.new at (encode_lower bytes.now) result }
{
    let end = at + 2 * bytes.len();
    hex::encode_to_slice(bytes, &mut buffer[at..end]).unwrap();
    end
}

/// Writes two digits for each byte.
#[inline(always)]
pub(crate) fn place_hex(buffer: &mut [u8], at: usize, bytes: &[u8]) -> usize
    requires { at + 2 * length bytes.now ≤ length buffer.old }
    ensures { OnlyPlaced buffer.old buffer.new at (encode_lower bytes.now) result }
{
    'turns: for block in 0..bytes.len() / BLOCK {
        let from = BLOCK * block;
        place_block(buffer, at + 2 * from, &bytes[from..from + BLOCK]);
    }
    let done = BLOCK * (bytes.len() / BLOCK);
    place_each(buffer, at + 2 * done, &bytes[done..])
}

/// Returns the digit of a bit.
#[inline(always)]
fn bit_digit(one: bool) -> u8
    ensures { result ≡ bit_digit one }
{
    b'0' + u8::from(one)
}

/// Writes the digit of each of this many bits, in order.
pub(crate) fn place_bits(
    buffer: &mut [u8],
    at: usize,
    form: BitForm,
    bytes: &[u8],
    count: u32,
) -> usize
    requires { at + count ≤ length buffer.old }
    ensures { OnlyPlaced buffer.old buffer.new at (bit_digits form bytes.now count) result }
{
    let mut end = at;
    'bits: for bit in 0..count {
        end = place_bytes(buffer, end, &[bit_digit(form.bit(bytes, bit))]);
    }
    end
}
