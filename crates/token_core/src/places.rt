//! Writes bytes into a buffer from a position on.

ghost use Rattle.std.specs.Prelude.{◌≡◌, ◌+◌, ◌≤◌, ◌<◌, [], ◌∷◌, ◌++◌, length, cond};
ghost use Rattle.std.specs.Fmt.{decimal};
ghost use Rattle.json.specs.Filled.{Placed};
ghost use Rattle.token_core.specs.Digits.{last_digits};
ghost use Rattle.token_core.specs.Places.{OnlyPlaced};

/// Ten to the sixteenth. The last sixteen digits of a number are the remainder by it.
const UNIT: u64 = 10_000_000_000_000_000;

/// Writes one byte. Like each function below, it returns the position after what it wrote.
#[inline(always)]
pub(crate) fn place_byte(buffer: &mut [u8], at: usize, byte: u8) -> usize
    requires { at < length buffer.old }
    ensures { Placed buffer.old buffer.new at (byte ∷ []) result }
{
    buffer[at] = byte;
    at + 1
}

/// Writes a comma if one is wanted. Otherwise the next byte overwrites it.
#[inline(always)]
pub(crate) fn place_comma(buffer: &mut [u8], at: usize, wanted: bool) -> usize
    requires { at < length buffer.old }
    ensures { Placed buffer.old buffer.new at (cond wanted (44 ∷ []) []) result }
{
    buffer[at] = b',';
    at + usize::from(wanted)
}

/// Writes these bytes. The rest of the buffer is unchanged.
#[inline(always)]
pub(crate) fn place_bytes(buffer: &mut [u8], at: usize, bytes: &[u8]) -> usize
    requires { at + length bytes.now ≤ length buffer.old }
    ensures { OnlyPlaced buffer.old buffer.new at bytes.now result }
{
    let end = at + bytes.len();
    buffer[at..end].copy_from_slice(bytes);
    end
}

/// Writes these bytes between others. The rest of the buffer is unchanged.
#[inline(always)]
pub(crate) fn place_between(
    buffer: &mut [u8],
    at: usize,
    opening: &[u8],
    bytes: &[u8],
    closing: &[u8],
) -> usize
    requires { at + length opening.now + length bytes.now + length closing.now ≤ length buffer.old }
    ensures { OnlyPlaced buffer.old buffer.new at
        (opening.now ++ (bytes.now ++ closing.now)) result }
{
    let at = place_bytes(buffer, at, opening);
    let at = place_bytes(buffer, at, bytes);
    place_bytes(buffer, at, closing)
}

/// Returns how many decimal digits the number has.
#[inline(always)]
fn digit_count(n: u64) -> usize
    ensures { result ≡ length (decimal n) }
{
    let mut left = n;
    let mut count = 0;
    'fours: while left >= 10_000 {
        left /= 10_000;
        count += 4;
    }
    if left < 100 {
        count + if left < 10 { 1 } else { 2 }
    } else {
        count + if left < 1_000 { 3 } else { 4 }
    }
}

/// Writes the number in decimal digits.
#[inline(always)]
pub(crate) fn place_decimal(buffer: &mut [u8], at: usize, n: u64) -> usize
    requires { at + 20 ≤ length buffer.old }
    ensures { Placed buffer.old buffer.new at (decimal n) result }
{
    let end = at + digit_count(n);
    itoa::write_digits(n, buffer, end);
    end
}

/// Writes a number below the unit in sixteen digits, right after others. The sum of the number and
/// the unit is written, and then the last of the others again, over the sum's first digit.
#[inline(always)]
fn place_last(buffer: &mut [u8], at: usize, low: u64) -> usize
    requires after { 1 ≤ at }
    requires room { at + 16 ≤ length buffer.old }
    requires low { low < UNIT }
    ensures { Placed buffer.old buffer.new at (last_digits UNIT low) result }
{
    let before = buffer[at - 1];
    itoa::write_digits(UNIT + low, buffer, at + 16);
    buffer[at - 1] = before;
    at + 16
}

/// Writes the number in decimal digits, sixteen at a time if it has more than 64 bits.
pub(crate) fn place_long(buffer: &mut [u8], at: usize, n: u128) -> usize
    requires { at + 39 ≤ length buffer.old }
    ensures { Placed buffer.old buffer.new at (decimal n) result }
{
    if n <= u128::from(u64::MAX) {
        return place_decimal(buffer, at, n as u64);
    }
    let end = place_long(buffer, at, n / u128::from(UNIT));
    place_last(buffer, end, (n % u128::from(UNIT)) as u64)
}
