//! Finds a complete compact integer at the start of a piece.

ghost use Rattle.std.specs.Prelude.{◌≤◌, IfNone, IfSome, IsErr};
ghost use Rattle.scale_core.specs.Compact.{target_bytes};
ghost use Rattle.scale_core.specs.Read.{compact_at};
ghost use Rattle.form_core.specs.WholeCompacts.{IsCompactAtFront};

use scale_core::{Target, read_compact, read_u32, read_u64};

/// Returns the number and the length of a compact integer of one, two or four bytes, from a word of
/// four. It is `None` if the word is of the long mode, a shorter form has the number, or fewer than
/// four bytes are there.
// No jump depends on the two bits of the mode, which would be hard to predict.
#[inline(always)]
fn short_mode(piece: &[u8]) -> Option<(u32, usize)>
    ensures { IfSome result (λ x. (m : Target) → 4 ≤ target_bytes m →
        IsCompactAtFront m piece.now x.0 x.1) }
{
    let Ok((word, _)) = read_u32(piece) else {
        return None;
    };
    let mark = word % 4;
    if mark == 3 {
        return None;
    }
    let len = 1 << mark;
    let number = (word & (u32::MAX >> (32 - 8 * len))) / 4;
    if number < (1 << (8 * mark)) / 4 {
        return None;
    }
    Some((number, len))
}

/// Returns the number and the length of a compact integer of the long mode, from the eight bytes
/// after its first one. It is `None` for another mode, for more bytes than these or than the target
/// has, if a shorter form has the number, and if fewer than eight bytes are there.
#[inline(always)]
fn long_mode(target: Target, piece: &[u8]) -> Option<(u64, usize)>
    ensures { IfSome result (λ x. IsCompactAtFront target piece.now x.0 x.1) }
{
    let Some((first, rest)) = piece.split_first() else {
        return None;
    };
    let Ok((word, _)) = read_u64(rest) else {
        return None;
    };
    let count = usize::from(first / 4) + 4;
    if first % 4 != 3 || count > 8 || target.bytes() < count {
        return None;
    }
    let number = word & (u64::MAX >> (64 - 8 * count));
    if number < 0x4000_0000 || number >> (8 * count - 8) == 0 {
        return None;
    }
    Some((number, count + 1))
}

/// Returns the number and the length of any compact integer: also one at the end of a piece, a
/// longer one, or one for a target of one or two bytes.
#[inline(never)]
fn any_form(target: Target, piece: &[u8]) -> Option<(u128, usize)>
    ensures some { IfSome result (λ x. IsCompactAtFront target piece.now x.0 x.1) }
    ensures none { IfNone result (IsErr (compact_at target piece.now)) }
{
    let Ok(found) = read_compact(piece, target) else {
        return None;
    };
    Some(found)
}

/// Returns the compact integer that begins the piece and how many bytes it has, 1 to 17 (SCALE
/// codec, "Compact/General Integers"). It is `None` if bytes of it are missing, the target lacks
/// the number, or a shorter form has it. For the target `Unit` it is 0, of no bytes. It allocates
/// nothing.
#[inline(always)]
pub fn whole_compact(target: Target, piece: &[u8]) -> Option<(u128, usize)>
    ensures some { IfSome result (λ x. IsCompactAtFront target piece.now x.0 x.1) }
    ensures none { IfNone result (IsErr (compact_at target piece.now)) }
{
    if target.bytes() >= 4
        && let Some((number, len)) = short_mode(piece)
    {
        return Some((u128::from(number), len));
    }
    if let Some((number, len)) = long_mode(target, piece) {
        return Some((u128::from(number), len));
    }
    any_form(target, piece)
}
