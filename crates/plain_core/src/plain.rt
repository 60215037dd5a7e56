//! Tests whether a text stands in JSON as it is.

ghost use Rattle.std.specs.Prelude.{◌+◌, ◌≤◌, length};
ghost use Rattle.plain_core.specs.Plain.{TellsAsIs, TellsPlain};

use std::simd::prelude::*;

/// Whether a text needs escapes between quotes (RFC 8259, "Strings").
#[derive(Clone, Copy, Debug)]
pub enum Escapes {
    /// It needs none: it stands there as it is.
    None,
    /// It needs one at least.
    Needed,
}

/// Returns whether none of 16 bytes needs an escape.
#[inline(always)]
pub fn is_plain_16(text: &[u8], at: usize) -> bool
    requires { at + 16 ≤ length text.now }
    ensures { TellsPlain result text.now at (at + 16) }
{
    let bytes = u8x16::from_slice(&text[at..]);
    let marked = bytes.simd_eq(u8x16::splat(b'"')) | bytes.simd_eq(u8x16::splat(b'\\'));
    (marked | bytes.simd_lt(u8x16::splat(0x20))).to_bitmask() == 0
}

/// Returns whether none of eight bytes needs an escape.
#[inline(always)]
fn is_plain_8(text: &[u8], at: usize) -> bool
    requires { at + 8 ≤ length text.now }
    ensures { TellsPlain result text.now at (at + 8) }
{
    let bytes = u8x8::from_slice(&text[at..]);
    let marked = bytes.simd_eq(u8x8::splat(b'"')) | bytes.simd_eq(u8x8::splat(b'\\'));
    (marked | bytes.simd_lt(u8x8::splat(0x20))).to_bitmask() == 0
}

/// Returns whether none of four bytes needs an escape.
#[inline(always)]
fn is_plain_4(text: &[u8], at: usize) -> bool
    requires { at + 4 ≤ length text.now }
    ensures { TellsPlain result text.now at (at + 4) }
{
    let bytes = u8x4::from_slice(&text[at..]);
    let marked = bytes.simd_eq(u8x4::splat(b'"')) | bytes.simd_eq(u8x4::splat(b'\\'));
    (marked | bytes.simd_lt(u8x4::splat(0x20))).to_bitmask() == 0
}

/// Returns whether no byte needs an escape, one byte at a time.
#[inline(always)]
fn is_plain_bytewise(text: &[u8]) -> bool
    ensures { TellsPlain result text.now 0 (length text.now) }
{
    'bytes: for &byte in text {
        if byte == b'"' || byte == b'\\' || byte < 0x20 {
            return false;
        }
    }
    true
}

/// Returns whether no byte needs an escape, 16 bytes at a time; the last 16 may overlap others.
#[inline(always)]
fn is_plain_long(text: &[u8]) -> bool
    requires { 16 ≤ length text.now }
    ensures { TellsPlain result text.now 0 (length text.now) }
{
    let mut at = 0;
    'blocks: while text.len() - at > 16 {
        if !is_plain_16(text, at) {
            return false;
        }
        at += 16;
    }
    is_plain_16(text, text.len() - 16)
}

/// Returns whether the text stands between quotes as it is, because none of its bytes needs an
/// escape (RFC 8259, "Strings"). It looks at each byte, up to the first that needs one.
#[inline(always)]
pub fn is_plain(text: &str) -> bool
    ensures { TellsAsIs result text.now }
{
    let bytes = text.as_bytes();
    if bytes.len() >= 16 {
        is_plain_long(bytes)
    } else if bytes.len() >= 8 {
        is_plain_8(bytes, 0) && is_plain_8(bytes, bytes.len() - 8)
    } else if bytes.len() >= 4 {
        is_plain_4(bytes, 0) && is_plain_4(bytes, bytes.len() - 4)
    } else {
        is_plain_bytewise(bytes)
    }
}
