//! Fixed-width integers, booleans, characters and texts: each is read and written once.

use crate::expect::same;
use scale_core::{
    Fault, Reason, read_bool, read_char, read_i8, read_i16, read_i32, read_i64, read_i128,
    read_text, read_u8, read_u16, read_u32, read_u64, read_u128, read_wide, write_bool, write_char,
    write_i8, write_i16, write_i32, write_i64, write_i128, write_text, write_u8, write_u16,
    write_u32, write_u64, write_u128, write_wide,
};
use std::alloc::AllocError;
use std::test::Fail;

/// Appends one integer of each signed and unsigned width.
fn write_integers(out: &mut Vec<u8>) -> Result<(), AllocError> {
    write_u8(out, 69)?;
    write_u16(out, 42)?;
    write_u32(out, 16777215)?;
    write_u64(out, 0x0123_4567_89ab_cdef)?;
    write_u128(out, 1 << 120)?;
    write_i8(out, -1)?;
    write_i16(out, -2)?;
    write_i32(out, -65536)?;
    write_i64(out, i64::MIN)?;
    Ok(write_i128(out, -1)?)
}

#[test]
fn integers_are_written(rt: HostRuntime) -> Result<(), Fail> {
    let mut out = Vec::new(rt.alloc());
    write_integers(&mut out)?;
    same(
        &rt,
        out.as_slice(),
        b"\x45\x2a\x00\xff\xff\xff\x00\xef\xcd\xab\x89\x67\x45\x23\x01\x00\x00\x00\x00\x00\x00\x00\x00\x00\x00\x00\x00\x00\x00\x00\x01\xff\xfe\xff\x00\x00\xff\xff\x00\x00\x00\x00\x00\x00\x00\x80\xff\xff\xff\xff\xff\xff\xff\xff\xff\xff\xff\xff\xff\xff\xff\xff".as_slice(),
    );
    Ok(())
}

#[test]
fn unsigned_integers_are_read(rt: HostRuntime) {
    same(&rt, read_u8(b"\x45\xff"), Ok((69, 1)));
    same(&rt, read_u16(b"\x2a\x00"), Ok((42, 2)));
    same(&rt, read_u32(b"\xff\xff\xff\x00"), Ok((16777215, 4)));
    let eight_bytes = b"\xef\xcd\xab\x89\x67\x45\x23\x01";
    same(&rt, read_u64(eight_bytes), Ok((0x0123_4567_89ab_cdef, 8)));
    let sixteen_bytes = b"\x00\x00\x00\x00\x00\x00\x00\x00\x00\x00\x00\x00\x00\x00\x00\x01";
    same(&rt, read_u128(sixteen_bytes), Ok((1 << 120, 16)));
}

#[test]
fn signed_integers_are_read(rt: HostRuntime) {
    same(&rt, read_i8(b"\xff"), Ok((-1, 1)));
    same(&rt, read_i16(b"\xfe\xff"), Ok((-2, 2)));
    same(&rt, read_i32(b"\x00\x00\xff\xff"), Ok((-65536, 4)));
    let eight_bytes = b"\x00\x00\x00\x00\x00\x00\x00\x80";
    same(&rt, read_i64(eight_bytes), Ok((i64::MIN, 8)));
    same(&rt, read_i128(&[0xff; 16]), Ok((-1, 16)));
}

/// An integer of 32 bytes.
const WIDE: &[u8; 32] = b"\x01 an integer of 32 bytes, here:\x80";

/// Appends what is no integer of a fixed width up to 16 bytes.
fn write_others(out: &mut Vec<u8>) -> Result<(), AllocError> {
    write_bool(out, false)?;
    write_bool(out, true)?;
    write_char(out, '\u{e9}')?;
    write_text(out, "\u{e9}\u{e9}")?;
    Ok(write_wide(out, WIDE)?)
}

#[test]
fn booleans_characters_texts_and_wide_integers_are_written(rt: HostRuntime) -> Result<(), Fail> {
    let mut out = Vec::new(rt.alloc());
    write_others(&mut out)?;
    same(
        &rt,
        out.as_slice(),
        b"\x00\x01\xe9\x00\x00\x00\x10\xc3\xa9\xc3\xa9\x01 an integer of 32 bytes, here:\x80".as_slice(),
    );
    Ok(())
}

#[test]
fn booleans_characters_texts_and_wide_integers_are_read(rt: HostRuntime) {
    same(&rt, read_bool(b"\x01\xff"), Ok((true, 1)));
    same(&rt, read_char(b"\xe9\x00\x00\x00"), Ok(('\u{e9}', 4)));
    let text = b"\x10\xc3\xa9\xc3\xa9";
    same(&rt, read_text(text), Ok(("\u{e9}\u{e9}", 5)));
    same(&rt, read_wide(WIDE), Ok((*WIDE, 32)));
}

// The other reasons are printed by the rows of `compacts.tsv`.
#[test]
fn faults_are_printed_as_their_reason_and_place(rt: HostRuntime) -> Result<(), Fail> {
    let lines = [
        (Reason::BadBool, 0, "BadBool at 0"),
        (Reason::BadChar, 0, "BadChar at 0"),
        (Reason::BadUtf8, u64::MAX, "BadUtf8 at 18446744073709551615"),
    ];
    'lines: for (reason, at, line) in lines {
        let fault = Fault { reason, at };
        let printed = format!(in rt.alloc(); "{fault}")?;
        same(&rt, printed.as_str(), line);
    }
    Ok(())
}

#[test]
fn room_for_many_texts_is_made_rarely(rt: HostRuntime) -> Result<(), Fail> {
    let mut out = Vec::new(rt.alloc());
    let mut grown: u32 = 0;
    'texts: for _ in 0..1000 {
        let room = out.capacity();
        write_text(&mut out, "text")?;
        if out.capacity() > room {
            grown = grown.saturating_add(1);
        }
    }
    same(&rt, (out.len(), grown < 20), (5000, true));
    Ok(())
}
