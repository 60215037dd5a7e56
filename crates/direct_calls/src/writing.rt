//! The calls that append one value to a vector. Each is made once, and a line reports its outcome.

use crate::calls::line_where;
use growth_core::Refused;
use scale_core::{
    write_bool, write_char, write_compact, write_i8, write_i16, write_i32, write_i64, write_i128,
    write_text, write_u8, write_u16, write_u32, write_u64, write_u128, write_wide,
};
use std::alloc::{AllocError, Global};

/// The content of the vector before the call. The vector has no spare capacity.
const FRONT: &[u8] = b"front";

/// The result of a call, and the bytes that it should write.
type Written = (Result<(), Refused>, &'static [u8]);

/// Makes the call of this name, if it writes an unsigned integer.
fn write_unsigned(out: &mut Vec<u8>, name: &str) -> Option<Written> {
    Some(match name {
        "write_u8" => (write_u8(out, 69), b"\x45"),
        "write_u16" => (write_u16(out, 258), b"\x02\x01"),
        "write_u32" => (write_u32(out, 16_777_215), b"\xff\xff\xff\x00"),
        "write_u64" => (
            write_u64(out, 0x0123_4567_89ab_cdef),
            b"\xef\xcd\xab\x89\x67\x45\x23\x01",
        ),
        "write_u128" => (
            write_u128(out, 1 << 120),
            b"\x00\x00\x00\x00\x00\x00\x00\x00\x00\x00\x00\x00\x00\x00\x00\x01",
        ),
        _ => return None,
    })
}

/// Makes the call of this name, if it writes a signed integer.
fn write_signed(out: &mut Vec<u8>, name: &str) -> Option<Written> {
    Some(match name {
        "write_i8" => (write_i8(out, -1), b"\xff"),
        "write_i16" => (write_i16(out, -2), b"\xfe\xff"),
        "write_i32" => (write_i32(out, -65_536), b"\x00\x00\xff\xff"),
        "write_i64" => (
            write_i64(out, i64::MIN),
            b"\x00\x00\x00\x00\x00\x00\x00\x80",
        ),
        "write_i128" => (write_i128(out, -1), &[0xff; 16]),
        _ => return None,
    })
}

/// Makes the call of this name, if it writes something else.
fn write_other(out: &mut Vec<u8>, name: &str) -> Option<Written> {
    Some(match name {
        "write_bool" => (write_bool(out, true), b"\x01"),
        "write_char" => (write_char(out, '\u{e9}'), b"\xe9\x00\x00\x00"),
        "write_compact" => (write_compact(out, 16_384), b"\x02\x00\x01\x00"),
        "write_text" => (write_text(out, "SCALE"), b"\x14SCALE"),
        "write_wide" => (write_wide(out, &[7; 32]), &[7; 32]),
        _ => return None,
    })
}

/// Makes the call of this name.
fn write(out: &mut Vec<u8>, name: &str) -> Option<Written> {
    if let Some(written) = write_unsigned(out, name) {
        return Some(written);
    }
    if let Some(written) = write_signed(out, name) {
        return Some(written);
    }
    write_other(out, name)
}

/// Makes the call of this name, and returns the line of its outcome, or `None` if no call has the
/// name. The line says that the bytes were appended, or that the vector is unchanged. Fails if the
/// first bytes cannot be allocated.
pub(crate) fn write_line(alloc: Global, name: &str) -> Result<Option<&'static str>, AllocError> {
    let mut out = Vec::from_slice(alloc, FRONT)?;
    let Some((answer, bytes)) = write(&mut out, name) else {
        return Ok(None);
    };
    Ok(Some(match answer {
        Ok(()) => line_where(
            out.as_slice().strip_prefix(FRONT) == Some(bytes),
            "write: the bytes stand after what was there\n",
        ),
        Err(_) => line_where(
            out.as_slice() == FRONT,
            "write: out of memory, the vector is unchanged\n",
        ),
    }))
}
