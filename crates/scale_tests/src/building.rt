//! The calls of a builder as data, and what a builder reports.

use registry_core::{TypeId, read_registry};
use scale_core::Sink;
use std::alloc::{Allocator, Global};
use value_core::{BuildFault, Builder, Next, Value, encode};
use widths_core::Checked;

/// A call that adds a node, or a part of a text or of a run of bytes.
#[derive(Clone, Copy, Debug)]
pub enum Call<'a> {
    Empty,
    Bool(bool),
    Char(char),
    Text(&'a str),
    TextStart(u32),
    TextPiece(&'a [u8]),
    TextEnd,
    Bytes(&'a [u8]),
    BytesStart(u32),
    BytesPiece(&'a [u8]),
    BytesEnd,
    Bits(u32, &'a [u8]),
    Unsigned(u128),
    Signed(i128),
    Wide([u8; 32]),
    Compact(u128),
    Count(u32),
    Fields,
    Arm(u8),
    List(u32),
}

/// The counts of a builder, what comes next in it, and at which depth.
#[derive(Clone, Copy, Debug, PartialEq, Eq)]
pub struct Standing {
    pub nodes: u64,
    pub texts: u64,
    pub next: Next,
    pub depth: u16,
}

/// Returns the checked registry of these bytes, or `None` if they hold no registry or a type refers
/// to one that doesn't exist.
pub fn checked(alloc: Global, bytes: &[u8]) -> Option<Checked> {
    let (registry, _) = read_registry(alloc, bytes).ok()?;
    Checked::new(alloc, registry).ok()
}

/// Returns the checked registry of these bytes, as [`checked`] does, with bits allowed.
pub fn checked_with_bits(alloc: Global, bytes: &[u8]) -> Option<Checked> {
    let (registry, _) = read_registry(alloc, bytes).ok()?;
    Checked::new(alloc, registry.with_bits()).ok()
}

/// Makes the call.
///
/// # Errors
///
/// The error with which the builder rejects the call.
pub fn add<A: Allocator>(builder: &mut Builder<'_, A>, call: Call<'_>) -> Result<(), BuildFault> {
    match call {
        Call::Empty => builder.empty(),
        Call::Bool(value) => builder.bool(value),
        Call::Char(value) => builder.char(value),
        Call::Text(text) => builder.text(text),
        Call::TextStart(len) => builder.text_start(len),
        Call::TextPiece(piece) => builder.text_piece(piece),
        Call::TextEnd => builder.text_end(),
        Call::Bytes(bytes) => builder.bytes(bytes),
        Call::BytesStart(len) => builder.bytes_start(len),
        Call::BytesPiece(piece) => builder.bytes_piece(piece),
        Call::BytesEnd => builder.bytes_end(),
        Call::Bits(count, bytes) => builder.bits(count, bytes),
        Call::Unsigned(value) => builder.unsigned(value),
        Call::Signed(value) => builder.signed(value),
        Call::Wide(value) => builder.wide(value),
        Call::Compact(value) => builder.compact(value),
        Call::Count(count) => builder.count(count),
        Call::Fields => builder.fields(),
        Call::Arm(index) => builder.arm(index),
        Call::List(count) => builder.list(count),
    }
}

/// Returns the counts of the builder, what comes next in it, and at which depth.
pub fn what_stands<A: Allocator>(builder: &Builder<'_, A>) -> Standing {
    Standing {
        nodes: builder.node_count(),
        texts: builder.text_bytes(),
        next: builder.walk().next(),
        depth: builder.walk().depth(),
    }
}

/// Returns the bytes of a value, as they are written, or `None` if a write fails.
pub fn written<A: Allocator>(alloc: Global, value: &Value<'_, A>) -> Option<Vec<u8>> {
    let mut sink = Sink::new(Vec::new(alloc));
    match encode(value, &mut sink) {
        Ok(()) if !sink.failed() => Some(sink.into_inner()),
        _ => None,
    }
}

/// Returns whether the value is written as these bytes.
pub fn is_written<A: Allocator>(alloc: Global, value: &Value<'_, A>, bytes: &[u8]) -> bool {
    match written(alloc, value) {
        Some(written) => written.as_slice() == bytes,
        None => false,
    }
}
