//! Wrappers of the calls with which tests decode and show values. The contracts of these calls stay
//! here, so that no test's proof has to read them.

use decode_core::{DecodeFault, Decoder, OpenFault, Progress, StreamFault, decode_all};
use json_core::{json_text, print, to_json};
use registry_core::TypeId;
use scale_core::{Sink, Source};
use std::alloc::{AllocError, Allocator, Global};
use std::io::Read;
use value_core::{Limits, Value};
use widths_core::Checked;

/// The counts that a decoder reports.
#[derive(Clone, Copy, Debug, PartialEq, Eq)]
pub struct Holding {
    pub nodes: u64,
    /// Bytes of texts and runs.
    pub texts: u64,
    /// Bytes that were taken.
    pub taken: u64,
}

/// Creates a decoder of the type, within these limits. Returns `None` for an error of
/// [`Decoder::new`].
pub fn open<'r, A: Allocator + Clone>(
    memory: A,
    checked: &'r Checked,
    ty: u32,
    limits: Limits,
) -> Option<Decoder<'r, A>> {
    Decoder::new(memory, checked, TypeId(ty), limits).ok()
}

/// Feeds the piece, and returns the progress of the value.
///
/// # Errors
///
/// Those of [`Decoder::feed`].
pub fn feed<A: Allocator>(
    decoder: &mut Decoder<'_, A>,
    piece: &[u8],
) -> Result<Progress, DecodeFault> {
    decoder.feed(piece)
}

/// Finishes the decoder, and returns the value.
///
/// # Errors
///
/// Those of [`Decoder::finish`].
pub fn finish<'r, A: Allocator>(decoder: Decoder<'r, A>) -> Result<Value<'r, A>, DecodeFault> {
    decoder.finish()
}

/// Returns the counts that the decoder reports.
pub fn held<A: Allocator>(decoder: &Decoder<'_, A>) -> Holding {
    Holding {
        nodes: decoder.node_count(),
        texts: decoder.text_bytes(),
        taken: decoder.taken(),
    }
}

/// Returns the error of [`Decoder::new`], or `None` if the decoder is created.
pub fn opening_fault<A: Allocator + Clone>(
    memory: A,
    checked: &Checked,
    ty: u32,
    limits: Limits,
) -> Option<OpenFault> {
    Decoder::new(memory, checked, TypeId(ty), limits).err()
}

/// Decodes all bytes of the source as one value of the type.
///
/// # Errors
///
/// Those of `decode_all`.
pub fn all_of<'r, A: Allocator + Clone, R: Read>(
    memory: A,
    checked: &'r Checked,
    ty: u32,
    limits: Limits,
    source: &mut Source<R>,
) -> Result<Value<'r, A>, StreamFault> {
    decode_all(memory, checked, TypeId(ty), limits, source)
}

/// Decodes the value of the type that the pieces begin with. Returns it and its number of bytes.
///
/// # Errors
///
/// Those of [`Decoder`].
pub fn front_of<'r, A: Allocator + Clone>(
    memory: A,
    checked: &'r Checked,
    ty: u32,
    limits: Limits,
    pieces: &[&[u8]],
) -> Result<(Value<'r, A>, u64), StreamFault> {
    let mut decoder = Decoder::new(memory, checked, TypeId(ty), limits)?;
    'pieces: for piece in pieces {
        if let Progress::Done { .. } = decoder.feed(piece)? {
            break 'pieces;
        }
    }
    let taken = decoder.taken();
    Ok((decoder.finish()?, taken))
}

/// Returns the JSON of a value.
///
/// # Errors
///
/// `AllocError` if an allocation fails.
pub fn shown<A: Allocator>(alloc: Global, value: &Value<'_, A>) -> Result<String, AllocError> {
    Ok(json_text(alloc, alloc, value)?)
}

/// Returns the JSON of a value, formatted from its tree.
///
/// # Errors
///
/// `AllocError` if an allocation fails.
pub fn shown_tree<A: Allocator>(alloc: Global, value: &Value<'_, A>) -> Result<String, AllocError> {
    let tree = to_json(alloc, value)?;
    tree.to_string(alloc)
}

/// Returns the JSON of a value, as it is printed, or `None` if it is not printed.
pub fn printed<A: Allocator>(alloc: Global, value: &Value<'_, A>) -> Option<Vec<u8>> {
    let mut sink = Sink::new(Vec::new(alloc));
    match print(alloc, value, &mut sink) {
        Ok(()) if !sink.failed() => Some(sink.into_inner()),
        _ => None,
    }
}
