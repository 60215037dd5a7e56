//! Writes a value's bytes to a sink.

ghost use Rattle.std.specs.Prelude.{◌≡◌, ◌≤◌, ◌<◌, ◌+◌, ◌^◌, ◌||◌, [], true, length, take, IfOk};
ghost use Rattle.std.specs.Prelude.{IfErr, OnOk, is_ok, not};
ghost use Rattle.std.specs.Io.KnownBytes.{Appends};
ghost use Rattle.scale_core.specs.Number.{le_bytes};
ghost use Rattle.scale_core.specs.Sending.{Meets};
ghost use Rattle.graph_core.specs.Types.{shape};
ghost use Rattle.grammar_core.specs.Spelled.{byte_width, width_of, index_of, index_byte};
ghost use Rattle.grammar_core.specs.Spelled.{is_sequence, length_bytes};
ghost use Rattle.node_core.specs.Shown.{IsInPool, kept_bytes};
ghost use Rattle.node_core.specs.Encoding.{node_bytes, pool_bytes, Starts, encoding, IsEncoding};

use crate::node::{Content, Node};
use crate::pool::{bit_count, long_at};
use crate::value::Value;
use scale_core::{Sink, WriteFault, WriteOnce, put_compact, send};
use std::alloc::Allocator;
use types_core::{Primitive, PrimitiveKind, TypeDef, TypeId};
use widths_core::Checked;

/// Returns the number of bytes of an integer of at most 128 bits, and 0 for another primitive type.
fn byte_width(primitive: Primitive) -> usize
    ensures { result ≡ byte_width primitive }
{
    match primitive.kind() {
        PrimitiveKind::Unsigned(width) | PrimitiveKind::Signed(width) => width.bytes(),
        _ => 0,
    }
}

/// Returns the number of bytes of an integer of the type, and 0 if it is none of at most 128 bits.
fn width_of(checked: &Checked, ty: TypeId) -> usize
    ensures exact { result ≡ width_of (shape checked.now.types ty.0) }
    ensures bound { result ≤ 16 }
{
    match checked.shape(ty) {
        Some(TypeDef::Primitive(primitive)) => byte_width(*primitive),
        _ => 0,
    }
}

/// Returns the index of a variant's arm at a position, or `None` if the type is no variant or has
/// no arm there.
pub fn index_of(checked: &Checked, ty: TypeId, position: u32) -> Option<u8>
    ensures { result ≡ index_of (shape checked.now.types ty.0) position }
{
    match checked.shape(ty) {
        Some(TypeDef::Variant(arms)) => {
            let arm = arms.as_slice().get(position as usize)?;
            Some(arm.index)
        }
        _ => None,
    }
}

/// Returns whether the type is a sequence, whose values begin with their length.
fn is_sequence(checked: &Checked, ty: TypeId) -> bool
    ensures { result ≡ is_sequence (shape checked.now.types ty.0) }
{
    matches!(checked.shape(ty), Some(TypeDef::Sequence(_)))
}

/// Writes the low bytes of an integer, as many as its type has, to the front of `out`, and returns
/// how many they are.
fn put_integer(checked: &Checked, ty: TypeId, number: u128, out: &mut [u8; 17]) -> usize
    ensures bound { result ≤ 17 }
    ensures bytes { take result out.new
        ≡ le_bytes (width_of (shape checked.now.types ty.0)) number }
    ensures range { number < 2 ^ 128 }
{
    let width = width_of(checked, ty);
    out[..width].copy_from_slice(&number.to_le_bytes()[..width]);
    width
}

/// Writes the index byte of a variant's arm to the front of `out`, if the type has an arm at the
/// position. Returns how many bytes that is.
fn put_index(checked: &Checked, ty: TypeId, position: u32, out: &mut [u8; 17]) -> usize
    ensures bound { result ≤ 17 }
    ensures bytes { take result out.new
        ≡ index_byte (index_of (shape checked.now.types ty.0) position) }
{
    match index_of(checked, ty, position) {
        Some(index) => {
            out[0] = index;
            1
        }
        None => 0,
    }
}

/// Writes the length of a sequence, and nothing for an array, to the front of `out`. Returns how
/// many bytes that is.
fn put_length(checked: &Checked, ty: TypeId, length: u32, out: &mut [u8; 17]) -> usize
    ensures bound { result ≤ 17 }
    ensures bytes { take result out.new ≡ length_bytes (shape checked.now.types ty.0) length }
{
    if is_sequence(checked, ty) {
        put_compact(u128::from(length), out)
    } else {
        0
    }
}

/// Writes the bytes of a node that do not lie in the pool to the front of `out`, and returns how
/// many they are.
fn put_node(checked: &Checked, node: &Node, pool: &[u8], out: &mut [u8; 17]) -> usize
    requires { IsInPool pool.now node.now.content }
    ensures bound { result ≤ 17 }
    ensures bytes { Starts (take result out.new) (shape checked.now.types node.now.ty.0) pool.now
        node.now.children node.now.content }
{
    match node.content {
        Content::Empty | Content::Fields { .. } | Content::Wide { .. } => 0,
        Content::Bool(x) => {
            out[0] = u8::from(x);
            1
        }
        Content::Char(x) => {
            out[..4].copy_from_slice(&u32::from(x).to_le_bytes());
            4
        }
        Content::Text { len, .. } => put_compact(u128::from(len), out),
        Content::Bytes { len, .. } => put_length(checked, node.ty, len, out),
        Content::Unsigned(x) => put_integer(checked, node.ty, u128::from(x), out),
        Content::Compact(x) => put_compact(u128::from(x), out),
        Content::Signed(x) => put_integer(checked, node.ty, i128::from(x).cast_unsigned(), out),
        Content::LongUnsigned { start } => {
            put_integer(checked, node.ty, long_at(pool, start), out)
        }
        Content::LongCompact { start } => put_compact(long_at(pool, start), out),
        Content::LongSigned { start } => put_integer(checked, node.ty, long_at(pool, start), out),
        Content::Arm { position, .. } => put_index(checked, node.ty, position, out),
        Content::List { .. } => put_length(checked, node.ty, node.children, out),
        Content::Count(count) => put_compact(u128::from(count), out),
        Content::Bits { unused, len, .. } => {
            put_compact(u128::from(bit_count(unused, len)), out)
        }
    }
}

/// Returns the bytes of a node that lie in the pool as they are written: a text, a run of bytes,
/// the words of bits or a 256-bit integer. Another node has none.
#[inline(always)]
pub fn pooled<'v>(node: &Node, pool: &'v [u8]) -> &'v [u8]
    requires { IsInPool pool.now node.now.content }
    ensures { result.now ≡ pool_bytes pool.now node.now.content }
{
    match node.content {
        Content::Text { start, len }
        | Content::Bytes { start, len }
        | Content::Bits { start, len, .. } => { &pool[start..start + len as usize] }
        Content::Wide { start } => &pool[start..start + 32],
        _ => &pool[..0],
    }
}

/// Returns how many bytes a node has without those of its children.
pub fn node_len(checked: &Checked, node: &Node, pool: &[u8]) -> usize
    requires { IsInPool pool.now node.now.content }
    ensures { result ≡ length (node_bytes checked.now.types pool.now node.now) }
{
    let mut front = [0; 17];
    put_node(checked, node, pool, &mut front) + pooled(node, pool).len()
}

/// Writes the bytes of a node without those of its children, and returns how many they are.
///
/// # Errors
///
/// If a write fails, with how many of the bytes were written before.
fn send_node<W: WriteOnce>(
    checked: &Checked,
    node: &Node,
    pool: &[u8],
    sink: &mut Sink<W>,
) -> Result<u64, WriteFault>
    requires { IsInPool pool.now node.now.content }
    ensures count { IfOk result (λ n. n ≡ length (node_bytes checked.now.types pool.now node.now)) }
    ensures bound { length (node_bytes checked.now.types pool.now node.now)
        ≤ 17 + kept_bytes node.now.content }
    ensures ok { OnOk result (Appends (W.contents sink.old.device) (W.contents sink.new.device)
        (node_bytes checked.now.types pool.now node.now)) }
    ensures part { IfErr result
        (λ f. f.written ≤ length (node_bytes checked.now.types pool.now node.now)) }
    ensures err { IfErr result
        (λ f. Appends (W.contents sink.old.device) (W.contents sink.new.device)
        (take f.written (node_bytes checked.now.types pool.now node.now))) }
    ensures met { IfErr result (λ f. Meets W.writes f.reason sink.new.device) }
    ensures failed { sink.new.failed ≡ sink.old.failed || not (is_ok result) }
    ensures none { length (node_bytes checked.now.types pool.now node.now) ≡ 0 →
        (sink.new ≡ sink.old) × (is_ok result ≡ true) }
{
    let mut front = [0; 17];
    let len = put_node(checked, node, pool, &mut front);
    send(sink, &front[..len])?;
    let back = pooled(node, pool);
    match send(sink, back) {
        Ok(()) => Ok((len + back.len()) as u64),
        Err(fault) => Err(WriteFault {
            reason: fault.reason,
            written: len as u64 + fault.written,
        }),
    }
}

/// Writes the one spelling of a value (SCALE codec specification): the bytes of each node, in their
/// order, without recursion. A value that takes no bytes makes no write.
///
/// # Errors
///
/// With the number of bytes written in all, which begin the spelling; the sink has failed for good.
///
/// - `Device` if the writer returns an error, also for an interrupted write.
/// - `WroteNothing` if the writer takes no byte of a part that is not empty.
///
/// Otherwise `failed()` is unchanged.
///
/// # Examples
///
/// ```
/// let mut sink = Sink::new(Vec::new(alloc));
/// encode(&value, &mut sink)?;
/// let bytes = sink.into_inner();
/// ```
pub fn encode<A: Allocator, W: WriteOnce>(
    value: &Value<'_, A>,
    sink: &mut Sink<W>,
) -> Result<(), WriteFault>
    // The bytes are those of the value, by the grammar.
    ensures value { IsEncoding value.now (encoding value.now) }
    // All of them went out.
    ensures ok { OnOk result (Appends (W.contents sink.old.device) (W.contents sink.new.device)
        (encoding value.now)) }
    // A front of them went out, and as many as is reported.
    ensures part { IfErr result (λ f. f.written ≤ length (encoding value.now)) }
    ensures err { IfErr result (λ f. Appends (W.contents sink.old.device)
        (W.contents sink.new.device) (take f.written (encoding value.now))) }
    // The writer did to the last write what the reason says.
    ensures met { IfErr result (λ f. Meets W.writes f.reason sink.new.device) }
    ensures failed { sink.new.failed ≡ sink.old.failed || not (is_ok result) }
    // Without bytes there is no write.
    ensures none { encoding value.now ≡ [] → (sink.new ≡ sink.old) × (is_ok result ≡ true) }
{
    let (nodes, pool) = value.parts();
    let mut written: u64 = 0;
    'nodes: for node in nodes {
        match send_node(value.checked(), node, pool, sink) {
            Ok(sent) => written += sent,
            Err(fault) => {
                return Err(WriteFault {
                    reason: fault.reason,
                    written: written + fault.written,
                });
            }
        }
    }
    Ok(())
}
