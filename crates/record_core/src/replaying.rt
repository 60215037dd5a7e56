//! Reads a value back from records.

ghost use Rattle.std.specs.Prelude.{◌≡◌, ◌<◌, ◌≤◌, ◌+◌, ◌^◌, ◌==◌, true, SomeIff, MatchResult};
ghost use Rattle.std.specs.Prelude.{IfOk};
ghost use Rattle.std.specs.Prelude.{None, length, []};
ghost use Rattle.scale_core.specs.Number.{is_scalar};
ghost use Rattle.grammar_core.specs.Preorder as head;
ghost use Rattle.grammar_core.specs.Tree as tree;
ghost use Rattle.value_core.specs.Built.{with_leaf};
ghost use Rattle.value_core.specs.Refusals.{Adds, build_opening_fault, in_range, judged};
ghost use Rattle.value_core.specs.Refusals.{suits_wide};
ghost use Rattle.value_core.specs.Walked.{start_of};
ghost use Rattle.value_core.specs.declared.build_fault.BuildFault.TheVariants.{OutOfRange};
ghost use Rattle.graph_core.specs.Types.{shape};
ghost use Rattle.record_core.specs.Records.{bits_head, pooled_head, range_of, scalar_head};
ghost use Rattle.record_core.specs.Records.{tree_read, words_len};
ghost use Rattle.record_core.specs.Replayed.{ReadsRecords, bits_fault, ended, earlier_fault};
ghost use Rattle.record_core.specs.Replayed.{judged_node, kind_fault, pooled_fault, record_fault};
ghost use Rattle.record_core.specs.Replayed.{replay, scalar_fault, start_with, with_node};
ghost use Rattle.record_core.specs.Replayed.{with_record};

use crate::record::{
    ARM, BITS, BOOL, BYTES, CHAR, COMPACT, COUNT, EMPTY, FIELDS, LIST, Record, SIGNED, TEXT,
    UNSIGNED, WIDE,
};
use simdutf8::compat::from_utf8;
use std::alloc::Allocator;
use types_core::{TypeDef, TypeId};
use value_core::{BuildFault, Builder, Value};
use widths_core::Checked;

/// Why records are no value of a type.
#[derive(Clone, Copy, Debug, PartialEq, Eq)]
pub enum RecordFault {
    /// No value of the type can be begun: the registry lacks it, the depth limit is out of range,
    /// or an allocation failed.
    Open(BuildFault),
    /// The record at this position is rejected. Where one is missing, this is their number.
    Record(usize, BuildFault),
}

/// Returns the bytes of a record in the pool.
///
/// # Errors
///
/// `OutOfRange` if they don't lie in the pool.
fn range_of<'p>(node: &Record, pool: &'p [u8]) -> Result<&'p [u8], BuildFault>
    ensures { MatchResult result
        (λ bytes. (node.now.low + node.now.high ≤ length pool.now)
        × (bytes.now ≡ range_of pool.now node.now))
        (λ e. (length pool.now < node.now.low + node.now.high) × (e ≡ OutOfRange)) }
{
    let len = pool.len() as u64;
    if node.low > len || node.high > len - node.low {
        return Err(BuildFault::OutOfRange);
    }
    Ok(&pool[node.low as usize..(node.low + node.high) as usize])
}

/// Returns the character of a code point, if there is one.
fn character(code: u64) -> Option<char>
    ensures { SomeIff result (is_scalar code ≡ true) code }
{
    if code > 0x0010_ffff {
        return None;
    }
    char::from_u32(code as u32)
}

/// Adds a 256-bit integer of these bytes.
///
/// # Errors
///
/// `OutOfRange` if they are not 32, and those of [`Builder::wide`].
fn add_wide<A: Allocator>(builder: &mut Builder<'_, A>, bytes: &[u8]) -> Result<(), BuildFault>
    ensures { Adds (earlier_fault (in_range (length bytes.now == 32))
        (judged suits_wide builder.old))
        (with_leaf builder.old (head.leaf (tree.wide bytes.now))) builder.old builder.new result }
{
    if bytes.len() != 32 {
        return Err(BuildFault::OutOfRange);
    }
    let mut wide = [0; 32];
    wide.copy_from_slice(bytes);
    builder.wide(wide)
}

/// Adds a node whose bytes lie in the pool.
///
/// # Errors
///
/// The fault of the record, and then that of the builder.
fn add_pooled<A: Allocator>(
    builder: &mut Builder<'_, A>,
    node: &Record,
    pool: &[u8],
) -> Result<(), BuildFault>
    requires least { TEXT ≤ node.now.kind }
    requires most { node.now.kind ≤ WIDE }
    ensures { Adds (earlier_fault (pooled_fault pool.now node.now)
        (judged_node (pooled_head node.now.kind (range_of pool.now node.now)) builder.old))
        (with_node (pooled_head node.now.kind (range_of pool.now node.now)) builder.old)
        builder.old builder.new result }
{
    let bytes = range_of(node, pool)?;
    match node.kind {
        TEXT => match from_utf8(bytes) {
            Ok(text) => builder.text(text),
            Err(fault) => Err(BuildFault::BadText {
                valid: fault.valid_up_to() as u64,
            }),
        },
        BYTES => builder.bytes(bytes),
        _ => add_wide(builder, bytes),
    }
}

/// Adds a node whose numbers are in the record.
///
/// # Errors
///
/// The fault of the record, and then that of the builder.
fn add_scalar<A: Allocator>(builder: &mut Builder<'_, A>, node: &Record) -> Result<(), BuildFault>
    requires { node.now.kind ≤ COUNT }
    ensures { Adds (earlier_fault (scalar_fault node.now)
        (judged_node (scalar_head node.now) builder.old))
        (with_node (scalar_head node.now) builder.old) builder.old builder.new result }
{
    match node.kind {
        EMPTY => builder.empty(),
        BOOL => match node.low {
            0 => builder.bool(false),
            1 => builder.bool(true),
            _ => Err(BuildFault::OutOfRange),
        },
        CHAR => match character(node.low) {
            Some(character) => builder.char(character),
            None => Err(BuildFault::OutOfRange),
        },
        UNSIGNED => builder.unsigned(node.number()),
        SIGNED => builder.signed(node.number().cast_signed()),
        COMPACT => builder.compact(node.number()),
        _ => match u32::try_from(node.low) {
            Ok(count) => builder.count(count),
            Err(_) => Err(BuildFault::OutOfRange),
        },
    }
}

/// Returns how many bytes the words of so many bits have in a type, or 0 if its bits aren't read.
fn words_len(checked: &Checked, ty: u32, count: u32) -> usize
    ensures exact { result ≡ words_len (shape checked.now.types ty) count }
    ensures bound { result < 2 ^ 32 }
{
    match checked.registry().types().get(ty as usize) {
        Some(info) => match &info.shape {
            TypeDef::BitSequence {
                form: Some(form),
                ..
            } => form.bytes(count),
            _ => 0,
        },
        None => 0,
    }
}

/// Adds a bit sequence.
///
/// # Errors
///
/// The fault of the record, and then that of the builder.
fn add_bits<A: Allocator>(
    builder: &mut Builder<'_, A>,
    checked: &Checked,
    node: &Record,
    pool: &[u8],
) -> Result<(), BuildFault>
    ensures { Adds (earlier_fault (bits_fault checked.now.types pool.now node.now)
        (judged_node (bits_head checked.now.types pool.now node.now) builder.old))
        (with_node (bits_head checked.now.types pool.now node.now) builder.old)
        builder.old builder.new result }
{
    let Ok(count) = u32::try_from(node.high) else {
        return Err(BuildFault::OutOfRange);
    };
    let len = words_len(checked, node.ty, count);
    if node.low > pool.len() as u64 || len > pool.len() - node.low as usize {
        return Err(BuildFault::OutOfRange);
    }
    builder.bits(count, &pool[node.low as usize..node.low as usize + len])
}

/// Adds the node of a record, by its kind.
///
/// # Errors
///
/// The fault of what the kind gives a meaning, and then that of the builder, which is unchanged.
fn add_kind<A: Allocator>(
    builder: &mut Builder<'_, A>,
    checked: &Checked,
    node: &Record,
    pool: &[u8],
) -> Result<(), BuildFault>
    ensures { Adds (kind_fault checked.now.types pool.now node.now builder.old)
        (with_record checked.now.types pool.now node.now builder.old)
        builder.old builder.new result }
{
    match node.kind {
        ..=COUNT => add_scalar(builder, node),
        TEXT..=WIDE => add_pooled(builder, node, pool),
        BITS => add_bits(builder, checked, node, pool),
        FIELDS => builder.fields_of(node.children),
        ARM => builder.arm_at(node.arm, node.children),
        LIST => builder.list(node.children),
        _ => Err(BuildFault::WrongKind),
    }
}

/// Adds the node of a record.
///
/// # Errors
///
/// `OutOfRange` if a number without a meaning is not 0, the fault of another number, and then that
/// of the builder, which is unchanged.
fn add<A: Allocator>(
    builder: &mut Builder<'_, A>,
    checked: &Checked,
    node: &Record,
    pool: &[u8],
) -> Result<(), BuildFault>
    ensures { Adds (record_fault checked.now.types pool.now node.now builder.old)
        (with_record checked.now.types pool.now node.now builder.old)
        builder.old builder.new result }
{
    if !node.has_only_own() {
        return Err(BuildFault::OutOfRange);
    }
    add_kind(builder, checked, node, pool)
}

/// Builds the value, of the type `root` and within the depth limit, whose nodes the records are,
/// with their bytes in the pool.
///
/// Of a record, `ty` is read only if the node is a bit sequence, and `low` isn't if it is a
/// composite, a tuple, a variant or a list. Every other number that the kind gives no meaning is 0.
/// The ranges of two records may overlap.
///
/// # Errors
///
/// - `Open` if the registry has no type `root` (`UnknownType`), the depth limit is above 1024
///   (`OutOfRange`), or an allocation fails (`OutOfMemory`).
/// - `Record` with the position of the first record that is rejected, and why. By itself it has a
///   kind that there is not (`WrongKind`), a number outside the range of its kind, one without a
///   meaning that isn't 0, or a range that isn't in the pool (`OutOfRange`), or a text that is not
///   UTF-8 (`BadText`). Else it is rejected by the builder, as [`Builder::empty`] and the other
///   calls say; a number of children that isn't the one of its type is `OutOfRange`.
/// - `Record` with the number of records, and `UnfinishedValue`, if a node is missing.
pub fn value_of_records<'r, A: Allocator + Clone>(
    alloc: A,
    checked: &'r Checked,
    root: TypeId,
    depth: u16,
    records: &[Record],
    pool: &[u8],
) -> Result<Value<'r, A>, RecordFault>
    ensures value { ReadsRecords (build_opening_fault checked.now.types root.0 depth)
        (ended (length records.now)
        (replay checked.now.types pool.now records.now
        (start_with checked.now.types root.0 depth))) result }
    ensures tree { IfOk result (λ v. v ≡ record {
      types = checked.now.types;
      ty = root.0;
      tree = tree_read checked.now.types pool.now records.now;
    }) }
{
    let mut builder = match Builder::new(alloc, checked, root, depth) {
        Ok(builder) => builder,
        Err(fault) => return Err(RecordFault::Open(fault)),
    };
    'records: for (at, node) in records.iter().enumerate() {
        if let Err(fault) = add(&mut builder, checked, node, pool) {
            return Err(RecordFault::Record(at, fault));
        }
    }
    match builder.finish() {
        Ok(value) => Ok(value),
        Err((fault, _)) => Err(RecordFault::Record(records.len(), fault)),
    }
}
