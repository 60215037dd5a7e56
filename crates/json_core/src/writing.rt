//! Writes a node's JSON token by token.

ghost use Rattle.std.specs.Prelude.{◌≡◌, ◌<◌, ◌^◌, [], ◌∷◌, Some, length, map, codes, IfOk};
ghost use Rattle.std.specs.Prelude.{OnOk, FitsSigned, ◌⊎◌, slice_get};
ghost use Rattle.std.specs.List.{range_with_len};
ghost use Rattle.std.specs.Int.{w64};
ghost use Rattle.std.specs.Char.{encode_utf8};
ghost use Rattle.json.specs.Token.{end_array, string};
ghost use Rattle.json.specs.Tree.{items_tokens};
ghost use Rattle.serde_json.specs.Data.{array, object, number, unsigned, member, no_members};
ghost use Rattle.serde_json.specs.View.{items_of};
ghost use Rattle.serde_json.specs.Written.{items_outline};
ghost use Rattle.node_core.specs.Shown.{children_of};
ghost use Rattle.json_core.specs.Defined.{unsigned_by, signed_by};
ghost use Rattle.json_core.specs.Json.{bits_json, bytes_json, wide_json, json_seen, fields_json};
ghost use Rattle.types_core.specs.Keys.{key_order};
ghost use Rattle.token_core.specs.Tokens.{AddsTokens, prints};
ghost use Rattle.json_core.specs.Tokens.{AddsValue, data_at};
ghost use Rattle.json_core.specs.declared.integer_json.IntegerJson.TheVariants.{Number};

use crate::defined::{bit_form, compact_json, composite_fields, defined_arm, integer_json};
use crate::fields::name_of;
use crate::integer_json::IntegerJson;
use growth_core::{Refused, push, with_capacity};
use std::alloc::{Allocator, Global};
use token_core::{Escapes, Output};
use types_core::{Arm, BitForm, Field, Fields, Keys};
use value_core::{NodeRef, What};

/// The most fields that are few: a step past each child costs less than memory for a list.
const FEW_CHILDREN: usize = 8;

/// Writes an unsigned integer as a number or as a text of its decimal digits.
fn write_unsigned<A: Allocator>(
    out: &mut Output<A>,
    shown: IntegerJson,
    n: u128,
) -> Result<(), Refused>
    requires { shown ≡ Number → n < 2 ^ 64 }
    ensures { AddsValue result out.old out.new (unsigned_by shown n) }
{
    match shown {
        IntegerJson::Number => out.unsigned(n as u64),
        IntegerJson::Text => out.quoted_unsigned(n),
    }
}

/// Writes a signed integer as a number or as a text of its decimal digits.
fn write_signed<A: Allocator>(
    out: &mut Output<A>,
    shown: IntegerJson,
    n: i128,
) -> Result<(), Refused>
    requires { shown ≡ Number → FitsSigned w64 n }
    ensures { AddsValue result out.old out.new (signed_by shown n) }
{
    match shown {
        IntegerJson::Number => out.signed(n as i64),
        IntegerJson::Text => out.quoted_signed(n),
    }
}

/// Writes a run of bytes in hexadecimal.
fn write_bytes<A: Allocator>(out: &mut Output<A>, bytes: &[u8]) -> Result<(), Refused>
    ensures { AddsValue result out.old out.new (bytes_json bytes.now) }
{
    out.hex(bytes)
}

/// Writes an integer of 256 bits as a text. Its lowest byte is the first.
fn write_wide<A: Allocator>(out: &mut Output<A>, bytes: [u8; 32]) -> Result<(), Refused>
    ensures { AddsValue result out.old out.new (wide_json bytes) }
{
    let mut highest_first = bytes;
    highest_first.reverse();
    write_bytes(out, &highest_first)
}

/// Writes a bit sequence as a text of its digits, or null if its words are not known.
fn write_bits<A: Allocator>(
    out: &mut Output<A>,
    form: Option<BitForm>,
    bytes: &[u8],
    count: u32,
) -> Result<(), Refused>
    ensures { AddsValue result out.old out.new (bits_json form count bytes.now) }
{
    match form {
        Some(form) => out.bits(form, bytes, count),
        None => out.null(),
    }
}

/// Writes a text of one character.
fn write_char<A: Allocator>(out: &mut Output<A>, x: char) -> Result<(), Refused>
    ensures { AddsTokens result out.old out.new (string (encode_utf8 x) ∷ []) }
{
    let mut bytes = [0; 4];
    out.string(x.encode_utf8(&mut bytes))
}

/// Writes the number of elements, if they take no bytes.
fn write_count<A: Allocator>(out: &mut Output<A>, count: u32) -> Result<(), Refused>
    ensures { AddsValue result out.old out.new
        (object (member (codes "count") (number (unsigned count)) no_members)) }
{
    out.begin_member("count", Escapes::None)?;
    out.unsigned(u64::from(count))?;
    out.end_object()
}

/// Returns the child at a position, after a step past each one before it.
#[inline(always)]
fn child_at<'v, 'r>(node: &NodeRef<'v, 'r>, position: usize) -> NodeRef<'v, 'r>
    requires { position < length (children_of node.now) }
    ensures { Some result ≡ slice_get (children_of node.now) position }
{
    node.children().nth(position).unwrap()
}

/// Returns the children of a node, in order, if they are many. Few are not listed, because a step
/// past each costs less than memory for a list.
fn children<'v, 'r>(
    alloc: Global,
    count: usize,
    node: &NodeRef<'v, 'r>,
) -> Result<Vec<NodeRef<'v, 'r>>, Refused>
    ensures { IfOk result (λ v. (v.items ≡ []) ⊎ (v.items ≡ children_of node.now)) }
{
    if count <= FEW_CHILDREN {
        return Ok(Vec::new(alloc));
    }
    let mut children = with_capacity(alloc, count)?;
    'children: for child in node.children() {
        push(&mut children, child)?;
    }
    Ok(children)
}

/// Writes the child at a position and all that is below it. It takes the child from the list, if
/// there is one, or else steps past each child before it.
#[cycle(write)]
#[inline(always)]
fn write_child<A: Allocator>(
    out: &mut Output<A>,
    alloc: Global,
    listed: &[NodeRef<'_, '_>],
    node: &NodeRef<'_, '_>,
    position: usize,
) -> Result<(), Refused>
    requires listed { (listed.now ≡ []) ⊎ (listed.now ≡ children_of node.now) }
    requires there { position < length (children_of node.now) }
    ensures { AddsValue result out.old out.new
        (data_at (map json_seen (children_of node.now)) position) }
{
    match listed.get(position) {
        Some(child) => write_node(out, alloc, child),
        None => write_node(out, alloc, &child_at(node, position)),
    }
}

/// Writes the children of a node, in order, as items of an array that has begun.
#[cycle(write)]
#[inline(always)]
fn write_each<A: Allocator>(
    out: &mut Output<A>,
    alloc: Global,
    node: &NodeRef<'_, '_>,
) -> Result<(), Refused>
    ensures { OnOk result (prints out.new (end_array ∷ []) ≡ prints out.old
        (items_tokens (items_outline (items_of (map json_seen (children_of node.now)))))) }
{
    'children: for child in node.children() {
        write_node(out, alloc, &child)?;
    }
    Ok(())
}

/// Writes the children of a node as an array.
#[cycle(write)]
fn write_items<A: Allocator>(
    out: &mut Output<A>,
    alloc: Global,
    node: &NodeRef<'_, '_>,
) -> Result<(), Refused>
    ensures { AddsValue result out.old out.new
        (array (items_of (map json_seen (children_of node.now)))) }
{
    out.begin_array()?;
    write_each(out, alloc, node)?;
    out.end_array()
}

/// Writes the children of a node as an object, each at the name of its field, if the names are in
/// order.
#[cycle(write)]
#[inline(always)]
fn write_in_order<A: Allocator>(
    out: &mut Output<A>,
    alloc: Global,
    fields: &[Field],
    node: &NodeRef<'_, '_>,
) -> Result<(), Refused>
    requires order { key_order fields.now ≡ Some (range_with_len 0 (length fields.now)) }
    requires count { length fields.now ≡ length (children_of node.now) }
    ensures { AddsValue result out.old out.new
        (fields_json fields.now (items_of (map json_seen (children_of node.now)))) }
{
    out.begin_object()?;
    'members: for (field, child) in fields.iter().zip(node.children()) {
        let name = name_of(field);
        out.key(name.as_str(), name.escapes())?;
        write_node(out, alloc, &child)?;
    }
    out.end_object()
}

/// Writes the children of a node as an object, each at the name of its field, in this order.
#[cycle(write)]
fn write_sorted<A: Allocator>(
    out: &mut Output<A>,
    alloc: Global,
    fields: &[Field],
    order: &[u32],
    node: &NodeRef<'_, '_>,
) -> Result<(), Refused>
    requires order { key_order fields.now ≡ Some order.now }
    requires count { length fields.now ≡ length (children_of node.now) }
    ensures { AddsValue result out.old out.new
        (fields_json fields.now (items_of (map json_seen (children_of node.now)))) }
{
    let children = children(alloc, fields.len(), node)?;
    out.begin_object()?;
    'members: for &place in order {
        let position = place as usize;
        let name = name_of(&fields[position]);
        out.key(name.as_str(), name.escapes())?;
        write_child(out, alloc, &children, node, position)?;
    }
    out.end_object()
}

/// Writes the children of a node as the values of fields.
#[cycle(write)]
fn write_fields<A: Allocator>(
    out: &mut Output<A>,
    alloc: Global,
    fields: &Fields,
    node: &NodeRef<'_, '_>,
) -> Result<(), Refused>
    requires { length fields.now ≡ length (children_of node.now) }
    ensures { AddsValue result out.old out.new
        (fields_json fields.now (items_of (map json_seen (children_of node.now)))) }
{
    match fields.keys() {
        Keys::Unnamed => write_items(out, alloc, node),
        Keys::InOrder => write_in_order(out, alloc, fields.as_slice(), node),
        Keys::Sorted(order) => write_sorted(out, alloc, fields.as_slice(), order.as_slice(), node),
    }
}

/// Writes the children of a node as the values of an arm's fields: an object whose one key is the
/// arm's name.
#[cycle(write)]
fn write_arm<A: Allocator>(
    out: &mut Output<A>,
    alloc: Global,
    arm: &Arm,
    node: &NodeRef<'_, '_>,
) -> Result<(), Refused>
    requires { length arm.now.fields ≡ length (children_of node.now) }
    ensures { AddsValue result out.old out.new (object (member arm.now.name
        (fields_json arm.now.fields (items_of (map json_seen (children_of node.now))))
        no_members)) }
{
    let name = &arm.name;
    if let Keys::Unnamed = arm.fields.keys() {
        out.begin_array_member(name.as_str(), name.escapes())?;
        write_each(out, alloc, node)?;
        return out.end_array_member();
    }
    out.begin_member(name.as_str(), name.escapes())?;
    write_fields(out, alloc, &arm.fields, node)?;
    out.end_object()
}

/// Writes a node and all that is below it.
#[cycle(write)]
#[inline(always)]
pub(crate) fn write_node<A: Allocator>(
    out: &mut Output<A>,
    alloc: Global,
    node: &NodeRef<'_, '_>,
) -> Result<(), Refused>
    ensures { AddsValue result out.old out.new (json_seen node.now) }
{
    // Inlined into the loops over children, so that a leaf costs no call.
    match node.what() {
        What::Empty => out.null(),
        What::Bool(x) => out.boolean(x),
        What::Char(x) => write_char(out, x),
        What::Text => out.string(node.text().unwrap()),
        What::Bytes => write_bytes(out, node.bytes().unwrap()),
        What::Unsigned(n) => write_unsigned(out, integer_json(node), n),
        What::Signed(n) => write_signed(out, integer_json(node), n),
        What::Wide(bytes) => write_wide(out, bytes),
        What::Compact(n) => write_unsigned(out, compact_json(node), n),
        What::Fields => match composite_fields(node) {
            Some(fields) => write_fields(out, alloc, fields, node),
            None => write_items(out, alloc, node),
        },
        What::Arm { position } => {
            let arm = defined_arm(node, position).unwrap();
            write_arm(out, alloc, arm, node)
        }
        What::List => write_items(out, alloc, node),
        What::Count(count) => write_count(out, count),
        What::Bits(count) => write_bits(out, bit_form(node), node.words().unwrap(), count),
    }
}
