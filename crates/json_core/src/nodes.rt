//! A value as a tree of `serde_json`.

ghost use Rattle.std.specs.Prelude.{◌≡◌, map, IfOk};
ghost use Rattle.std.specs.Char.{encode_utf8};
ghost use Rattle.serde_json.specs.Data.{no_members, member, object, string};
ghost use Rattle.serde_json.specs.View.{view, items_view, items_of};
ghost use Rattle.graph_core.specs.Types.{shape};
ghost use Rattle.node_core.specs.Shown.{children_of};
ghost use Rattle.json_core.specs.Json.{fields_json, parts_json, json_seen};

use crate::bits::bits_json;
use crate::defined::{bit_form, compact_json, composite_fields, defined_arm, integer_json};
use crate::fields::fields_json;
use crate::hexadecimal::bytes_json;
use crate::integers::{signed_json, unsigned_json, wide_json};
use growth_core::{Refused, push, push_char, reported};
use serde_json::{Map, Value};
use std::alloc::{Allocator, Global};
use types_core::Arm;
use value_core::{NodeRef, What};

/// Returns a text of one character.
fn char_json(alloc: Global, x: char) -> Result<Value, Refused>
    ensures { IfOk result (λ v. view v ≡ string (encode_utf8 x)) }
{
    let mut text = String::new(alloc);
    push_char(&mut text, x)?;
    Ok(Value::String(text))
}

/// Returns a text.
fn text_json(alloc: Global, text: &str) -> Result<Value, Refused>
    ensures { IfOk result (λ v. view v ≡ string text.now) }
{
    reported(Value::try_from_str(alloc, text))
}

/// Returns an object of one member.
fn single(alloc: Global, name: &str, value: Value) -> Result<Value, Refused>
    ensures { IfOk result (λ v. view v ≡ object (member name.now (view value) no_members)) }
{
    let mut members = Map::new(alloc);
    reported(serde_json::put(&mut members, alloc, name, value))?;
    Ok(Value::Object(members))
}

/// Returns the value of a composite or a tuple, given its parts.
fn parts_json(alloc: Global, node: &NodeRef<'_, '_>, items: Vec<Value>) -> Result<Value, Refused>
    ensures { IfOk result
        (λ v. view v ≡ parts_json (shape node.now.types node.now.ty) (items_view items.items)) }
{
    match composite_fields(node) {
        Some(fields) => fields_json(alloc, fields, items),
        None => Ok(Value::Array(items)),
    }
}

/// Returns the value of an arm: an object whose one key is the arm's name.
fn arm_json(alloc: Global, arm: &Arm, items: Vec<Value>) -> Result<Value, Refused>
    ensures { IfOk result
        (λ v. view v ≡ object (member arm.now.name
        (fields_json arm.now.fields (items_view items.items)) no_members)) }
{
    let fields = fields_json(alloc, &arm.fields, items)?;
    single(alloc, arm.name.as_str(), fields)
}

/// Returns a node as JSON, given its children as JSON, in order.
fn with_items(alloc: Global, node: &NodeRef<'_, '_>, items: Vec<Value>) -> Result<Value, Refused>
    requires { items_view items.items ≡ items_of (map json_seen (children_of node.now)) }
    ensures { IfOk result (λ v. view v ≡ json_seen node.now) }
{
    match node.what() {
        What::Empty => Ok(Value::Null),
        What::Bool(x) => Ok(Value::Bool(x)),
        What::Char(x) => char_json(alloc, x),
        What::Text => text_json(alloc, node.text().unwrap()),
        What::Bytes => bytes_json(alloc, node.bytes().unwrap()),
        What::Unsigned(n) => unsigned_json(alloc, integer_json(node), n),
        What::Signed(n) => signed_json(alloc, integer_json(node), n),
        What::Wide(bytes) => wide_json(alloc, bytes),
        What::Compact(n) => unsigned_json(alloc, compact_json(node), n),
        What::Fields => parts_json(alloc, node, items),
        What::Arm { position } => {
            let arm = defined_arm(node, position).unwrap();
            arm_json(alloc, arm, items)
        }
        What::List => Ok(Value::Array(items)),
        What::Count(count) => single(alloc, "count", Value::from(count)),
        What::Bits(count) => bits_json(alloc, bit_form(node), node.words().unwrap(), count),
    }
}

/// Returns a node and all that is below it as JSON. The calls nest as deep as the value.
fn node_json(alloc: Global, node: &NodeRef<'_, '_>) -> Result<Value, Refused>
    ensures { IfOk result (λ v. view v ≡ json_seen node.now) }
{
    let mut items = Vec::new(alloc);
    'children: for child in node.children() {
        push(&mut items, node_json(alloc, &child)?)?;
    }
    with_items(alloc, node, items)
}

/// Returns a value as a tree of `serde_json` (this project's own table, `docs/FORMATS.md`, "JSON").
///
/// It takes time in proportion to the tree, and the time to insert the names of each object into
/// its map. The calls nest as deep as the value, at most 1025 levels; the tree at most twice as
/// deep.
///
/// # Errors
///
/// `Refused` if an allocation fails.
pub fn to_json<A: Allocator>(
    alloc: Global,
    value: &value_core::Value<'_, A>,
) -> Result<Value, Refused>
    ensures { IfOk result (λ json. view json ≡ json_seen value.now) }
{
    node_json(alloc, &value.root())
}
