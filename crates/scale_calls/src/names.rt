//! The lines that show the names of metadata.

ghost use Rattle.std.specs.Prelude.{◌≡◌, ◌++◌, List, ℕ, OnOk, string_bytes};
ghost use Rattle.std.specs.List.{list_any};
ghost use Rattle.chain_core.specs.Names.{Entry, entries_of, entry_of};
ghost use Rattle.scale_calls.specs.NameLines.{AreLines, is_control, name_line, shown_name};

use chain_core::{NamedType, Names};
use growth_core::{Refused, push_str, reported};
use serde_json::Value;
use std::alloc::Global;

/// Returns whether a text has a character below U+0020.
fn has_control(text: &[u8]) -> bool
    ensures { result ≡ list_any is_control text.now }
{
    'bytes: for byte in text {
        if *byte < b' ' {
            return true;
        }
    }
    false
}

/// Appends a name: as it stands, or as a JSON string if it has a character below U+0020.
fn push_shown(alloc: Global, lines: &mut String, name: String) -> Result<(), Refused>
    ensures { OnOk result (string_bytes lines.new
        ≡ string_bytes lines.old ++ shown_name (string_bytes name)) }
{
    if !has_control(name.as_bytes()) {
        return push_str(lines, name.as_str());
    }
    let shown = reported(Value::String(name).to_string(alloc))?;
    push_str(lines, shown.as_str())
}

/// Appends the line of a name.
fn push_line(alloc: Global, lines: &mut String, named: &NamedType) -> Result<(), Refused>
    ensures { OnOk result (string_bytes lines.new
        ≡ string_bytes lines.old ++ name_line (entry_of named.now)) }
{
    let mut name = String::new(alloc);
    named.push_name(&mut name)?;
    push_shown(alloc, lines, name)?;
    let id = named.id;
    let rest = reported(format!(in alloc; " {id}\n"))?;
    push_str(lines, rest.as_str())
}

/// Appends a line for each name, in order: the name, a space, and the position of its type.
///
/// # Errors
///
/// `Refused` if an allocation fails; the first of the lines may have been appended.
// Which of the names have a line, and in which order, is tested and not proved.
pub fn push_name_lines(alloc: Global, lines: &mut String, names: &Names) -> Result<(), Refused>
    ensures { OnOk result ((text : List ℕ) × AreLines (entries_of names.now) text
        × (string_bytes lines.new ≡ string_bytes lines.old ++ text)) }
{
    'names: for position in 0..names.len() {
        let Some(named) = names.get(position) else {
            return Ok(());
        };
        push_line(alloc, lines, named)?;
    }
    Ok(())
}
