//! The calls on the names that metadata gives to types.

ghost use Rattle.std.specs.Prelude.{◌≡◌, ℕ, IfSome, Some, option_map, slice_get};
ghost use Rattle.chain_core.specs.Names.{entry_of, find};
ghost use Rattle.scaleview_c.specs.Calls.{names_in};
ghost use Rattle.scaleview_c.specs.TypeNames.{ReportsName, WritesBytes, WritesNameAt, WritesSome};
ghost use Rattle.scaleview_c.specs.TypeNames.{WritesEntry, entry_answer, has_bytes};

use crate::lent::Lent;
use crate::opened::Opened;
use crate::resource::Resource;
use crate::text::put;
use crate::types::put_name;
use c_answers::{Answer, NO_BYTES, NO_HANDLE, OK, UNKNOWN_NAME};
use chain_core::NamedType;
use std::alloc::Global;

/// Returns what the metadata of a registry has for a name, or `None` if it has no such name.
fn named<'o>(opened: &'o Opened, name: &[u8]) -> Option<&'o NamedType>
    ensures { option_map (λ t. entry_of t.now) result ≡ find (names_in opened.now) name.now }
{
    match &opened.names {
        Some(names) => names.find(name),
        None => None,
    }
}

/// Returns the name at a position of the metadata of a registry, or `None` if there are no more.
fn named_at(opened: &Opened, position: u32) -> Option<&NamedType>
    ensures { IfSome result (λ t. (i : ℕ)
        × (slice_get (names_in opened.now) i ≡ Some (entry_of t.now))) }
{
    match &opened.names {
        Some(names) => names.get(position as usize),
        None => None,
    }
}

/// Returns 1 if the metadata has bytes for a name, and otherwise 0.
fn has_bytes(named: &NamedType) -> u64
    ensures { result ≡ has_bytes (entry_of named.now) }
{
    match &named.bytes {
        Some(_) => 1,
        None => 0,
    }
}

/// Returns the answer that reports what the metadata has for a name.
fn entry_answer(found: Option<&NamedType>) -> Answer
    ensures { result ≡ entry_answer (option_map (λ t. entry_of t.now) found.entry) }
{
    match found {
        Some(named) => Answer {
            code: OK,
            from: named.id,
            at: has_bytes(named),
            length: match &named.bytes {
                Some(bytes) => bytes.len() as u64,
                None => 0,
            },
        },
        None => Answer::plain(UNKNOWN_NAME),
    }
}

/// Reports the type of a name, and how many bytes the metadata has for it.
///
/// # Errors
///
/// `NO_HANDLE` or `UNKNOWN_NAME`.
#[unsafe(no_mangle)]
pub extern "C" fn scaleview_name(registry: Lent, name: &[u8], answer: &mut Answer) -> u32
    ensures name { ReportsName registry.value name.now answer.new }
    ensures code { result ≡ answer.new.code }
{
    *answer = match registry.get() {
        Some(Resource::Registry(opened)) => entry_answer(named(opened, name)),
        Some(Resource::Session(_)) | None => Answer::plain(NO_HANDLE),
    };
    answer.code
}

/// Writes a name, and reports its type and whether it has bytes.
fn put_named(alloc: Global, named: &NamedType, out: &mut [u8]) -> Answer
    ensures { WritesEntry (entry_of named.now) out.old out.new result }
{
    let mut name = String::new(alloc);
    match named.push_name(&mut name) {
        Ok(()) => put_name(out, name.as_bytes(), named.id, has_bytes(named)),
        Err(refused) => Answer::of_refused(refused),
    }
}

/// Writes the name at a position: of all names in their order, each once.
///
/// # Errors
///
/// `NO_HANDLE`, `UNKNOWN_NAME` if there are no more names, `MEMORY`, or `NO_ROOM` with the same
/// numbers; `out` is unchanged.
#[unsafe(no_mangle)]
pub extern "C" fn scaleview_name_at(
    alloc: Global,
    registry: Lent,
    position: u32,
    out: &mut [u8],
    answer: &mut Answer,
) -> u32
    ensures name { WritesNameAt registry.value out.old out.new answer.new }
    ensures code { result ≡ answer.new.code }
{
    *answer = match registry.get() {
        Some(Resource::Registry(opened)) => match named_at(opened, position) {
            Some(named) => put_named(alloc, named, out),
            None => Answer::plain(UNKNOWN_NAME),
        },
        Some(Resource::Session(_)) | None => Answer::plain(NO_HANDLE),
    };
    answer.code
}

/// Writes the bytes that the metadata has for a name.
fn put_bytes(found: Option<&NamedType>, out: &mut [u8]) -> Answer
    ensures { WritesSome (option_map (λ t. entry_of t.now) found.entry) out.old out.new result }
{
    let Some(named) = found else {
        return Answer::plain(UNKNOWN_NAME);
    };
    match &named.bytes {
        Some(bytes) => put(out, bytes.as_slice()),
        None => Answer::plain(NO_BYTES),
    }
}

/// Writes the bytes of a value that the metadata has for a name.
///
/// # Errors
///
/// `NO_HANDLE`, `UNKNOWN_NAME`, `NO_BYTES`, or `NO_ROOM` with the same length; `out` is unchanged.
#[unsafe(no_mangle)]
pub extern "C" fn scaleview_name_bytes(
    registry: Lent,
    name: &[u8],
    out: &mut [u8],
    answer: &mut Answer,
) -> u32
    ensures bytes { WritesBytes registry.value name.now out.old out.new answer.new }
    ensures code { result ≡ answer.new.code }
{
    *answer = match registry.get() {
        Some(Resource::Registry(opened)) => put_bytes(named(opened, name), out),
        Some(Resource::Session(_)) | None => Answer::plain(NO_HANDLE),
    };
    answer.code
}
