//! The calls on a registry.

ghost use Rattle.std.specs.Prelude.{◌≡◌, None, Some};
ghost use Rattle.scaleview_c.specs.Calls.{ClosesRegistry, OpensBox, OpensBytes, OpensHandle};
ghost use Rattle.scaleview_c.specs.Calls.{OpensMetadata, OpensRegistry, ReportsTypes, WritesJson};
ghost use Rattle.scaleview_c.specs.Calls.{WritesLine, WritesValue, options_of, reads_names};
ghost use Rattle.scaleview_c.specs.Kept.{CountsOpen, GivesRegistry};

use crate::allowance::{Allowance, CallBudget};
use crate::handle::{Handle, handle_of, held_by};
use crate::keeper::{Heap, Keeper, close_code};
use crate::lent::Lent;
use crate::opened::Opened;
use crate::resource::Resource;
use crate::text::put;
use c_answers::{Answer, NO_HANDLE, OK, TAKEN, UNKNOWN_TYPE};
use growth_core::{clone_of, reported};
use scale_calls::{
    MetadataRefusal, NamedMetadata, OpenOptions, OpenedRegistry, RegistryRefusal, open_metadata,
    open_registry, read_value, type_line,
};
use std::alloc::Global;
use std::mem;
use std::sync::atomic::AtomicU64;
use value_core::Limits;

/// Returns how flags open a registry.
fn options_of(flags: u32) -> OpenOptions
    ensures { result ≡ options_of flags }
{
    OpenOptions {
        metadata: flags % 2 == 1,
        bits: flags / 4 % 2 == 1,
    }
}

/// Returns whether flags say that names are read too.
fn reads_names(flags: u32) -> bool
    ensures { result ≡ reads_names flags }
{
    flags % 2 == 1 && flags / 2 % 2 == 1
}

/// Opens the registry that the bytes hold, and returns the answer that reports it.
fn open_types(
    alloc: Global,
    options: OpenOptions,
    bytes: &[u8],
) -> Result<(Box<Resource>, Answer), Answer>
    ensures { OpensBox (λ held. held.value) (OpensRegistry options bytes.now) result }
{
    let OpenedRegistry {
        checked,
        version,
        end,
    } = match open_registry(alloc, options, bytes) {
        Ok(opened) => opened,
        Err(refusal) => return Err(Answer::of_registry(refusal)),
    };
    let answer = Answer::of_opened(version, end, checked.registry().types().len());
    let opened = Opened {
        checked,
        names: None,
        sessions: AtomicU64::new(0),
    };
    match reported(Box::new(alloc, Resource::Registry(opened))) {
        Ok(held) => Ok((held, answer)),
        Err(refused) => Err(Answer::of_registry(RegistryRefusal::Memory(refused))),
    }
}

/// Opens the metadata that the bytes are, with its names, and returns the answer that reports it.
fn open_names(alloc: Global, bits: bool, bytes: &[u8]) -> Result<(Box<Resource>, Answer), Answer>
    ensures { OpensBox (λ held. held.value) (OpensMetadata bits bytes.now) result }
{
    let NamedMetadata {
        checked,
        version,
        end,
        own: _,
        names,
    } = match open_metadata(alloc, bits, bytes) {
        Ok(opened) => opened,
        Err(refusal) => return Err(Answer::of_metadata(refusal)),
    };
    let answer = Answer::of_opened(Some(version), end, checked.registry().types().len());
    let opened = Opened {
        checked,
        names: Some(names),
        sessions: AtomicU64::new(0),
    };
    match reported(Box::new(alloc, Resource::Registry(opened))) {
        Ok(held) => Ok((held, answer)),
        Err(refused) => Err(Answer::of_metadata(MetadataRefusal::Memory(refused))),
    }
}

/// Opens the bytes as flags say, and returns the answer that reports it.
fn open_bytes(alloc: Global, flags: u32, bytes: &[u8]) -> Result<(Box<Resource>, Answer), Answer>
    ensures { OpensBox (λ held. held.value) (OpensBytes flags bytes.now) result }
{
    let options = options_of(flags);
    if reads_names(flags) {
        open_names(alloc, options.bits, bytes)
    } else {
        open_types(alloc, options, bytes)
    }
}

/// Opens the bytes as flags say, behind a null handle, as a registry without sessions.
pub fn open_in<K: Keeper>(
    alloc: Global,
    keeper: &mut K,
    flags: u32,
    bytes: &[u8],
    registry: &mut Handle,
) -> Answer
    ensures opened { OpensHandle registry.old.value flags bytes.now registry.new.value result }
    ensures counted { CountsOpen K.counts keeper.old registry.old.value registry.new.value
        keeper.new }
{
    if let Some(held) = held_by(alloc, mem::replace(registry, Handle::none())) {
        *registry = handle_of(held);
        return Answer::plain(TAKEN);
    }
    match open_bytes(alloc, flags, bytes) {
        Ok((held, answer)) => {
            if let Resource::Registry(opened) = &*held {
                keeper.set_count(opened, 0);
            }
            *registry = handle_of(held);
            answer
        }
        Err(answer) => answer,
    }
}

/// Opens the registry that the bytes hold, behind a null handle.
///
/// In `flags`, bit 0 is 1 if the registry is in metadata, and bit 2 if bit sequences are read. With
/// bit 0, bit 1 is 1 if the names of the metadata are read too. Other bits are ignored.
#[unsafe(no_mangle)]
pub extern "C" fn scaleview_open(
    alloc: Global,
    bytes: &[u8],
    flags: u32,
    registry: &mut Handle,
    answer: &mut Answer,
) -> u32
    ensures opened { OpensHandle registry.old.value flags bytes.now registry.new.value answer.new }
    ensures code { result ≡ answer.new.code }
{
    *answer = open_in(alloc, &mut Heap {}, flags, bytes, registry);
    answer.code
}

/// Gives back the box of a registry that no session uses.
pub fn close_in<K: Keeper>(alloc: Global, keeper: &mut K, registry: &mut Handle) -> u32
    ensures closed { ClosesRegistry registry.old.value registry.new.value result }
    // LENT exactly if a session has it, and then nothing changes.
    ensures given_back { GivesRegistry K.counts K.takes keeper.old registry.old.value
        keeper.new result }
{
    let Some(held) = held_by(alloc, mem::replace(registry, Handle::none())) else {
        return NO_HANDLE;
    };
    let code = close_code(keeper, &*held);
    if code == OK {
        keeper.take(held);
    } else {
        *registry = handle_of(held);
    }
    code
}

/// Frees a registry that no session uses.
#[unsafe(no_mangle)]
pub extern "C" fn scaleview_close(alloc: Global, registry: &mut Handle) -> u32
    ensures { ClosesRegistry registry.old.value registry.new.value result }
{
    close_in(alloc, &mut Heap {}, registry)
}

/// Reports the number of types of a registry.
#[unsafe(no_mangle)]
pub extern "C" fn scaleview_types(registry: Lent, answer: &mut Answer) -> u32
    ensures types { ReportsTypes registry.value answer.new }
    ensures code { result ≡ answer.new.code }
{
    *answer = match registry.get() {
        Some(Resource::Registry(opened)) => {
            Answer::counted(OK, opened.checked.registry().types().len() as u64)
        }
        Some(Resource::Session(_)) | None => Answer::plain(NO_HANDLE),
    };
    answer.code
}

/// Writes the line of the type at a position.
#[unsafe(no_mangle)]
pub extern "C" fn scaleview_type_line(
    alloc: Global,
    registry: Lent,
    id: u32,
    out: &mut [u8],
    answer: &mut Answer,
) -> u32
    ensures line { WritesLine registry.value id out.old out.new answer.new }
    ensures code { result ≡ answer.new.code }
{
    *answer = match registry.get() {
        Some(Resource::Registry(opened)) => match type_line(alloc, &opened.checked, id) {
            Ok(Some(line)) => put(out, line.as_bytes()),
            Ok(None) => Answer::plain(UNKNOWN_TYPE),
            Err(refused) => Answer::of_refused(refused),
        },
        Some(Resource::Session(_)) | None => Answer::plain(NO_HANDLE),
    };
    answer.code
}

/// Writes the JSON of the value that the bytes spell, which is read in the budget.
fn write_value(
    budget: &CallBudget,
    opened: &Opened,
    id: u32,
    limits: Limits,
    bytes: &[u8],
    out: &mut [u8],
) -> Answer
    ensures { WritesJson opened.now id limits bytes.now out.old out.new result }
{
    let alloc = match clone_of(&budget.alloc) {
        Ok(alloc) => alloc,
        Err(refused) => return Answer::of_refused(refused),
    };
    match read_value(alloc, &opened.checked, id, limits, bytes) {
        Ok(value) => budget.put_json(&value, out),
        Err(refusal) => Answer::of_value(refusal),
    }
}

/// Writes the JSON of the value, of the type at a position, that the bytes spell.
#[unsafe(no_mangle)]
pub extern "C" fn scaleview_decode(
    alloc: Global,
    registry: Lent,
    id: u32,
    depth: u16,
    limit: u64,
    memory: Allowance,
    bytes: &[u8],
    out: &mut [u8],
    answer: &mut Answer,
) -> u32
    ensures value { WritesValue registry.value id (record { depth = depth; bytes = limit })
        bytes.now out.old out.new answer.new }
    ensures code { result ≡ answer.new.code }
{
    let limits = Limits {
        depth,
        bytes: limit,
    };
    *answer = match registry.get() {
        Some(Resource::Registry(opened)) => match memory.budget(alloc) {
            Ok(budget) => write_value(&budget, opened, id, limits, bytes, out),
            Err(refused) => Answer::of_refused(refused),
        },
        Some(Resource::Session(_)) | None => Answer::plain(NO_HANDLE),
    };
    answer.code
}
