//! The calls that pass the nodes of a value as records.

ghost use Rattle.std.specs.Prelude.{◌≡◌};
ghost use Rattle.value_core.specs.Refusals.{build_opening_fault};
ghost use Rattle.scaleview_c.specs.Nodes.{DecodesNodes, Encodes, EncodesNodes};
ghost use Rattle.scaleview_c.specs.Nodes.{FinishesNodes, PutsNodes, PutsStage, WritesValueNodes};

use crate::allowance::{Allowance, CallBudget};
use crate::handle::{Handle, handle_of, held_by};
use crate::lent::Lent;
use crate::opened::Opened;
use crate::resource::Resource;
use crate::session::Stage;
use crate::text::put;
use budget_core::Budget;
use c_answers::{Answer, MORE, NO_HANDLE, NO_ROOM, OK};
use growth_core::{Refused, clone_of};
use record_core::{Record, RecordFault, value_of_records, write_records};
use registry_core::TypeId;
use scale_calls::{ValueRefusal, read_value};
use scale_core::Sink;
use std::alloc::Global;
use std::mem;
use value_core::{BuildFault, Limits, Value, encode};

/// Writes the records of a value and their pool to the front of the caller's memory, if both fit.
fn put_nodes(value: &Value<'_, Budget<Global>>, nodes: &mut [Record], pool: &mut [u8]) -> Answer
    ensures { PutsNodes value.now nodes.old nodes.new pool.old pool.new result }
{
    let room = write_records(value, nodes, pool);
    let fits = room.records <= nodes.len() && room.pool <= pool.len();
    Answer {
        code: if fits { OK } else { NO_ROOM },
        from: 0,
        at: room.pool as u64,
        length: room.records as u64,
    }
}

/// Writes the nodes of an ended value.
fn put_stage(stage: &Stage, nodes: &mut [Record], pool: &mut [u8]) -> Answer
    ensures { PutsStage stage.now nodes.old nodes.new pool.old pool.new result }
{
    match stage {
        Stage::Decoding(_) => Answer::plain(MORE),
        Stage::Complete(value) => put_nodes(value, nodes, pool),
        Stage::Refused(refusal) => Answer::of_value(*refusal),
    }
}

/// Writes the nodes of the value that the bytes spell, which is read in the budget.
fn write_nodes(
    budget: &CallBudget,
    opened: &Opened,
    id: u32,
    limits: Limits,
    bytes: &[u8],
    nodes: &mut [Record],
    pool: &mut [u8],
) -> Answer
    ensures { WritesValueNodes opened.now id limits bytes.now nodes.old nodes.new pool.old
        pool.new result }
{
    let alloc = match clone_of(&budget.alloc) {
        Ok(alloc) => alloc,
        Err(refused) => return Answer::of_refused(refused),
    };
    match read_value(alloc, &opened.checked, id, limits, bytes) {
        Ok(value) => put_nodes(&value, nodes, pool),
        Err(refusal) => Answer::of_value(refusal),
    }
}

/// Decodes the value, of the type at a position, that the bytes spell, and writes its nodes.
///
/// # Errors
///
/// `NO_HANDLE`, what `scaleview_decode` rejects, or `NO_ROOM` with the number of records in
/// `length` and that of the pool's bytes in `at`; nothing is written.
#[unsafe(no_mangle)]
pub extern "C" fn scaleview_decode_nodes(
    alloc: Global,
    registry: Lent,
    id: u32,
    depth: u16,
    limit: u64,
    memory: Allowance,
    bytes: &[u8],
    nodes: &mut [Record],
    pool: &mut [u8],
    answer: &mut Answer,
) -> u32
    ensures nodes { DecodesNodes registry.value id (record { depth = depth; bytes = limit })
        bytes.now nodes.old nodes.new pool.old pool.new answer.new }
    ensures code { result ≡ answer.new.code }
{
    let limits = Limits {
        depth,
        bytes: limit,
    };
    *answer = match registry.get() {
        Some(Resource::Registry(opened)) => match memory.budget(alloc) {
            Ok(budget) => write_nodes(&budget, opened, id, limits, bytes, nodes, pool),
            Err(refused) => Answer::of_refused(refused),
        },
        Some(Resource::Session(_)) | None => Answer::plain(NO_HANDLE),
    };
    answer.code
}

/// Ends the value of a session, and writes its nodes. The session keeps the value.
///
/// # Errors
///
/// `NO_HANDLE`, what `scaleview_finish` rejects, or `NO_ROOM` with the number of records in
/// `length` and that of the pool's bytes in `at`; nothing is written.
#[unsafe(no_mangle)]
pub extern "C" fn scaleview_finish_nodes(
    alloc: Global,
    session: &mut Handle,
    nodes: &mut [Record],
    pool: &mut [u8],
    answer: &mut Answer,
) -> u32
    ensures finished { FinishesNodes session.old.value session.new.value nodes.old nodes.new
        pool.old pool.new answer.new }
    ensures code { result ≡ answer.new.code }
{
    let Some(mut held) = held_by(alloc, mem::replace(session, Handle::none())) else {
        *answer = Answer::plain(NO_HANDLE);
        return NO_HANDLE;
    };
    *answer = match &mut *held {
        Resource::Session(session) => {
            session.end();
            put_stage(&session.stage, nodes, pool)
        }
        Resource::Registry(_) => Answer::plain(NO_HANDLE),
    };
    *session = handle_of(held);
    answer.code
}

/// Returns why no value of a type can be begun. It allocates nothing.
fn opening_fault(opened: &Opened, id: u32, depth: u16) -> Option<BuildFault>
    ensures { result ≡ build_opening_fault opened.now.checked.types id depth }
{
    if opened.checked.class(TypeId(id)).is_none() {
        return Some(BuildFault::UnknownType);
    }
    if depth > 1024 {
        return Some(BuildFault::OutOfRange);
    }
    None
}

/// Writes the bytes that spell the value whose nodes these records are, both in the budget.
fn write_encoded(
    budget: Result<CallBudget, Refused>,
    opened: &Opened,
    id: u32,
    depth: u16,
    nodes: &[Record],
    pool: &[u8],
    out: &mut [u8],
) -> Answer
    ensures { Encodes opened.now.checked.types id depth nodes.now pool.now out.old out.new result }
{
    // An unknown type and a limit out of range are reported whatever memory there is.
    if let Some(fault) = opening_fault(opened, id, depth) {
        return Answer::of_records(RecordFault::Open(fault));
    }
    let budget = match budget {
        Ok(budget) => budget,
        Err(refused) => return Answer::of_refused(refused),
    };
    let value_alloc = match clone_of(&budget.alloc) {
        Ok(alloc) => alloc,
        Err(refused) => return Answer::of_refused(refused),
    };
    match value_of_records(value_alloc, &opened.checked, TypeId(id), depth, nodes, pool) {
        Ok(value) => {
            let mut sink = Sink::new(Vec::new(budget.alloc));
            match encode(&value, &mut sink) {
                Ok(()) => put(out, sink.into_inner().as_slice()),
                // A vector refuses only for want of an allocation.
                Err(_) => Answer::of_refused(Refused::of_library()),
            }
        }
        Err(fault) => Answer::of_records(fault),
    }
}

/// Writes the bytes of the value, of the type at a position, whose nodes these records are. Of a
/// record, `ty` is read only if the node is a bit sequence.
///
/// # Errors
///
/// `NO_HANDLE`, `UNKNOWN_TYPE`, `LIMIT_OUT_OF_RANGE`, `MEMORY`, the code of the first record that
/// is rejected, with its position in `at`, or `NO_ROOM` with the number of bytes in `length`;
/// nothing is written.
#[unsafe(no_mangle)]
pub extern "C" fn scaleview_encode_nodes(
    alloc: Global,
    registry: Lent,
    id: u32,
    depth: u16,
    memory: Allowance,
    nodes: &[Record],
    pool: &[u8],
    out: &mut [u8],
    answer: &mut Answer,
) -> u32
    ensures bytes { EncodesNodes registry.value id depth nodes.now pool.now out.old out.new
        answer.new }
    ensures code { result ≡ answer.new.code }
{
    *answer = match registry.get() {
        Some(Resource::Registry(opened)) => {
            write_encoded(memory.budget(alloc), opened, id, depth, nodes, pool, out)
        }
        Some(Resource::Session(_)) | None => Answer::plain(NO_HANDLE),
    };
    answer.code
}
