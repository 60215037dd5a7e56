//! The calls on a session, a value whose bytes come in pieces.

ghost use Rattle.std.specs.Prelude.{◌≡◌, None, Some};
ghost use Rattle.scaleview_c.specs.Calls.{Feeds, FinishesSession, Frees, StartsBox};
ghost use Rattle.scaleview_c.specs.Calls.{ReportsCount, StartsHandle};
ghost use Rattle.scaleview_c.specs.Calls.{bytes_taken, call_bytes, nodes_held, text_bytes_held};
ghost use Rattle.scaleview_c.specs.declared.resource.Resource.TheVariants as held;
ghost use Rattle.scaleview_c.specs.Kept.{CountsStart, GivesSession};

use crate::allowance::{Allowance, CallBudget};
use crate::handle::{Handle, handle_of, held_by};
use crate::keeper::{Heap, Keeper, lend, take_back};
use crate::lent::Lent;
use crate::opened::Opened;
use crate::resource::Resource;
use crate::session::{Session, Stage};
use c_answers::{Answer, NO_HANDLE, OK, TAKEN};
use decode_core::Decoder;
use growth_core::{clone_of, reported};
use registry_core::TypeId;
use scale_calls::ValueRefusal;
use std::alloc::Global;
use std::mem;
use value_core::Limits;

/// Creates a session that has taken no bytes, in this budget.
fn session_in(
    budget: CallBudget,
    registry: &'static Opened,
    id: u32,
    limits: Limits,
) -> Result<Session, ValueRefusal>
    ensures { StartsBox held.Session registry.now id limits (call_bytes budget) result }
{
    let decoder = Decoder::new(
        clone_of(&budget.alloc)?,
        &registry.checked,
        TypeId(id),
        limits,
    )?;
    Ok(Session {
        stage: Stage::Decoding(decoder),
        registry,
        budget,
    })
}

/// Creates a session that has taken no bytes, in a budget of this memory.
fn started(
    alloc: Global,
    registry: &'static Opened,
    id: u32,
    limits: Limits,
    memory: Allowance,
) -> Result<Box<Resource>, ValueRefusal>
    ensures { StartsBox (λ held. held.value) registry.now id limits memory.bytes result }
{
    let session = session_in(memory.budget(alloc)?, registry, id, limits)?;
    Ok(reported(Box::new(alloc, Resource::Session(session)))?)
}

/// Starts a session of a registry behind a null handle, and counts it.
pub fn start_in<K: Keeper>(
    alloc: Global,
    keeper: &mut K,
    registry: Lent,
    id: u32,
    limits: Limits,
    memory: Allowance,
    session: &mut Handle,
) -> Answer
    ensures started { StartsHandle session.old.value registry.value id limits
        memory.bytes session.new.value result }
    ensures counted { CountsStart K.counts keeper.old session.old.value registry.value
        session.new.value keeper.new }
{
    if let Some(held) = held_by(alloc, mem::replace(session, Handle::none())) {
        *session = handle_of(held);
        return Answer::plain(TAKEN);
    }
    match registry.get() {
        Some(Resource::Registry(opened)) => match started(alloc, opened, id, limits, memory) {
            Ok(held) => {
                lend(keeper, opened);
                *session = handle_of(held);
                Answer::plain(OK)
            }
            Err(refusal) => Answer::of_value(refusal),
        },
        Some(Resource::Session(_)) | None => Answer::plain(NO_HANDLE),
    }
}

/// Starts a value of the type at a position, behind a null handle.
#[unsafe(no_mangle)]
pub extern "C" fn scaleview_start(
    alloc: Global,
    registry: Lent,
    id: u32,
    depth: u16,
    limit: u64,
    memory: Allowance,
    session: &mut Handle,
    answer: &mut Answer,
) -> u32
    ensures started { StartsHandle session.old.value registry.value id (record {
      depth = depth;
      bytes = limit;
    }) memory.bytes session.new.value answer.new }
    ensures code { result ≡ answer.new.code }
{
    let limits = Limits {
        depth,
        bytes: limit,
    };
    *answer = start_in(alloc, &mut Heap {}, registry, id, limits, memory, session);
    answer.code
}

/// Feeds the next piece.
#[unsafe(no_mangle)]
pub extern "C" fn scaleview_feed(
    alloc: Global,
    session: &mut Handle,
    piece: &[u8],
    answer: &mut Answer,
) -> u32
    ensures fed { Feeds session.old.value piece.now session.new.value answer.new }
    ensures code { result ≡ answer.new.code }
{
    let Some(mut held) = held_by(alloc, mem::replace(session, Handle::none())) else {
        *answer = Answer::plain(NO_HANDLE);
        return NO_HANDLE;
    };
    *answer = match &mut *held {
        Resource::Session(session) => session.stage.feed(piece),
        Resource::Registry(_) => Answer::plain(NO_HANDLE),
    };
    *session = handle_of(held);
    answer.code
}

/// Reports the number of bytes taken of all pieces.
#[unsafe(no_mangle)]
pub extern "C" fn scaleview_taken(alloc: Global, session: &mut Handle, answer: &mut Answer) -> u32
    ensures reported { ReportsCount bytes_taken session.old.value session.new.value answer.new }
    ensures code { result ≡ answer.new.code }
{
    let Some(held) = held_by(alloc, mem::replace(session, Handle::none())) else {
        *answer = Answer::plain(NO_HANDLE);
        return NO_HANDLE;
    };
    *answer = match &*held {
        Resource::Session(session) => Answer::counted(OK, session.stage.taken()),
        Resource::Registry(_) => Answer::plain(NO_HANDLE),
    };
    *session = handle_of(held);
    answer.code
}

/// Reports the number of nodes held.
#[unsafe(no_mangle)]
pub extern "C" fn scaleview_nodes(alloc: Global, session: &mut Handle, answer: &mut Answer) -> u32
    ensures reported { ReportsCount nodes_held session.old.value session.new.value answer.new }
    ensures code { result ≡ answer.new.code }
{
    let Some(held) = held_by(alloc, mem::replace(session, Handle::none())) else {
        *answer = Answer::plain(NO_HANDLE);
        return NO_HANDLE;
    };
    *answer = match &*held {
        Resource::Session(session) => Answer::counted(OK, session.stage.nodes()),
        Resource::Registry(_) => Answer::plain(NO_HANDLE),
    };
    *session = handle_of(held);
    answer.code
}

/// Reports the number of bytes of texts and runs held.
#[unsafe(no_mangle)]
pub extern "C" fn scaleview_text_bytes(
    alloc: Global,
    session: &mut Handle,
    answer: &mut Answer,
) -> u32
    ensures reported { ReportsCount text_bytes_held session.old.value session.new.value answer.new }
    ensures code { result ≡ answer.new.code }
{
    let Some(held) = held_by(alloc, mem::replace(session, Handle::none())) else {
        *answer = Answer::plain(NO_HANDLE);
        return NO_HANDLE;
    };
    *answer = match &*held {
        Resource::Session(session) => Answer::counted(OK, session.stage.text_bytes()),
        Resource::Registry(_) => Answer::plain(NO_HANDLE),
    };
    *session = handle_of(held);
    answer.code
}

/// Ends the value, and writes its JSON.
#[unsafe(no_mangle)]
pub extern "C" fn scaleview_finish(
    alloc: Global,
    session: &mut Handle,
    out: &mut [u8],
    answer: &mut Answer,
) -> u32
    ensures finished { FinishesSession session.old.value session.new.value out.old
        out.new answer.new }
    ensures code { result ≡ answer.new.code }
{
    let Some(mut held) = held_by(alloc, mem::replace(session, Handle::none())) else {
        *answer = Answer::plain(NO_HANDLE);
        return NO_HANDLE;
    };
    *answer = match &mut *held {
        Resource::Session(session) => {
            session.end();
            session.stage.put(&session.budget, out)
        }
        Resource::Registry(_) => Answer::plain(NO_HANDLE),
    };
    *session = handle_of(held);
    answer.code
}

/// Gives back the box of a session, which its registry no longer counts.
pub fn free_in<K: Keeper>(alloc: Global, keeper: &mut K, session: &mut Handle) -> u32
    ensures freed { Frees session.old.value session.new.value result }
    ensures given_back { GivesSession K.counts K.takes keeper.old session.old.value keeper.new }
{
    let Some(held) = held_by(alloc, mem::replace(session, Handle::none())) else {
        return NO_HANDLE;
    };
    if let Resource::Session(ended) = &*held {
        take_back(keeper, ended.registry);
        keeper.take(held);
        return OK;
    }
    *session = handle_of(held);
    NO_HANDLE
}

/// Frees a session.
#[unsafe(no_mangle)]
pub extern "C" fn scaleview_free(alloc: Global, session: &mut Handle) -> u32
    ensures { Frees session.old.value session.new.value result }
{
    free_in(alloc, &mut Heap {}, session)
}
