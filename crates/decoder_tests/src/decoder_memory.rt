//! Decoders whose allocations fail when they are created, fed or finished.

use crate::expect::{printed_as, same};
use decode_core::{DecodeFault, DecodeReason, Decoder, OpenFault, StreamFault};
use growth_core::Refused;
use linked_list_allocator::LocalHeap;
use scale_core::{Source, write_compact};
use scale_tests::building::{checked, is_written};
use scale_tests::paced::{PacedReader, Then};
use scale_tests::rationed::Rationed;
use scale_tests::registries::{NESTED, TEXT, TWO_UNITS_AND_A_BYTE, WORDS, nested_pairs};
use scale_tests::rows::AMPLE;
use std::alloc::{AllocError, Allocator, Global};
use std::process::Abort;
use test_calls::calls::{Holding, all_of, feed, finish, front_of, held, open, opening_fault};
use value_core::Value;
use widths_core::Checked;

/// The texts ab and éé, three runs of one, two and no bytes, and a chain of four arms.
const NESTED_BYTES: &[u8] =
    b"\x08ab\x0c\x04\x01\x08\x02\x03\x00\x01\x01\x01\x00\x10\xc3\xa9\xc3\xa9";

/// Returns the fault of a failed allocation.
pub(crate) fn refused() -> DecodeFault {
    DecodeFault {
        reason: DecodeReason::OutOfMemory(Refused::of_library()),
        at: 0,
    }
}

/// Returns the error of a decoder whose first allocation fails.
fn unopened() -> OpenFault {
    OpenFault::OutOfMemory(Refused::of_library())
}

/// Checks the error with which a decoder is created while this request fails.
fn check_opening(
    rt: &impl Abort,
    alloc: Global,
    checked: &Checked,
    request: u64,
    fault: Option<OpenFault>,
) {
    let memory = Rationed::new(alloc, request);
    same(rt, opening_fault(memory, checked, 5, AMPLE), fault);
}

/// Checks that no value is decoded from a piece while this request of a new decoder fails.
fn check_no_value(rt: &impl Abort, alloc: Global, checked: &Checked, request: u64) {
    let memory = Rationed::new(alloc, request);
    let Err(fault) = front_of(memory, checked, 5, AMPLE, &[NESTED_BYTES]) else {
        panic!(rt; "a value without a decoder");
    };
    printed_as(rt, alloc, fault, "OutOfMemory");
}

/// Checks that a reader is not read while this request of a new decoder fails.
fn check_no_read(rt: &impl Abort, alloc: Global, checked: &Checked, request: u64) {
    let memory = Rationed::new(alloc, request);
    let mut source = Source::new(PacedReader::new(b"", 1, Then::Fails));
    let fault = all_of(memory, checked, 5, AMPLE, &mut source).err();
    same(rt, fault, Some(StreamFault::Open(unopened())));
    same(rt, source.failed(), false);
}

// A decoder clones its allocator twice, for its nodes and for its bytes, and requests nothing else
// at first. Without a decoder no reader is read.
#[test]
fn memory_that_is_refused_at_first_makes_no_decoder(rt: HostRuntime) {
    let checked = checked(rt.alloc(), NESTED).expect(&rt, "a registry");
    'requests: for request in 1..=2 {
        check_opening(&rt, rt.alloc(), &checked, request, Some(unopened()));
        check_no_value(&rt, rt.alloc(), &checked, request);
        check_no_read(&rt, rt.alloc(), &checked, request);
    }
    check_opening(&rt, rt.alloc(), &checked, 3, None);
}

/// Feeds the nested value byte by byte. Returns the place of the byte at which an allocation fails,
/// or `None` if no allocation fails.
fn place_of_refusal<A: Allocator>(rt: &impl Abort, decoder: &mut Decoder<'_, A>) -> Option<u64> {
    'bytes: for (place, byte) in NESTED_BYTES.iter().enumerate() {
        if let Err(fault) = feed(decoder, &[*byte]) {
            same(rt, fault, refused());
            return Some(place as u64);
        }
    }
    None
}

/// Checks that a decoder whose allocation failed at this byte holds nothing, and that every later
/// call fails too.
fn check_refused<A: Allocator>(rt: &impl Abort, decoder: Decoder<'_, A>, place: u64) {
    let mut decoder = decoder;
    let taken = held(&decoder).taken;
    // The last byte of a run is taken before its node is allocated.
    let is_taken = taken == place || taken == place.saturating_add(1);
    same(rt, is_taken, true);
    let nothing = Holding {
        nodes: 0,
        texts: 0,
        taken,
    };
    same(rt, held(&decoder), nothing);
    'pieces: for piece in [b"".as_slice(), NESTED_BYTES] {
        same(rt, feed(&mut decoder, piece), Err(refused()));
        same(rt, held(&decoder), nothing);
    }
    same(rt, finish(decoder).err(), Some(refused()));
}

/// How the nested value is decoded.
#[derive(Clone, Copy)]
enum Way {
    Bytes,
    Pieces,
    Reader,
}

/// Decodes the nested value byte by byte. Returns `None` if an allocation fails.
fn value_of_bytes<'r, A: Allocator + Clone>(
    rt: &impl Abort,
    checked: &'r Checked,
    memory: A,
) -> Option<Value<'r, A>> {
    let mut decoder = open(memory, checked, 5, AMPLE).expect(rt, "a decoder");
    match place_of_refusal(rt, &mut decoder) {
        Some(place) => {
            check_refused(rt, decoder, place);
            None
        }
        None => finish(decoder).ok(),
    }
}

/// Decodes the nested value from two pieces. Returns `None` if an allocation fails.
fn value_of_pieces<'r, A: Allocator + Clone>(
    rt: &impl Abort,
    alloc: Global,
    checked: &'r Checked,
    memory: A,
) -> Option<Value<'r, A>> {
    let (front, rest) = NESTED_BYTES.split_at(8);
    match front_of(memory, checked, 5, AMPLE, &[front, rest]) {
        Ok((value, _)) => Some(value),
        Err(fault) => {
            printed_as(rt, alloc, fault, "OutOfMemory at 0");
            None
        }
    }
}

/// Decodes the nested value from a reader. Returns `None` if an allocation fails.
fn value_of_reader<'r, A: Allocator + Clone>(
    rt: &impl Abort,
    checked: &'r Checked,
    memory: A,
) -> Option<Value<'r, A>> {
    let mut source = Source::new(PacedReader::new(NESTED_BYTES, 3, Then::GoesOn));
    match all_of(memory, checked, 5, AMPLE, &mut source) {
        Ok(value) => Some(value),
        Err(fault) => {
            same(rt, fault, StreamFault::Decode(refused()));
            None
        }
    }
}

/// Decodes the nested value in this way. Returns `None` if an allocation fails.
fn value_of<'r, A: Allocator + Clone>(
    rt: &impl Abort,
    alloc: Global,
    checked: &'r Checked,
    memory: A,
    way: Way,
) -> Option<Value<'r, A>> {
    match way {
        Way::Bytes => value_of_bytes(rt, checked, memory),
        Way::Pieces => value_of_pieces(rt, alloc, checked, memory),
        Way::Reader => value_of_reader(rt, checked, memory),
    }
}

/// Decodes the nested value in this way. Returns whether an allocation fails, and checks the value
/// if none does.
fn fails_in<A: Allocator + Clone>(
    rt: &impl Abort,
    alloc: Global,
    checked: &Checked,
    memory: A,
    way: Way,
) -> bool {
    match value_of(rt, alloc, checked, memory, way) {
        Some(value) => {
            same(rt, is_written(alloc, &value, NESTED_BYTES), true);
            false
        }
        None => true,
    }
}

/// Decodes the nested value while this request fails. Returns whether the request is made: decoding
/// then fails, and it succeeds otherwise.
fn is_requested(
    rt: &impl Abort,
    alloc: Global,
    checked: &Checked,
    heap: &LocalHeap,
    (way, request): (Way, u64),
) -> bool {
    let memory = Rationed::new(heap, request);
    let is_refused = fails_in(rt, alloc, checked, &memory, way);
    let is_made = memory.is_past_refusal();
    same(rt, (request, is_refused), (request, is_made));
    same(rt, (request, heap.used() as u64), (request, 0));
    is_made
}

/// Decodes the nested value in this way while each request in turn fails, until one is not made.
/// Returns the number of that request, or 999 if each is made.
fn last_request(
    rt: &impl Abort,
    alloc: Global,
    checked: &Checked,
    heap: &LocalHeap,
    way: Way,
) -> u64 {
    'requests: for request in 1..999 {
        if !is_requested(rt, alloc, checked, heap, (way, request)) {
            return request;
        }
    }
    999
}

// Nodes, bytes of texts and runs, and open nodes are stored separately. Each store grows at least
// once.
#[test]
fn each_refused_growth_ends_the_decoder(rt: HostRuntime) {
    let checked = checked(rt.alloc(), NESTED).expect(&rt, "a registry");
    let heap = LocalHeap::new(rt.alloc(), 65_536).expect(&rt, "a heap");
    'ways: for way in [Way::Bytes, Way::Pieces, Way::Reader] {
        let last = last_request(&rt, rt.alloc(), &checked, &heap, way);
        same(&rt, (last, 3 < last && last < 999), (last, true));
    }
}

/// The bytes of a long value, its type, and the number of its nodes.
#[derive(Clone, Copy)]
struct Long<'c> {
    checked: &'c Checked,
    ty: u32,
    bytes: &'c [u8],
    nodes: u64,
}

/// Feeds the bytes in pieces of this length. Returns the error of the first piece that is rejected.
pub(crate) fn feed_all<A: Allocator>(
    decoder: &mut Decoder<'_, A>,
    bytes: &[u8],
    piece: usize,
) -> Option<DecodeFault> {
    'pieces: for bytes in bytes.chunks(piece.max(1)) {
        if let Err(fault) = feed(decoder, bytes) {
            return Some(fault);
        }
    }
    None
}

/// Feeds a long value in pieces of this many bytes while this request fails. Returns whether
/// feeding fails, as it does exactly if the request is made.
fn fails(rt: &impl Abort, alloc: Global, long: &Long<'_>, piece: usize, request: u64) -> bool {
    let memory = Rationed::new(alloc, request);
    let mut decoder = open(&memory, long.checked, long.ty, AMPLE).expect(rt, "a decoder");
    let fault = feed_all(&mut decoder, long.bytes, piece);
    let is_made = memory.is_past_refusal();
    let (wanted, nodes) = if is_made {
        (Some(refused()), 0)
    } else {
        (None, long.nodes)
    };
    same(rt, fault, wanted);
    same(rt, held(&decoder).nodes, nodes);
    is_made
}

/// Checks that feeding a long value in pieces of this many bytes makes this many requests.
fn check_requests(rt: &impl Abort, alloc: Global, long: &Long<'_>, piece: usize, requests: u8) {
    let requests = u64::from(requests);
    'requests: for request in 1..=requests + 1 {
        let made = fails(rt, alloc, long, piece, request);
        same(rt, (request, made), (request, request <= requests));
    }
}

/// Returns the encoded length of a text or a sequence, and `count` bytes `a` after it.
pub(crate) fn letters(alloc: Global, length: u32, count: usize) -> Result<Vec<u8>, AllocError> {
    let mut bytes = Vec::new(alloc);
    write_compact(&mut bytes, u128::from(length))?;
    let letters = vec![in alloc; b'a'; count]?;
    bytes.extend_from_slice(&letters)?;
    Ok(bytes)
}

// The list of open nodes is allocated once, and that of nodes with a capacity of 16. It then grows
// in six steps, each at most fourfold, to the capacity that the remaining words are expected to
// need. Growth without that expectation would take twelve more requests. The sizes of the pieces
// make no difference.
#[test]
fn a_long_list_makes_room_ahead(rt: HostRuntime) {
    let checked = checked(rt.alloc(), WORDS).expect(&rt, "a registry");
    let bytes = letters(rt.alloc(), 20_000, 40_000).expect(&rt, "memory");
    let long = Long {
        checked: &checked,
        ty: 1,
        bytes: bytes.as_slice(),
        nodes: 20_001,
    };
    'pieces: for piece in [50_000, 4096, 7] {
        check_requests(&rt, rt.alloc(), &long, piece, 8);
    }
}

// The first allocation is for the bytes of the first piece, and the last is for the node. In
// between, the capacity grows three times towards the length of the text, each time at most
// fourfold.
#[test]
fn a_long_text_in_pieces_makes_room_ahead(rt: HostRuntime) {
    let checked = checked(rt.alloc(), TEXT).expect(&rt, "a registry");
    let bytes = letters(rt.alloc(), 40_000, 40_000).expect(&rt, "memory");
    let long = Long {
        checked: &checked,
        ty: 0,
        bytes: bytes.as_slice(),
        nodes: 1,
    };
    check_requests(&rt, rt.alloc(), &long, 1000, 5)
}

/// Finishes an unfed decoder while this request fails. Returns whether the request was made.
fn fails_to_finish(
    rt: &impl Abort,
    checked: &Checked,
    ty: u32,
    memory: &Rationed<&LocalHeap>,
    untroubled: Option<DecodeFault>,
) -> bool {
    let decoder = open(memory, checked, ty, AMPLE).expect(rt, "a decoder");
    let reported = finish(decoder).err();
    let is_made = memory.is_past_refusal();
    same(
        rt,
        reported,
        if is_made { Some(refused()) } else { untroubled },
    );
    is_made
}

/// Finishes unfed decoders while each request in turn fails, until one is not made. Returns how
/// many are made, or 999 if each is made.
fn requests_to_finish(
    rt: &impl Abort,
    checked: &Checked,
    heap: &LocalHeap,
    ty: u32,
    untroubled: Option<DecodeFault>,
) -> u64 {
    'requests: for request in 1..1000u64 {
        let memory = Rationed::new(heap, request);
        if !fails_to_finish(rt, checked, ty, &memory, untroubled) {
            return request - 1;
        }
        same(rt, (request, heap.used() as u64), (request, 0));
    }
    999
}

/// Finishes unfed decoders while each request in turn fails, and one while no request fails.
fn check_finishes(
    rt: &impl Abort,
    alloc: Global,
    registry: &[u8],
    ty: u32,
    untroubled: Option<DecodeFault>,
) {
    let checked = checked(alloc, registry).expect(rt, "a registry");
    let heap = LocalHeap::new(alloc, 65_536).expect(rt, "a heap");
    let made = requests_to_finish(rt, &checked, &heap, ty, untroubled);
    same(rt, (made, 0 < made && made < 999), (made, true));
}

// A value without bytes, and the nodes before the first byte, are built when the decoder is
// finished if it was not fed before. A missing byte is reported only after that.
#[test]
fn an_unfed_decoder_may_be_refused_memory(rt: HostRuntime) {
    let pairs = nested_pairs(rt.alloc()).expect(&rt, "memory");
    check_finishes(&rt, rt.alloc(), &pairs, 40, None);
    let cut = DecodeFault {
        reason: DecodeReason::Truncated,
        at: 0,
    };
    check_finishes(&rt, rt.alloc(), TWO_UNITS_AND_A_BYTE, 2, Some(cut))
}
