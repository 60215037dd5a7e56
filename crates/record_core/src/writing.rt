//! Writes a value as records.

ghost use Rattle.std.specs.Prelude.{◌≡◌, ◌≤◌, ◌+◌, ◌++◌, length, take, drop};
ghost use Rattle.node_core.specs.Shown.{AreInPool, all_kept, cells_shown};
ghost use Rattle.record_core.specs.Records.{nodes_of, pool_of, records_from};
ghost use Rattle.record_core.specs.Written.{StandsIn, WritesNodes, room_of};

use crate::record::Record;
use node_core::{Node, Value, pooled};
use std::alloc::Allocator;

/// How much room the records of a value take.
#[derive(Clone, Copy, Debug, PartialEq, Eq)]
pub struct Room {
    /// The number of records: one for each node.
    pub records: usize,
    /// The number of bytes of texts, runs of bytes and 256-bit integers.
    pub pool: usize,
}

/// Returns how much room the records of these nodes take.
fn room_of(nodes: &[Node], bytes: &[u8]) -> Room
    requires inside { AreInPool bytes.now nodes.now }
    requires fits { all_kept nodes.now ≤ length bytes.now }
    ensures { result ≡ room_of (cells_shown bytes.now nodes.now) }
{
    let mut pool = 0;
    'nodes: for node in nodes {
        pool += pooled(node, bytes).len();
    }
    Room {
        records: nodes.len(),
        pool,
    }
}

/// Writes these bytes to the pool from position `at` on.
// Most nodes have none, and a copy of none is a call.
#[inline(always)]
fn put_part(pool: &mut [u8], at: usize, part: &[u8])
    requires { at + length part.now ≤ length pool.old }
    ensures placed { take (at + length part.now) pool.new ≡ take at pool.old ++ part.now }
    ensures rest { drop (at + length part.now) pool.new ≡ drop (at + length part.now) pool.old }
{
    if !part.is_empty() {
        pool[at..at + part.len()].copy_from_slice(part);
    }
}

/// Writes the records of these nodes to the front of `records`, and their bytes to the front of
/// `pool`. Returns how much room they take.
fn put_records(nodes: &[Node], bytes: &[u8], records: &mut [Record], pool: &mut [u8]) -> Room
    requires inside { AreInPool bytes.now nodes.now }
    requires records { length nodes.now ≤ length records.old }
    requires pool { length (pool_of (cells_shown bytes.now nodes.now)) ≤ length pool.old }
    ensures room { result ≡ room_of (cells_shown bytes.now nodes.now) }
    ensures records { StandsIn (records_from 0 (cells_shown bytes.now nodes.now)) records.old
        records.new }
    ensures pool { StandsIn (pool_of (cells_shown bytes.now nodes.now)) pool.old pool.new }
{
    let mut at = 0;
    'nodes: for (i, node) in nodes.iter().enumerate() {
        let part = pooled(node, bytes);
        records[i] = Record::of_node(node, bytes, at as u64);
        put_part(pool, at, part);
        at += part.len();
    }
    Room {
        records: nodes.len(),
        pool: at,
    }
}

/// Writes the records of a value to the front of `records`, one for each node in the order of their
/// bytes, and the bytes of its texts, runs of bytes and 256-bit integers, in the same order, to the
/// front of `pool`. Returns how much room they take.
///
/// If either doesn't fit, nothing is written. It allocates nothing.
pub fn write_records<A: Allocator>(
    value: &Value<'_, A>,
    records: &mut [Record],
    pool: &mut [u8],
) -> Room
    ensures room { result ≡ room_of (nodes_of value.now) }
    ensures written { WritesNodes (nodes_of value.now) records.old records.new pool.old pool.new }
{
    let (nodes, bytes) = value.parts();
    // The pool of a value is at least as long as that of its records, so both need not be measured.
    if nodes.len() <= records.len() && bytes.len() <= pool.len() {
        return put_records(nodes, bytes, records, pool);
    }
    let room = room_of(nodes, bytes);
    if room.records <= records.len() && room.pool <= pool.len() {
        put_records(nodes, bytes, records, pool);
    }
    room
}
