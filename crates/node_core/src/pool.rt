//! Texts, runs of bytes and long integers in the pool beside a value's nodes.

ghost use Rattle.std.specs.Prelude.{◌≡◌, ◌<◌, ◌≤◌, ◌+◌, ◌-◌, ◌*◌, ◌^◌, ◌++◌, length, IfOk, IfErr};
ghost use Rattle.std.specs.Prelude.{OnOk};
ghost use Rattle.std.specs.Prelude.{OnErr};
ghost use Rattle.std.specs.Int.{w128, to_le_bytes};
ghost use Rattle.node_core.specs.Shown.{long_shown};

use growth_core::{GrowVec, Refused};
use std::alloc::Allocator;

/// The bytes reserved for the first long integer of a pool. Four integers fit, so that a value with
/// a few of them allocates once.
const AT_ONCE: usize = 64;

/// One more than the greatest number that eight bytes hold.
const HALF: u128 = 1 << 64;

/// Appends the bytes of a text or a run, and returns how many they are.
///
/// # Errors
///
/// If an allocation fails; the pool is unchanged.
#[inline(always)]
pub(crate) fn put_run<A: Allocator>(pool: &mut GrowVec<u8, A>, bytes: &[u8]) -> Result<u32, Refused>
    requires { length bytes.now < 2 ^ 32 }
    ensures len { IfOk result (λ len. len ≡ length bytes.now) }
    ensures ok { IfOk result (λ _. pool.new.list.items ≡ pool.old.list.items ++ bytes.now) }
    ensures err { IfErr result (λ _. pool.new.list.items ≡ pool.old.list.items) }
{
    pool.extend_from_slice(bytes, None)?;
    Ok(bytes.len() as u32)
}

/// Returns how many bits words of this many bytes stand for, if so many are unused.
pub fn bit_count(unused: u8, len: u32) -> u32
    requires { 8 * len < 2 ^ 32 + unused }
    ensures { result ≡ 8 * len - unused }
{
    (8 * u64::from(len)).saturating_sub(u64::from(unused)) as u32
}

/// Appends a piece of a run at whose end the pool has `whole` bytes.
///
/// # Errors
///
/// If an allocation fails; the pool is unchanged.
// Short pieces are mostly of one byte, which takes a store and no copy.
#[inline(always)]
pub fn put_piece<A: Allocator>(
    pool: &mut GrowVec<u8, A>,
    piece: &[u8],
    whole: usize,
) -> Result<(), Refused>
    ensures ok { OnOk result (pool.new.list.items ≡ pool.old.list.items ++ piece.now) }
    ensures err { OnErr result (pool.new.list.items ≡ pool.old.list.items) }
{
    let missing = whole.saturating_sub(pool.len());
    if let [byte] = *piece {
        pool.make_room(1, Some(missing))?;
        pool.push_reserved(byte);
        return Ok(());
    }
    pool.extend_from_slice(piece, Some(missing))
}

/// Appends the sixteen bytes of an integer in little-endian order, and returns their position.
///
/// # Errors
///
/// If an allocation fails; the pool is unchanged.
#[inline(never)]
pub(crate) fn put_long<A: Allocator>(
    pool: &mut GrowVec<u8, A>,
    number: u128,
) -> Result<usize, Refused>
    ensures place { IfOk result (λ start. start ≡ length pool.old.list.items) }
    ensures ok { IfOk result
        (λ _. pool.new.list.items ≡ pool.old.list.items ++ to_le_bytes w128 number) }
    ensures err { IfErr result (λ _. pool.new.list.items ≡ pool.old.list.items) }
{
    let start = pool.len();
    if !pool.has_room(16) {
        pool.make_room(AT_ONCE, None)?;
    }
    // Eight bytes are one store. The sixteen of the whole number would be moved to a vector
    // register one by one.
    pool.extend_from_slice(&((number % HALF) as u64).to_le_bytes(), None)?;
    pool.extend_from_slice(&((number / HALF) as u64).to_le_bytes(), None)?;
    Ok(start)
}

/// Returns the integer whose sixteen little-endian bytes begin at a position of the pool.
#[inline(never)]
pub fn long_at(pool: &[u8], start: usize) -> u128
    requires { start + 16 ≤ length pool.now }
    ensures { result ≡ long_shown pool.now start }
{
    let mut bytes = [0; 16];
    bytes.copy_from_slice(&pool[start..start + 16]);
    u128::from_le_bytes(bytes)
}
