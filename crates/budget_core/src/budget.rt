//! A budget of bytes over another allocator.

ghost use Rattle.std.specs.Prelude.{IfOk, ◌≡◌, ◌+◌, ◌*◌, ◌^◌, ◌-◌, ◌<◌, MatchOption, min};
ghost use Rattle.budget_core.specs.Bytes.{budget_bytes};

use growth_core::{Refused, clone_of, reported};
use std::alloc::{AllocError, Allocator};
use std::cell::Cell;
use std::mem::size_of;
use std::rc::Rc;

/// An allocator that hands out no more than a number of bytes at once.
///
/// It passes requests on to another allocator, and refuses those for more bytes than are left. A
/// block that is freed gives its bytes back. All clones of a budget share what is left of it.
///
/// A vector whose block grows takes only the bytes that are added, even while the other allocator
/// moves the block. What moves its values to a new block by itself, as a vector that shrinks or a
/// deque that grows, takes that block before it frees the old one, so both count then.
pub struct Budget<B: Allocator> {
    inner: B,
    shared: Rc<Shared, B>,
}

/// What all clones of a budget share.
#[derive(Drop)]
struct Shared {
    /// The number of bytes that the budget is made of. Contracts alone read it.
    bytes: u64,
    left: Cell<u64>,
}

impl<B: Allocator + Clone> Budget<B> {
    /// Creates a budget of this many bytes over another allocator. 0 stands for no budget: only the
    /// other allocator refuses then.
    ///
    /// The count of the bytes that are left is allocated too, and is not part of the budget.
    ///
    /// # Errors
    ///
    /// `Refused` if the allocation of the count fails, or a clone of `alloc`.
    pub fn new(alloc: B, bytes: u64) -> Result<Budget<B>, Refused>
        ensures inner { IfOk result (λ budget. budget.inner ≡ alloc) }
        ensures bytes { IfOk result (λ budget. budget_bytes budget ≡ bytes) }
    {
        let shared = Shared {
            bytes,
            left: Cell::new(allowed(bytes)),
        };
        let shared = reported(Rc::new(clone_of(&alloc)?, shared))?;
        Ok(Budget {
            inner: alloc,
            shared,
        })
    }
}

impl<B: Allocator> Drop for Budget<B> {
    fn drop(self) {
        let Self {
            inner: _,
            shared: _,
        } = self;
    }
}

impl<B: Allocator + Clone> Clone for Budget<B> {
    ghost is_clone = { λ budget copy. B.is_clone budget.inner copy.inner
        × (budget_bytes copy ≡ budget_bytes budget) };

    fn clone(&self) -> Result<Budget<B>, AllocError> {
        let inner = self.inner.clone()?;
        let shared = self.shared.clone()?;
        Ok(Budget { inner, shared })
    }
}

/// Returns how many bytes a budget has at first, where 0 stands for no budget.
fn allowed(bytes: u64) -> u64
    ensures none { bytes ≡ 0 → result ≡ 2 ^ 64 - 1 }
    ensures given { 0 < bytes → result ≡ bytes }
{
    if bytes == 0 { u64::MAX } else { bytes }
}

/// Returns how many bytes are left after a request for `size` of them, or `None` if fewer are left.
fn after_taking(left: u64, size: u64) -> Option<u64>
    ensures { MatchOption result (left < size) (λ rest. rest + size ≡ left) }
{
    left.checked_sub(size)
}

/// Returns how many bytes are left once `size` of them are back. A count of 2^64 - 1 stays.
fn after_return(left: u64, size: u64) -> u64
    ensures { result ≡ min (left + size) (2 ^ 64 - 1) }
{
    left.saturating_add(size)
}

/// Returns how many bytes a block grows by from `old_cap` to `new_cap` values of `size` bytes each.
/// A count above 2^64 - 1 is 2^64 - 1.
fn growth(old_cap: usize, new_cap: usize, size: usize) -> usize
    ensures { result ≡ min ((new_cap - old_cap) * size) (2 ^ 64 - 1) }
{
    new_cap.saturating_sub(old_cap).saturating_mul(size)
}

/// Takes `size` bytes from those that are left. Returns `false`, and takes none, if fewer are left.
fn take<B: Allocator>(shared: &Rc<Shared, B>, size: usize) -> bool {
    match after_taking(shared.left.get(), size as u64) {
        Some(rest) => {
            shared.left.set(rest);
            true
        }
        None => false,
    }
}

/// Gives `size` bytes back to those that are left.
fn give_back<B: Allocator>(shared: &Rc<Shared, B>, size: usize) {
    shared
        .left
        .set(after_return(shared.left.get(), size as u64));
}

unsafe impl<B: Allocator> Allocator for Budget<B> {
    ghost dealloc_token = { λ budget ty ptr. B.dealloc_token budget.inner ty ptr };

    fn allocate(&self, size: usize, align: usize) -> Result<*mut u8, AllocError> {
        if !take(&self.shared, size) {
            return Err(AllocError);
        }
        match self.inner.allocate(size, align) {
            Ok(block) => Ok(block),
            Err(_) => {
                give_back(&self.shared, size);
                Err(AllocError)
            }
        }
    }

    unsafe fn deallocate(&self, ptr: *mut u8, size: usize, align: usize) {
        give_back(&self.shared, size);
        self.inner.deallocate(ptr, size, align);
    }

    unsafe fn grow<T>(
        &self,
        ptr: *mut T,
        len: usize,
        old_cap: usize,
        new_cap: usize,
    ) -> Result<*mut T, AllocError> {
        let more = growth(old_cap, new_cap, size_of::<T>());
        if !take(&self.shared, more) {
            return Err(AllocError);
        }
        match self.inner.grow(ptr, len, old_cap, new_cap) {
            Ok(block) => Ok(block),
            Err(_) => {
                give_back(&self.shared, more);
                Err(AllocError)
            }
        }
    }
}
