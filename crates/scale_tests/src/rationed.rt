//! An allocator that fails one request and serves all others.

use std::alloc::{AllocError, Allocator};
use std::cell::Cell;

/// An allocator that counts its requests and fails one of them. It passes all others on to another
/// allocator. A clone is a request too, and counts separately from then on.
pub struct Rationed<B: Allocator> {
    inner: B,
    until_refusal: Cell<u64>,
}

impl<B: Allocator> Rationed<B> {
    /// Creates an allocator that fails the request of this number, counted from 1. With 0, no
    /// request fails.
    pub fn new(inner: B, refused: u64) -> Rationed<B> {
        Rationed {
            inner,
            until_refusal: Cell::new(refused),
        }
    }

    /// Returns whether the failing request was made already, or there is none.
    pub fn is_past_refusal(&self) -> bool {
        self.until_refusal.get() == 0
    }
}

impl<B: Allocator> Drop for Rationed<B> {
    fn drop(self) {
        let Self {
            inner: _,
            until_refusal: _,
        } = self;
    }
}

impl<B: Allocator + Clone> Clone for Rationed<B> {
    fn clone(&self) -> Result<Rationed<B>, AllocError> {
        if is_refused(&self.until_refusal) {
            return Err(AllocError);
        }
        let inner = self.inner.clone()?;
        Ok(Rationed::new(inner, self.until_refusal.get()))
    }
}

/// Counts a request, and returns whether it is the one that fails.
fn is_refused(until_refusal: &Cell<u64>) -> bool {
    let left = until_refusal.get();
    until_refusal.set(left.saturating_sub(1));
    left == 1
}

unsafe impl<B: Allocator> Allocator for Rationed<B> {
    ghost dealloc_token = { λ rationed ty ptr. B.dealloc_token rationed.inner ty ptr };

    fn allocate(&self, size: usize, align: usize) -> Result<*mut u8, AllocError> {
        if is_refused(&self.until_refusal) {
            Err(AllocError)
        } else {
            self.inner.allocate(size, align)
        }
    }

    unsafe fn deallocate(&self, ptr: *mut u8, size: usize, align: usize) {
        self.inner.deallocate(ptr, size, align);
    }
}
