//! `Refusing`: an allocator over another one, which rejects the allocation that a test chooses.

use crate::counts::Counts;
use std::alloc::{AllocError, Allocator, Global};

/// An allocator that uses another one, and rejects the allocation that a test chooses. A `&` to it is an
/// allocator too, which collections copy: all of them are counted here together.
pub struct Refusing<A: Allocator = Global> {
    inner: A,
    counts: Counts,
}

impl<A: Allocator> Refusing<A> {
    /// An allocator that rejects nothing.
    pub fn new(inner: A) -> Refusing<A> {
        Refusing {
            inner,
            counts: Counts::new(),
        }
    }

    /// From now on the allocations are counted from 0 again, and that of this number is rejected; `None` rejects none.
    /// A block that grows counts as an allocation.
    pub fn refuse(&self, number: Option<u32>) {
        self.counts.asked.set(0);
        self.counts.refused.set(number);
    }

    /// How many allocations were asked since the last choice, with the one that was rejected.
    pub fn asked(&self) -> u32 {
        self.counts.asked.get()
    }

    /// How many blocks are out: they were given to callers, and not given back.
    pub fn held(&self) -> u32 {
        self.counts.held.get()
    }
}

impl<A: Allocator> Drop for Refusing<A> {
    fn drop(self) {
        let Refusing {
            inner: _,
            counts: _,
        } = self;
    }
}

unsafe impl<A: Allocator> Allocator for Refusing<A> {
    ghost dealloc_token = { λ heap ty ptr. A.dealloc_token heap.inner ty ptr };

    fn allocate(&self, size: usize, align: usize) -> Result<*mut u8, AllocError> {
        if self.counts.is_refused() {
            return Err(AllocError);
        }
        match self.inner.allocate(size, align) {
            Ok(block) => {
                self.counts.take();
                Ok(block)
            }
            Err(error) => Err(error),
        }
    }

    unsafe fn deallocate(&self, ptr: *mut u8, size: usize, align: usize) {
        self.counts.give();
        self.inner.deallocate(ptr, size, align);
    }
}
