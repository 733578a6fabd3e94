//! Memory that is bounded: a heap whose pieces are all taken and come back one by one.

use linked_list_allocator::LocalHeap;
use std::alloc::{AllocError, Global};

/// The memories of a test: one that is enough for all, and one that may not be.
#[derive(Clone, Copy)]
pub struct Memories<A> {
    pub ample: A,
    pub scarce: A,
}

/// Two heaps that are the memories of a test.
#[derive(Drop)]
pub struct Heaps {
    ample: LocalHeap,
    scarce: LocalHeap,
}

impl Heaps {
    /// Heaps of so many bytes each.
    pub fn new(alloc: Global, ample: usize, scarce: usize) -> Result<Heaps, AllocError> {
        Ok(Heaps {
            ample: LocalHeap::new(alloc, ample)?,
            scarce: LocalHeap::new(alloc, scarce)?,
        })
    }

    /// Both of them.
    pub fn memories(&self) -> Memories<&LocalHeap> {
        Memories {
            ample: &self.ample,
            scarce: &self.scarce,
        }
    }

    /// How much of each is in use.
    pub fn used(&self) -> (usize, usize) {
        (self.ample.used(), self.scarce.used())
    }
}

/// The pieces of a heap that are taken, of 16 bytes each.
#[derive(Drop)]
pub struct Pieces<'h> {
    heap: &'h LocalHeap,
    taken: Vec<Box<u8, &'h LocalHeap>>,
}

impl<'h> Pieces<'h> {
    /// Takes all that the heap has left; None where a million pieces aren't all, or can't be noted.
    pub fn take_all(alloc: Global, heap: &'h LocalHeap) -> Option<Pieces<'h>> {
        let mut taken = Vec::new(alloc);
        for _ in 0..1_000_000 {
            let Ok(piece) = Box::new(heap, 0u8) else {
                return Some(Pieces { heap, taken });
            };
            if taken.push(piece).is_err() {
                return None;
            }
        }
        None
    }

    /// The heap has one piece more; false where none is left.
    pub fn give_one(&mut self) -> bool {
        self.taken.pop().is_some()
    }

    /// How much of the heap is in use, the pieces that are taken aside.
    pub fn used(&self) -> usize {
        self.heap
            .used()
            .wrapping_sub(self.taken.len().wrapping_mul(16))
    }
}
