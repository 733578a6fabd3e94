//! Frames and mutators of a client, whose way to the heap is a reference or a count.

use crate::Shared;
use brc_thread::Heap;
use std::alloc::Global;

/// The references of one thread, and what is done with them.
pub type Frame<'h, A = Global> = brc_count::Frame<&'h Heap<A>, A>;

/// A thread that is registered: what it works with.
pub type Mutator<'h, A = Global> = brc_thread::Mutator<&'h Heap<A>, A>;

/// A thread of a heap by a count: it names no lifetime, so it can lie in any struct.
pub type SharedMutator = brc_thread::Mutator<Shared, Global>;

/// A thread that has left: it deals with what others asked of it before.
pub type Leaving<'h, A = Global> = brc_thread::Leaving<&'h Heap<A>, A>;
