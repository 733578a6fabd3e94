//! Where a counter finds its table. The heap is a type parameter of what stands above, so that none of it names a
//! lifetime.

ghost use Rattle.std.specs.Prelude.{◌≡◌};
ghost use Rattle.brc_table.specs.Seated.{TableSeen};

use brc_table::HeapTable;
use std::alloc::Allocator;

/// What leads to the table of a heap. Counting waits for nobody only as far as `table` doesn't: a reference is there at
/// once, and another `HasTable` has to say so of itself.
pub trait HasTable<A: Allocator> {
    ghost seen: { Self → TableSeen };

    /// The table.
    fn table(&self) -> &HeapTable<A>
        ensures { result.now ≡ seen self.now };
}

impl<'h, A: Allocator> HasTable<A> for &'h HeapTable<A> {
    ghost seen = { λ heap. heap.now };

    fn table(&self) -> &HeapTable<A> {
        self
    }
}
