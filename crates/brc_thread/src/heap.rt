//! The heap that threads share.

ghost use Rattle.std.specs.Prelude.{◌≡◌, ◌↔◌, ◌⊎◌, Err, IfOk, IfErr};
ghost use Rattle.brc_words.specs.declared.fault.Fault.TheVariants as faults;
ghost use Rattle.brc_count.specs.law.world.Heap.{AreOptions};
ghost use Rattle.brc_count.specs.law.rule.Opening.{first_view};
ghost use Rattle.brc_count.specs.table.Seated.{TableSeen};

use crate::root::Root;
use brc_count::Ledger;
use brc_count::biased::HasTable;
use brc_count::table::{HeapTable, Rest};
use brc_words::{Fault, MOST_LOCAL};
use std::alloc::{Allocator, Global};
use std::marker::Model;

/// How large a heap is.
#[derive(Clone, Copy, Debug, PartialEq, Eq)]
pub struct Options {
    /// How many cells it has, from 512 to 65,536. The first 266 are immortals.
    pub cells: u32,
    /// Up to how many references an object's owner counts on its own, from 1 to 4,294,967,294.
    pub local_limit: u32,
}

impl Options {
    /// 4,096 cells, of which 3,830 are for objects, and the largest limit.
    pub const DEFAULT: Options = Options {
        cells: 4_096,
        local_limit: MOST_LOCAL,
    };

    /// The name of before of `DEFAULT`.
    pub const USUAL: Options = Options::DEFAULT;
}

impl Default for Options {
    ghost use Rattle.std.specs.Prelude.{◌≡◌};
    ghost use Rattle.brc_words.specs.declared.limits.TheConstants.{MOST_LOCAL};

    ghost is_default = { λ o. (o.cells ≡ 4096) × (o.local_limit ≡ MOST_LOCAL) };

    fn default() -> Options {
        Options::DEFAULT
    }
}

/// The words and blocks of one heap. All threads share it by reference; it must be taken apart in the end.
pub struct Heap<A: Allocator = Global> {
    pub(crate) table: HeapTable<A>,
}

impl<A: Allocator> Model for Heap<A> {
    ghost use Rattle.brc_count.specs.table.Seated.{TableSeen};

    ghost Value = { TableSeen };

    ghost view = { λ h. h.table };
}

impl<A: Allocator + Copy> Heap<A> {
    /// A heap with its immortals, and the root that registers its threads. BadOptions, looked at first, where a size is
    /// out of its range; OutOfMemory where the words or a block can't be had. No call of a thread asks for words or
    /// blocks again but those that make an object or say so.
    pub fn new(alloc: A, options: Options) -> Result<(Heap<A>, Root<A>), Fault>
        ensures sizes { IfOk result
            (λ made. (made.0.cells ≡ options.cells) × (made.0.local_limit ≡ options.local_limit)) }
        ensures root { IfOk result (λ made. made.1.table ≡ made.0.table) }
        ensures view { IfOk result (λ made. made.1.view ≡ first_view) }
        ensures options { (result ≡ Err faults.BadOptions) ↔ ¬ (AreOptions options.cells options.local_limit) }
        ensures refused { IfErr result (λ fault. (fault ≡ faults.BadOptions) ⊎ (fault ≡ faults.OutOfMemory)) }
    {
        match HeapTable::new(alloc, options.cells, options.local_limit) {
            Ok((table, seat)) => {
                let root = Root {
                    seat,
                    registered: 0,
                    gathered: 0,
                    ledger: Ledger {
                        allocs: 0,
                        frees: 0,
                    },
                };
                Ok((Heap { table }, root))
            }
            Err(fault) => Err(fault),
        }
    }
}

impl<'h, A: Allocator> HasTable<A> for &'h Heap<A> {
    ghost seen = { λ heap. heap.now };

    fn table(&self) -> &HeapTable<A> {
        &self.table
    }
}

impl<A: Allocator> Heap<A> {
    /// Its table, for a `HasTable` of one's own that leads to the heap.
    #[inline(always)]
    pub fn table(&self) -> &HeapTable<A>
        ensures { result.now ≡ self.now }
    {
        &self.table
    }

    /// Ends the heap, whoever was gathered: its blocks, to be given back. Nothing is said of them.
    pub fn abandon(self) -> Rest<A> {
        let Heap { table } = self;
        table.abandon()
    }
}
