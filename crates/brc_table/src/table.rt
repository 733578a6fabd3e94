//! The table, and how it opens.

ghost use Rattle.std.specs.Prelude.{◌≡◌, ◌↔◌, ◌⊎◌, ◌*◌, ◌≤◌, Err, IfOk, IfErr};
ghost use Rattle.brc_words.specs.declared.fault.Fault.TheVariants as faults;
ghost use Rattle.brc_words.specs.declared.limits.TheConstants.{FEWEST_CELLS, MOST_CELLS, MOST_LOCAL};
ghost use Rattle.law.specs.world.Heap.{AreOptions};
ghost use Rattle.law.specs.known.Free_Words.{free_words_for};
ghost use Rattle.law.specs.rule.Opening.{first_view};

use crate::layout::free_words_for;
use crate::opening::{are_options, give_all_back, opening_slots, opening_words};
use crate::root::RootSeat;
use crate::rule::{HeapRule, Sizes};
use atomic_table::{Refused, Table};
use brc_block::Block;
use brc_words::Fault;
use law::rule::View;
use std::alloc::Allocator;
use std::marker::Model;

/// The words and blocks of one heap.
pub struct HeapTable<A: Allocator> {
    pub(crate) table: Table<Option<Block<A>>, View, Sizes, HeapRule<A>, A>,
    pub(crate) cells: u32,
    pub(crate) local_limit: u32,
}

impl<A: Allocator> Model for HeapTable<A> {
    ghost use Rattle.brc_table.specs.Seated.{TableSeen, Sized};

    ghost Value = { TableSeen };

    ghost view = { λ t. record { table = t.table.shared.table_id; cells = t.cells; local_limit = t.local_limit } };

    ghost invariant = { λ t. Sized t.table.shared.key t.table.shared.table_id t.cells t.local_limit };
}

impl<A: Allocator + Copy> HeapTable<A> {
    #[tactic(auto, using(crate::proofs::Opened::opened, crate::proofs::Opened::wide_of, crate::proofs::Opened::deep_of, crate::proofs::Numbering::none_taken))]
    /// A table of so many cells, which opens with the immortals, and the root's seat.
    pub fn new(alloc: A, cells: u32, local_limit: u32) -> Result<(HeapTable<A>, RootSeat<A>), Fault>
        ensures sizes { IfOk result (λ made. (made.0.cells ≡ cells) × (made.0.local_limit ≡ local_limit)) }
        ensures seat { IfOk result (λ made. made.1.table ≡ made.0.table) }
        ensures view { IfOk result (λ made. made.1.view ≡ first_view) }

        // Sizes are looked at before memory is asked for.
        ensures options { (result ≡ Err faults.BadOptions) ↔ ¬ (AreOptions cells local_limit) }
        ensures refused { IfErr result (λ fault. (fault ≡ faults.BadOptions) ⊎ (fault ≡ faults.OutOfMemory)) }
    {
        if !are_options(cells, local_limit) {
            return Err(Fault::BadOptions);
        }
        let words = opening_words(alloc, cells)?;
        let slots = opening_slots(alloc, cells)?;
        let sizes = Sizes { cells, local_limit };
        match Table::new(alloc, words.as_slice(), slots, &sizes) {
            Ok((table, place)) => Ok((
                HeapTable {
                    table,
                    cells,
                    local_limit,
                },
                RootSeat {
                    place,
                    free: u64::MAX,
                    rows: 1,
                },
            )),
            Err(refused) => {
                let Refused { slots } = refused;
                give_all_back(slots);
                Err(Fault::OutOfMemory)
            }
        }
    }
}

impl<A: Allocator> HeapTable<A> {
    /// How many cells the heap has.
    pub fn cells(&self) -> u32
        ensures cells { result ≡ self.now.cells }
        ensures enough { FEWEST_CELLS ≤ result }
        ensures few { result ≤ MOST_CELLS }
    {
        self.cells
    }

    /// How many free words it has, one for 64 cells.
    pub fn free_words(&self) -> u32
        ensures words { result ≡ free_words_for self.now.cells }
        ensures enough { FEWEST_CELLS ≤ result * 64 }
    {
        free_words_for(self.cells)
    }

    /// How far an owner counts on its own.
    pub fn local_limit(&self) -> u32
        ensures limit { result ≡ self.now.local_limit }
        ensures low { result ≤ MOST_LOCAL }
    {
        self.local_limit
    }
}
