//! Operations on a queue word by which a thread takes its bits. What it finds there are cells of the heap.

ghost use Rattle.std.specs.Prelude.{◌≡◌, ℕ, ◌<◌, bit_or};
ghost use Rattle.law.specs.declared.known.word.Word.TheVariants as words;
ghost use Rattle.brc_words.specs.declared.look.TheConstants.{CLOSED_BIT};
ghost use Rattle.law.specs.known.Items.{IsWord};
ghost use Rattle.law.specs.declared.rule.told.LogItem.{LogItem as told_data};
ghost use Rattle.law.specs.declared.rule.told.LogItem.TheVariants as told;
ghost use Rattle.law.specs.rule.Rule.{with_told};
ghost use Rattle.law.specs.steps.Taking.{AreQueued};
ghost use Rattle.brc_table.specs.Machine.{MayTake};
ghost use Rattle.brc_table.specs.Shown.{shows};

use crate::layout::spot_of;
use crate::machine::Place;
use crate::table::HeapTable;
use atomic_table::Play;
use brc_words::CLOSED_BIT;
use law::known::Word;
use law::rule::View;
use law::world::Step;
use std::alloc::Allocator;
use std::marker::{Brand, PhantomData};

/// Which item takes the bits, of how many cells the heap is, and which of the thread's queue words it is. A caller's
/// proof picks it.
pub(crate) trait Draining {
    ghost item: { ℕ → told_data };

    ghost cells: { ℕ };

    ghost word: { ℕ };
}

impl Draining for Brand {
    ghost item = { λ number. told.Loaded (words.NotifyWord 0) number };

    ghost cells = { 0 };

    ghost word = { 0 };
}

/// The seat's log has the item, its slots stay, and each bit that was found is a cell.
pub(crate) struct LogDrains<M> {
    marker: PhantomData<M>,
}

impl<S, M: Draining> Play<S, View> for LogDrains<M> {
    ghost then = { λ step me number after. (after ≡ (with_told (M.item number) me.0, me.1))
        × AreQueued M.cells M.word number };
}

/// A swap, which leaves an open word empty.
#[inline(always)]
pub(crate) fn take_bits<A: Allocator, M: Draining>(
    table: &HeapTable<A>,
    seat: &mut Place<A>,
    word: Word,
    step: Step,
) -> u64
    requires same { seat.old.table_id ≡ table.now.table }
    requires inside { IsWord table.now.cells word }
    requires allowed { MayTake shows table.now.cells table.now.local_limit seat.old.id seat.old.me word
        (λ _. 0) M.item M.cells M.word }
    ensures same { (seat.new.table_id ≡ seat.old.table_id) × (seat.new.id ≡ seat.old.id) }
    ensures told { seat.new.me ≡ (with_told (M.item result) seat.old.me.0, seat.old.me.1) }
    ensures cells { AreQueued M.cells M.word result }
{
    let _step = step;
    let at = spot_of(table.cells, word);
    table.table.shared.swap::<LogDrains<M>>(seat, at, 0)
}

/// A setting of bit 63, which closes the word.
#[inline(always)]
pub(crate) fn take_and_close<A: Allocator, M: Draining>(
    table: &HeapTable<A>,
    seat: &mut Place<A>,
    word: Word,
    step: Step,
) -> u64
    requires same { seat.old.table_id ≡ table.now.table }
    requires inside { IsWord table.now.cells word }
    requires allowed { MayTake shows table.now.cells table.now.local_limit seat.old.id seat.old.me word
        (λ there. bit_or there CLOSED_BIT) M.item M.cells M.word }
    ensures same { (seat.new.table_id ≡ seat.old.table_id) × (seat.new.id ≡ seat.old.id) }
    ensures told { seat.new.me ≡ (with_told (M.item result) seat.old.me.0, seat.old.me.1) }
    ensures cells { AreQueued M.cells M.word result }
{
    let _step = step;
    let at = spot_of(table.cells, word);
    table
        .table
        .shared
        .fetch_or::<LogDrains<M>>(seat, at, CLOSED_BIT)
}
