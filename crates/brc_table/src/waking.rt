//! The swap of a thread's notify word. It also tells the thread what its own log says of what lives.

ghost use Rattle.std.specs.Prelude.{◌≡◌, ℕ};
ghost use Rattle.law.specs.declared.known.word.Word.TheVariants as words;
ghost use Rattle.law.specs.known.Items.{IsWord};
ghost use Rattle.law.specs.declared.rule.told.LogItem.{LogItem as told_data};
ghost use Rattle.law.specs.declared.rule.told.LogItem.TheVariants as told;
ghost use Rattle.law.specs.rule.Rule.{with_told};
ghost use Rattle.law.specs.living.Living.{OwnLog};
ghost use Rattle.brc_table.specs.Machine.{MayWake};
ghost use Rattle.brc_table.specs.Shown.{shows};

use crate::layout::spot_of;
use crate::machine::Place;
use crate::table::HeapTable;
use atomic_table::Play;
use law::known::Word;
use law::rule::View;
use law::world::Step;
use std::alloc::Allocator;
use std::marker::{Brand, PhantomData};

/// Which item takes what was told, and of how many cells the heap is. A caller's proof picks it.
pub(crate) trait Waking {
    ghost item: { ℕ → told_data };

    ghost cells: { ℕ };
}

impl Waking for Brand {
    ghost item = { λ number. told.Loaded (words.NotifyWord 0) number };

    ghost cells = { 0 };
}

/// The seat's log has the item, its slots stay, and its log before was an own log.
pub(crate) struct LogWakes<M> {
    marker: PhantomData<M>,
}

impl<S, M: Waking> Play<S, View> for LogWakes<M> {
    ghost then = { λ step me number after. (after ≡ (with_told (M.item number) me.0, me.1)) × OwnLog M.cells me.0.log };
}

/// A swap, which leaves the word empty.
#[inline(always)]
pub(crate) fn take_told<A: Allocator, M: Waking>(
    table: &HeapTable<A>,
    seat: &mut Place<A>,
    word: Word,
    step: Step,
) -> u64
    requires same { seat.old.table_id ≡ table.now.table }
    requires inside { IsWord table.now.cells word }
    requires allowed { MayWake shows table.now.cells table.now.local_limit seat.old.id seat.old.me word
        (λ _. 0) M.item M.cells }
    ensures same { (seat.new.table_id ≡ seat.old.table_id) × (seat.new.id ≡ seat.old.id) }
    ensures told { seat.new.me ≡ (with_told (M.item result) seat.old.me.0, seat.old.me.1) }
    ensures own { OwnLog M.cells seat.old.me.0.log }
{
    let _step = step;
    let at = spot_of(table.cells, word);
    table.table.shared.swap::<LogWakes<M>>(seat, at, 0)
}
