//! Counting: by the owner in its log alone, and by all others on the shared word.

ghost use Rattle.std.specs.Prelude.{◌≡◌, ◌≢◌, ◌+◌, ◌-◌, ◌%◌, ◌==◌, ◌<◌, ◌≤◌, ◌∷◌, true, Some, OnOk, OnErr, IfErr};
ghost use Rattle.brc_words.specs.declared.look.TheConstants.{NO_COUNT, ONE_COUNT};
ghost use Rattle.law.specs.declared.world.event.Step.TheVariants as steps;
ghost use Rattle.law.specs.declared.world.event.Dropped.TheVariants as drops;
ghost use Rattle.law.specs.declared.known.word.Field.TheVariants as fields;
ghost use Rattle.law.specs.declared.known.word.Word.TheVariants as words;
ghost use Rattle.law.specs.known.Going_On.{filling, counting, counting_down, giving_up, asking};
ghost use Rattle.law.specs.declared.rule.told.Moved.TheVariants as moves;
ghost use Rattle.law.specs.declared.rule.told.LogItem.TheVariants as told;
ghost use Rattle.law.specs.steps.Owing.{MayRaise, MayRaiseImmortal, MayLower, MayLowerImmortal, MayRaiseShared};
ghost use Rattle.law.specs.steps.Owing.{MayRelease};
ghost use Rattle.law.specs.rule.Seen.{risen_seen, contents_locked};
ghost use Rattle.brc_table.specs.Knowing.{known_seen, Knows, KeepsNotes, SeesRisen, NotesNumber};
ghost use Rattle.brc_table.specs.Seated.{IsSameSeat};

use crate::machine::{add, exchange, or, tell};
use crate::seats::ThreadSeat;
use crate::table::HeapTable;
use brc_words::{IMMORTAL_LOCAL, ONE_COUNT, QUEUED_BITS};
use law::known::{Field, Word};
use law::world::{Dropped, Source, Step};
use std::alloc::Allocator;

impl<A: Allocator> HeapTable<A> {
    /// LocalUp: the owner of the cell counts up, by the count that its log tells.
    pub fn local_up(
        &self,
        seat: &mut ThreadSeat<A>,
        source: Source,
        place: u32,
        cell: u32,
        count: u32,
    )
        requires table { seat.old.table ≡ self.now.table }
        requires inside { cell < self.now.cells }
        requires raises { MayRaise self.now.cells self.now.local_limit seat.old.log source place cell count }
        ensures told { seat.new.log ≡ told.Stepped (steps.LocalUp source place)
            (count + 1) moves.Nothing ∷ seat.old.log }
        ensures seat { IsSameSeat seat.old seat.new }
        ensures knows { Knows self.now.cells seat.new.log
            (filling place cell (counting cell (count + 1) (known_seen self.now.cells seat.old.log))) }
        ensures keeps { KeepsNotes self.now.cells seat.old.log seat.new.log }
        ensures found { contents_locked seat.new.log ≡ contents_locked seat.old.log }
    {
        let _cell = cell;
        let step = Step::LocalUp { source, place };
        tell(self, &mut seat.place, u64::from(count) + 1, step);
    }

    /// LocalDown: it counts down.
    pub fn local_down(&self, seat: &mut ThreadSeat<A>, drop: Dropped, cell: u32, count: u32)
        requires table { seat.old.table ≡ self.now.table }
        requires inside { cell < self.now.cells }
        requires lowers { MayLower self.now.cells seat.old.log drop cell count }
        ensures told { seat.new.log ≡ told.Stepped (steps.LocalDown drop) (count - 1) moves.Nothing ∷ seat.old.log }
        ensures seat { IsSameSeat seat.old seat.new }
        ensures knows { Knows self.now.cells seat.new.log
            (counting_down (count == 1) drop cell (count - 1) (known_seen self.now.cells seat.old.log)) }
        ensures keeps { KeepsNotes self.now.cells seat.old.log seat.new.log }
    {
        let _cell = cell;
        let step = Step::LocalDown(drop);
        tell(self, &mut seat.place, u64::from(count) - 1, step);
    }

    /// LocalUp of an immortal, whose count stays.
    pub fn immortal_up(
        &self,
        seat: &mut ThreadSeat<A>,
        source: Source,
        place: u32,
        cell: u32,
    ) -> u64
        requires table { seat.old.table ≡ self.now.table }
        requires inside { cell < self.now.cells }
        requires raises { MayRaiseImmortal self.now.cells seat.old.log source place cell }
        ensures told { seat.new.log ≡ told.Stepped (steps.LocalUp source place) result moves.Nothing ∷ seat.old.log }
        ensures seat { IsSameSeat seat.old seat.new }
        ensures knows { Knows self.now.cells seat.new.log
            (filling place cell (counting cell result (known_seen self.now.cells seat.old.log))) }
        ensures keeps { KeepsNotes self.now.cells seat.old.log seat.new.log }
        ensures found { contents_locked seat.new.log ≡ contents_locked seat.old.log }
    {
        let _cell = cell;
        let count = u64::from(IMMORTAL_LOCAL);
        let step = Step::LocalUp { source, place };
        tell(self, &mut seat.place, count, step);
        count
    }

    /// LocalDown of an immortal.
    pub fn immortal_down(&self, seat: &mut ThreadSeat<A>, drop: Dropped, cell: u32) -> u64
        requires table { seat.old.table ≡ self.now.table }
        requires inside { cell < self.now.cells }
        requires lowers { MayLowerImmortal self.now.cells seat.old.log drop cell }
        ensures told { seat.new.log ≡ told.Stepped (steps.LocalDown drop) result moves.Nothing ∷ seat.old.log }
        ensures seat { IsSameSeat seat.old seat.new }
        ensures knows { Knows self.now.cells seat.new.log
            (giving_up (Some drop) (counting cell result (known_seen self.now.cells seat.old.log))) }
        ensures keeps { KeepsNotes self.now.cells seat.old.log seat.new.log }
    {
        let _cell = cell;
        let count = u64::from(IMMORTAL_LOCAL);
        tell(self, &mut seat.place, count, Step::LocalDown(drop));
        count
    }

    #[tactic(auto, using(law::proofs::steps::Shared_Steps::counts_up_shared))]
    /// SharedUp: anyone else counts up, and the owner at its limit.
    pub fn shared_up(&self, seat: &mut ThreadSeat<A>, source: Source, place: u32, cell: u32) -> u64
        requires table { seat.old.table ≡ self.now.table }
        requires inside { cell < self.now.cells }
        requires raises { MayRaiseShared self.now.cells self.now.local_limit seat.old.log source place cell }
        ensures told { seat.new.log ≡ told.Stepped (steps.SharedUp source place) result moves.Nothing ∷ seat.old.log }
        ensures seat { IsSameSeat seat.old seat.new }
        ensures knows { Knows self.now.cells seat.new.log
            (filling place cell (known_seen self.now.cells seat.old.log)) }
        ensures keeps { KeepsNotes self.now.cells seat.old.log seat.new.log }
        ensures found { contents_locked seat.new.log ≡ contents_locked seat.old.log }
        ensures risen { result % ONE_COUNT ≢ 0 → risen_seen self.now.cells seat.new.log (drops.Frame place) cell ≡ true }
    {
        let word = Word::Of(Field::Shared, cell);
        let step = Step::SharedUp { source, place };
        add(self, &mut seat.place, word, ONE_COUNT, step)
    }

    #[tactic(auto, using(law::proofs::steps::Shared_Steps::asks))]
    /// Ask: the reference is to be merged, and is in the hand now where nobody had asked.
    pub fn ask(&self, seat: &mut ThreadSeat<A>, drop: Dropped, cell: u32) -> u64
        requires table { seat.old.table ≡ self.now.table }
        requires inside { cell < self.now.cells }
        requires releases { MayRelease self.now.cells seat.old.log (steps.Ask drop) cell }
        ensures told { seat.new.log ≡ told.Stepped (steps.Ask drop) result moves.Nothing ∷ seat.old.log }
        ensures seat { IsSameSeat seat.old seat.new }
        ensures knows { Knows self.now.cells seat.new.log
            (asking (result % ONE_COUNT == 0) drop cell (known_seen self.now.cells seat.old.log)) }
        ensures keeps { KeepsNotes self.now.cells seat.old.log seat.new.log }
        ensures risen { result % ONE_COUNT ≢ 0 → risen_seen self.now.cells seat.new.log drop cell ≡ true }
    {
        let word = Word::Of(Field::Shared, cell);
        or(self, &mut seat.place, word, QUEUED_BITS, Step::Ask(drop))
    }

    #[tactic(auto, using(law::proofs::steps::Shared_Steps::counts_down_shared))]
    /// SharedDown: anyone else counts down, where the word is still the one expected; or the word that was found.
    pub fn shared_down(
        &self,
        seat: &mut ThreadSeat<A>,
        drop: Dropped,
        cell: u32,
        old: u64,
    ) -> Result<(), u64>
        requires table { seat.old.table ≡ self.now.table }
        requires inside { cell < self.now.cells }
        requires releases { MayRelease self.now.cells seat.old.log (steps.SharedDown drop) cell }
        requires default { old % ONE_COUNT ≡ 0 }
        requires some_count { NO_COUNT + ONE_COUNT ≤ old }
        ensures won { OnOk result
            (seat.new.log ≡ told.Stepped (steps.SharedDown drop) old moves.Nothing ∷ seat.old.log) }
        ensures lost { IfErr result (λ found. seat.new.log ≡ told.Lost (words.Of fields.Shared cell) found
            ∷ seat.old.log) }
        ensures moved { IfErr result (λ found. found ≢ old) }
        ensures seat { IsSameSeat seat.old seat.new }
        ensures won_knows { OnOk result
            (Knows self.now.cells seat.new.log (giving_up (Some drop) (known_seen self.now.cells seat.old.log))) }
        ensures lost_knows { OnErr result (Knows self.now.cells seat.new.log (known_seen self.now.cells seat.old.log)) }
        ensures keeps { KeepsNotes self.now.cells seat.old.log seat.new.log }
        ensures lost_sees { IfErr result (λ found. SeesRisen self.now.cells seat.old.log cell found seat.new.log) }
        ensures lost_notes { IfErr result (λ found. NotesNumber fields.Shared cell found seat.old.log seat.new.log) }
    {
        let word = Word::Of(Field::Shared, cell);
        let step = Step::SharedDown(drop);
        let found = exchange(self, &mut seat.place, word, old, old - ONE_COUNT, step);
        if found == old { Ok(()) } else { Err(found) }
    }
}
