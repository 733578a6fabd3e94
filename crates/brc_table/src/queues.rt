//! Queues: a thread takes what was put into its own, and tells others to do so.

ghost use Rattle.std.specs.Prelude.{◌≡◌, ◌<◌, ◌≤◌, ◌∷◌};
ghost use Rattle.law.specs.world.Heap.{words_for};
ghost use Rattle.law.specs.declared.world.event.Step.TheVariants as steps;
ghost use Rattle.law.specs.known.Going_On.{popping, closing, reopening};
ghost use Rattle.law.specs.declared.rule.told.Moved.TheVariants as moves;
ghost use Rattle.law.specs.declared.rule.told.LogItem.TheVariants as told;
ghost use Rattle.law.specs.steps.Owing.{MayStep, MayClose, MayNudge};
ghost use Rattle.law.specs.steps.Taking.{AreQueued};
ghost use Rattle.law.specs.living.Living.{OwnLog};
ghost use Rattle.brc_table.specs.Knowing.{known_seen, Knows, KeepsNotes};
ghost use Rattle.brc_table.specs.Seated.{IsSameSeat};

use crate::draining::{take_and_close, take_bits};
use crate::layout::bit;
use crate::machine::{or, store};
use crate::seats::ThreadSeat;
use crate::table::HeapTable;
use crate::waking::take_told;
use law::known::Word;
use law::world::Step;
use std::alloc::Allocator;
use std::marker::Brand;

impl<A: Allocator> HeapTable<A> {
    #[tactic(auto, using(crate::proofs::Placing::own_queue_inside))]
    /// Drain: the bits of one of its queue words are popped, each a cell of the heap.
    pub fn drain(&self, seat: &mut ThreadSeat<A>, word: u32) -> u64
        requires table { seat.old.table ≡ self.now.table }
        requires inside { word < words_for self.now.cells }
        requires allowed { MayStep self.now.cells seat.old.log (steps.Drain word) }
        ensures told { seat.new.log ≡ told.Stepped (steps.Drain word) result moves.Nothing ∷ seat.old.log }
        ensures seat { IsSameSeat seat.old seat.new }
        ensures knows { Knows self.now.cells seat.new.log
            (popping word result (known_seen self.now.cells seat.old.log)) }
        ensures keeps { KeepsNotes self.now.cells seat.old.log seat.new.log }
        ensures cells { AreQueued self.now.cells word result }
    {
        let at = Word::Queue(seat.thread, word);
        take_bits::<A, Brand>(self, &mut seat.place, at, Step::Drain(word))
    }

    #[tactic(auto, using(crate::proofs::Placing::own_queue_inside))]
    /// Close: one of its queue words takes nothing any more, and its bits are popped, each a cell of the heap.
    pub fn close(&self, seat: &mut ThreadSeat<A>, word: u32) -> u64
        requires table { seat.old.table ≡ self.now.table }
        requires inside { word < words_for self.now.cells }
        requires closes { MayClose self.now.cells seat.old.log word }
        ensures told { seat.new.log ≡ told.Stepped (steps.Close word) result moves.Nothing ∷ seat.old.log }
        ensures seat { IsSameSeat seat.old seat.new }
        ensures knows { Knows self.now.cells seat.new.log
            (closing self.now.cells word (popping word result (known_seen self.now.cells seat.old.log))) }
        ensures keeps { KeepsNotes self.now.cells seat.old.log seat.new.log }
        ensures cells { AreQueued self.now.cells word result }
    {
        let at = Word::Queue(seat.thread, word);
        take_and_close::<A, Brand>(self, &mut seat.place, at, Step::Close(word))
    }

    #[tactic(auto, using(crate::proofs::Placing::own_queue_inside))]
    /// Reopen: one of the queue words of a number that is used again is open, and empty.
    pub fn open_word(&self, seat: &mut ThreadSeat<A>, word: u32)
        requires table { seat.old.table ≡ self.now.table }
        requires inside { word < words_for self.now.cells }
        requires allowed { MayStep self.now.cells seat.old.log (steps.Reopen word) }
        ensures told { seat.new.log ≡ told.Stepped (steps.Reopen word) 0 moves.Nothing ∷ seat.old.log }
        ensures seat { IsSameSeat seat.old seat.new }
        ensures knows { Knows self.now.cells seat.new.log
            (reopening self.now.cells word (known_seen self.now.cells seat.old.log)) }
        ensures keeps { KeepsNotes self.now.cells seat.old.log seat.new.log }
    {
        let at = Word::Queue(seat.thread, word);
        store(self, &mut seat.place, at, 0, Step::Reopen(word));
    }

    /// Nudge: a thread is told that this one of its queue words has something, or a word beside it.
    pub fn nudge(&self, seat: &mut ThreadSeat<A>, thread: u32, word: u32) -> u64
        requires table { seat.old.table ≡ self.now.table }
        requires tells { MayNudge self.now.cells seat.old.log thread word }
        ensures told { seat.new.log ≡ told.Stepped (steps.Nudge thread word) result moves.Nothing ∷ seat.old.log }
        ensures seat { IsSameSeat seat.old seat.new }
        ensures knows { Knows self.now.cells seat.new.log (known_seen self.now.cells seat.old.log) }
        ensures keeps { KeepsNotes self.now.cells seat.old.log seat.new.log }
    {
        // The bit is one of the word's, since a table has few cells: its invariant says so.
        let _cells = self.cells;
        let at = Word::NotifyWord(thread);
        let bits = bit(word / 32);
        or(
            self,
            &mut seat.place,
            at,
            bits,
            Step::Nudge { thread, word },
        )
    }

    /// Wake: the thread takes what it was told. Its own log before tells what lives.
    pub fn wake(&self, seat: &mut ThreadSeat<A>) -> u64
        requires table { seat.old.table ≡ self.now.table }
        requires allowed { MayStep self.now.cells seat.old.log steps.Wake }
        ensures told { seat.new.log ≡ told.Stepped steps.Wake result moves.Nothing ∷ seat.old.log }
        ensures seat { IsSameSeat seat.old seat.new }
        ensures knows { Knows self.now.cells seat.new.log (known_seen self.now.cells seat.old.log) }
        ensures keeps { KeepsNotes self.now.cells seat.old.log seat.new.log }
        ensures own { OwnLog self.now.cells seat.old.log }
    {
        let at = Word::NotifyWord(seat.thread);
        take_told::<A, Brand>(self, &mut seat.place, at, Step::Wake)
    }
}
