//! Looks: loads that join the seat's log as notes.

ghost use Rattle.std.specs.Prelude.{◌≡◌, ◌<◌, ◌≤◌, ◌∷◌, true};
ghost use Rattle.brc_words.specs.declared.limits.TheConstants.{MOST_THREADS};
ghost use Rattle.law.specs.world.Holding.{carries};
ghost use Rattle.law.specs.declared.known.word.Field.TheVariants as fields;
ghost use Rattle.law.specs.declared.known.word.Word.TheVariants as words;
ghost use Rattle.law.specs.known.Free_Words.{free_words_for};
ghost use Rattle.law.specs.known.Owners_Seen.{has_seen_owner};
ghost use Rattle.law.specs.declared.rule.told.LogItem.TheVariants as told;
ghost use Rattle.law.specs.rule.Logs.{log_items};
ghost use Rattle.law.specs.rule.Seen.{part_seen, contents_locked};
ghost use Rattle.brc_table.specs.Knowing.{known_seen, Knows, KeepsNotes, SeesRisen, NotesNumber};
ghost use Rattle.brc_table.specs.Seated.{IsSameSeat};

use crate::machine::{look, look_within};
use crate::seats::ThreadSeat;
use crate::table::HeapTable;
use law::known::{Field, Word};
use std::alloc::Allocator;
use std::marker::Brand;

impl<A: Allocator> HeapTable<A> {
    /// Who owns the cell, as a word: of a cell in the hand a thread's number, or 0.
    pub fn load_owner(&self, seat: &mut ThreadSeat<A>, cell: u32) -> u64
        requires table { seat.old.table ≡ self.now.table }
        requires inside { cell < self.now.cells }
        ensures told { seat.new.log ≡ told.Loaded (words.Of fields.Owner cell) result ∷ seat.old.log }
        ensures seat { IsSameSeat seat.old seat.new }
        ensures knows { Knows self.now.cells seat.new.log (known_seen self.now.cells seat.old.log) }
        ensures keeps { KeepsNotes self.now.cells seat.old.log seat.new.log }
        ensures found { contents_locked seat.new.log ≡ contents_locked seat.old.log }
        ensures notes { NotesNumber fields.Owner cell result seat.old.log seat.new.log }
        ensures seen { has_seen_owner (log_items seat.new.log) result ≡ true }
        ensures within { carries cell (part_seen self.now.cells seat.old.log).row.hand ≡ true → result ≤ MOST_THREADS }
    {
        look_within::<A, Brand>(self, &mut seat.place, Word::Of(Field::Owner, cell))
    }

    /// The count of all others, above the state bits.
    pub fn load_shared(&self, seat: &mut ThreadSeat<A>, cell: u32) -> u64
        requires table { seat.old.table ≡ self.now.table }
        requires inside { cell < self.now.cells }
        ensures told { seat.new.log ≡ told.Loaded (words.Of fields.Shared cell) result ∷ seat.old.log }
        ensures seat { IsSameSeat seat.old seat.new }
        ensures knows { Knows self.now.cells seat.new.log (known_seen self.now.cells seat.old.log) }
        ensures keeps { KeepsNotes self.now.cells seat.old.log seat.new.log }
        ensures found { contents_locked seat.new.log ≡ contents_locked seat.old.log }
        ensures notes { NotesNumber fields.Shared cell result seat.old.log seat.new.log }
        ensures sees { SeesRisen self.now.cells seat.old.log cell result seat.new.log }
    {
        look(self, &mut seat.place, Word::Of(Field::Shared, cell))
    }

    /// Who has locked the object, or 0.
    pub fn load_mutex(&self, seat: &mut ThreadSeat<A>, cell: u32) -> u64
        requires table { seat.old.table ≡ self.now.table }
        requires inside { cell < self.now.cells }
        ensures told { seat.new.log ≡ told.Loaded (words.Of fields.Mutex cell) result ∷ seat.old.log }
        ensures seat { IsSameSeat seat.old seat.new }
        ensures knows { Knows self.now.cells seat.new.log (known_seen self.now.cells seat.old.log) }
        ensures keeps { KeepsNotes self.now.cells seat.old.log seat.new.log }
        ensures found { contents_locked seat.new.log ≡ contents_locked seat.old.log }
        ensures notes { NotesNumber fields.Mutex cell result seat.old.log seat.new.log }
    {
        look(self, &mut seat.place, Word::Of(Field::Mutex, cell))
    }

    /// What the thread was told to drain.
    pub fn load_notify(&self, seat: &mut ThreadSeat<A>) -> u64
        requires table { seat.old.table ≡ self.now.table }
        ensures told { seat.new.log ≡ told.Loaded (words.NotifyWord seat.old.thread) result ∷ seat.old.log }
        ensures seat { IsSameSeat seat.old seat.new }
        ensures knows { Knows self.now.cells seat.new.log (known_seen self.now.cells seat.old.log) }
        ensures keeps { KeepsNotes self.now.cells seat.old.log seat.new.log }
        ensures found { contents_locked seat.new.log ≡ contents_locked seat.old.log }
    {
        let word = Word::NotifyWord(seat.thread);
        look(self, &mut seat.place, word)
    }

    /// Which of 64 cells are free.
    pub fn load_free(&self, seat: &mut ThreadSeat<A>, word: u32) -> u64
        requires table { seat.old.table ≡ self.now.table }
        requires inside { word < free_words_for self.now.cells }
        ensures told { seat.new.log ≡ told.Loaded (words.FreeWord word) result ∷ seat.old.log }
        ensures seat { IsSameSeat seat.old seat.new }
        ensures knows { Knows self.now.cells seat.new.log (known_seen self.now.cells seat.old.log) }
        ensures keeps { KeepsNotes self.now.cells seat.old.log seat.new.log }
        ensures found { contents_locked seat.new.log ≡ contents_locked seat.old.log }
    {
        look(self, &mut seat.place, Word::FreeWord(word))
    }
}
