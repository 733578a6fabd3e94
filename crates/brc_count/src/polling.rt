//! The thread's merge queue: entries that others have put there are popped, and dealt with.

ghost use Rattle.std.specs.Prelude.{◌≡◌, ◌≢◌, min, ◌+◌, ◌*◌, ◌<◌, ℕ, Some, true, ◌∷◌, ◌/◌, length, slice_set, bit_or};
ghost use Rattle.std.specs.Prelude.{IsTrue, IsFalse, ◌≤◌, IfSome, IfNone};
ghost use Rattle.std.specs.Int.{bit_at};
ghost use Rattle.brc_words.specs.declared.limits.TheConstants.{MOST_CELLS};
ghost use Rattle.brc_table.specs.law.declared.world.event.Step.TheVariants as steps;
ghost use Rattle.brc_table.specs.law.world.Heap.{words_for};
ghost use Rattle.brc_table.specs.law.world.Lists.{bit_of, word_at, without_bit, is_blank};
ghost use Rattle.brc_table.specs.law.known.Items.{popped_told};
ghost use Rattle.brc_table.specs.law.declared.rule.told.Moved.TheVariants as moves;
ghost use Rattle.brc_table.specs.law.declared.rule.told.LogItem.TheVariants as told;
ghost use Rattle.brc_table.specs.law.living.Living.{OwnLog};
ghost use Rattle.brc_count.specs.Frames.{IsActive, MayGiveUp, IsUnlocked, KeepsHandles, popped_seen};
ghost use Rattle.brc_table.specs.law.world.Steps.{is_left};
ghost use Rattle.brc_table.specs.law.rule.Seen.{part_seen};
ghost use Rattle.brc_count.specs.Closing.{CountsDown};
ghost use Rattle.brc_count.specs.Polling.{Deals, DealsBits, Drains, DrainsEach, DrainsNamed, Polled};

use crate::holdings::Holdings;
use brc_biased::{HasTable, strike};
use std::alloc::Allocator;

/// These bits of a word are popped besides.
pub(crate) fn join<A: Allocator>(words: &mut Vec<u64, A>, word: usize, bits: u64)
    requires inside { word < length words.old.items }
    ensures { words.new.items ≡ slice_set words.old.items word (bit_or (word_at words.old.items word) bits) }
{
    words[word] = words[word] | bits;
}

/// The place of a number's lowest bit.
fn lowest(bits: u64) -> u32
    requires { bits ≢ 0 }
    ensures { bit_at bits result ≡ 1 }
{
    bits.trailing_zeros()
}

/// Whether this bit of what a thread was told is set: it names 32 of the thread's queue words.
fn is_named(named: u64, bit: u32) -> bool
    requires few { bit < 64 }
    ensures named { IsTrue result → bit_at named bit ≡ 1 }
    ensures other { IsFalse result → bit_at named bit ≡ 0 }
{
    named >> bit & 1 == 1
}

/// The first queue word past those that this bit names, of a thread with so many.
fn past_named(words: u32, bit: u32) -> u32
    requires few { bit < 64 }
    ensures { result ≡ min words (bit * 32 + 32) }
{
    words.min(bit * 32 + 32)
}

impl<H: HasTable<A>, A: Allocator> Holdings<H, A> {
    /// How many queue words the thread has.
    pub(crate) fn words(&self) -> u32
        ensures words { result ≡ words_for self.now.heap.cells }
        ensures some { 0 < result }
        ensures few { result ≤ words_for MOST_CELLS }
    {
        self.counter.home().table().cells().div_ceil(32)
    }

    /// Takes what the thread was told to drain. Its own log before tells what lives.
    fn wake(&mut self) -> u64
        requires active { IsActive self.old }
        requires unlocked { IsUnlocked self.old }
        ensures keeps { KeepsHandles self.old self.new }
        ensures told { self.new.seat.log ≡ told.Stepped steps.Wake result moves.Nothing ∷ self.old.seat.log }
        ensures works { self.new.works ≡ self.old.works }
        ensures popped { popped_seen self.new ≡ popped_seen self.old }
        ensures own { OwnLog self.old.heap.cells self.old.seat.log }
    {
        // Who puts an entry in sets its bit first and tells the thread after that. So what is told after this swap stays
        // for the next poll, with its bits.
        self.counter.wake()
    }

    /// Pops the entries of one of the thread's queue words.
    fn drain(&mut self, word: u32) -> u64
        requires inside { word < words_for self.old.heap.cells }
        requires active { IsActive self.old }
        requires unlocked { IsUnlocked self.old }
        ensures keeps { KeepsHandles self.old self.new }
        ensures told { self.new.seat.log ≡ told.Stepped (steps.Drain word) result moves.Nothing ∷ self.old.seat.log }
        ensures works { self.new.works ≡ self.old.works }
        ensures popped { popped_seen self.new ≡ popped_told (Some word) result (popped_seen self.old) }
        ensures found { word_at (popped_seen self.old) word ≡ 0 → word_at (popped_seen self.new) word ≡ result }
    {
        // All bits come out in one swap. A bit that is set after it stays for the next poll. The popped bits keep their
        // objects alive now.
        let bits = self.counter.drain(word);
        join(&mut self.popped, word as usize, bits);
        bits
    }

    /// Deals with a popped entry: an object that isn't merged is merged by the thread; then the entry's reference is
    /// counted down, and where that was the last one the object's block is on the front of the worklist.
    pub(crate) fn settle(&mut self, cell: u32)
        requires popped { bit_of (popped_seen self.old) cell ≡ 1 }
        requires active { IsActive self.old }
        requires unlocked { IsUnlocked self.old }
        ensures keeps { KeepsHandles self.old self.new }
        ensures deals { Deals self.old self.new cell }
        ensures popped { popped_seen self.new ≡ without_bit (popped_seen self.old) cell }
    {
        let answered = self.counter.settle(cell);
        strike(&mut self.popped, cell);
        if let Some(block) = answered {
            self.works.push(block);
        }
    }

    /// Deals with a popped entry once the thread has left: its object is merged, and the entry's reference is counted
    /// down.
    pub(crate) fn settle_left(&mut self, cell: u32)
        requires popped { bit_of (popped_seen self.old) cell ≡ 1 }
        requires left { is_left (part_seen self.old.heap.cells self.old.seat.log).row.stage ≡ true }
        requires unlocked { IsUnlocked self.old }
        ensures keeps { KeepsHandles self.old self.new }
        ensures counts { CountsDown self.old self.new cell }
        ensures popped { popped_seen self.new ≡ without_bit (popped_seen self.old) cell }
    {
        let answered = self.counter.settle_left(cell);
        strike(&mut self.popped, cell);
        if let Some(block) = answered {
            self.works.push(block);
        }
    }

    /// Whether this bit of a popped word is set.
    fn has_bit(&self, word: u32, bit: u32) -> bool
        requires inside { word < words_for self.now.heap.cells }
        requires low { bit < 32 }
        ensures set { IsTrue result → bit_at (word_at (popped_seen self.now) word) bit ≡ 1 }
        ensures unset { IsFalse result → bit_at (word_at (popped_seen self.now) word) bit ≡ 0 }
        ensures inside { IsTrue result → word * 32 + bit < self.now.heap.cells }
        ensures few { self.now.heap.cells ≤ MOST_CELLS }
    {
        // A heap has few cells: its invariant says so.
        let _cells = self.counter.home().table().cells();
        self.popped[word as usize] >> bit & 1 == 1
    }

    /// Deals with each entry of one popped word.
    fn settle_word(&mut self, word: u32)
        requires inside { word < words_for self.old.heap.cells }
        requires active { IsActive self.old }
        requires unlocked { IsUnlocked self.old }
        ensures keeps { KeepsHandles self.old self.new }
        ensures dealt { DealsBits word (word_at (popped_seen self.old) word) self.old 32 self.new }
        ensures done { word_at (popped_seen self.new) word ≡ 0 }
        ensures others { (k : ℕ) → k ≢ word → word_at (popped_seen self.new) k ≡ word_at (popped_seen self.old) k }
    {
        for bit in 0..32 {
            if self.has_bit(word, bit) {
                self.settle(word * 32 + bit);
            }
        }
        let _popped = &self.popped;
    }

    /// Drains one of the thread's queue words, and deals with each entry that was in it.
    fn drain_one(&mut self, word: u32)
        requires inside { word < words_for self.old.heap.cells }
        requires active { IsActive self.old }
        requires unlocked { IsUnlocked self.old }
        requires blank { (k : ℕ) → word_at (popped_seen self.old) k ≡ 0 }
        ensures keeps { KeepsHandles self.old self.new }
        ensures drains { Drains self.old self.new word }
        ensures blank { (k : ℕ) → word_at (popped_seen self.new) k ≡ 0 }
    {
        let bits = self.drain(word);
        if bits == 0 {
            return;
        }
        self.settle_word(word);
    }

    /// Drains the queue words from this one on up to another, and deals with each entry that was in them.
    fn drain_each(&mut self, from: u32, until: u32)
        requires order { from ≤ until }
        requires inside { until ≤ words_for self.old.heap.cells }
        requires active { IsActive self.old }
        requires unlocked { IsUnlocked self.old }
        requires blank { (k : ℕ) → word_at (popped_seen self.old) k ≡ 0 }
        ensures keeps { KeepsHandles self.old self.new }
        ensures drains { DrainsEach from self.old until self.new }
        ensures blank { (k : ℕ) → word_at (popped_seen self.new) k ≡ 0 }
    {
        for word in from..until {
            self.drain_one(word);
        }
    }

    /// Drains the queue words that this names, and deals with each of their entries.
    // Out of line, since a poll is mostly told nothing: what the loops here need isn't saved there.
    #[cold]
    #[inline(never)]
    fn drain_named(&mut self, named: u64)
        requires active { IsActive self.old }
        requires unlocked { IsUnlocked self.old }
        requires blank { (k : ℕ) → word_at (popped_seen self.old) k ≡ 0 }
        ensures keeps { KeepsHandles self.old self.new }
        ensures drains { DrainsNamed named (words_for self.old.heap.cells) self.old
            ((words_for self.old.heap.cells + 31) / 32) self.new }
        ensures blank { (k : ℕ) → word_at (popped_seen self.new) k ≡ 0 }
    {
        let words = self.words();
        for bit in 0..words.div_ceil(32) {
            if is_named(named, bit) {
                self.drain_each(bit * 32, past_named(words, bit));
            }
        }
    }

    /// The first popped word with an entry, where those before this one have none.
    pub(crate) fn first_popped(&self, from: usize) -> Option<u32>
        requires done { (k : ℕ) → k < from → word_at (popped_seen self.now) k ≡ 0 }
        ensures none { IfNone result (is_blank (popped_seen self.now) ≡ true) }
        ensures some { IfSome result (λ word. word_at (popped_seen self.now) word ≢ 0) }
        ensures inside { IfSome result (λ word. word < words_for self.now.heap.cells) }
        ensures done { IfSome result (λ word. (k : ℕ) → k < word → word_at (popped_seen self.now) k ≡ 0) }
    {
        let words = self.words() as usize;
        for word in from..words {
            if self.popped[word] != 0 {
                return Some(word as u32);
            }
        }
        None
    }

    /// Deals with the entry of a popped word's lowest bit, once the thread has left, and answers its cell.
    pub(crate) fn settle_lowest(&mut self, word: u32) -> u32
        requires inside { word < words_for self.old.heap.cells }
        requires some { word_at (popped_seen self.old) word ≢ 0 }
        requires left { is_left (part_seen self.old.heap.cells self.old.seat.log).row.stage ≡ true }
        requires unlocked { IsUnlocked self.old }
        ensures keeps { KeepsHandles self.old self.new }
        ensures popped { bit_of (popped_seen self.old) result ≡ 1 }
        ensures counts { CountsDown self.old self.new result }
        ensures others { (k : ℕ) → k ≢ word → word_at (popped_seen self.new) k ≡ word_at (popped_seen self.old) k }
    {
        let bit = self.lowest_bit(word);
        let cell = word * 32 + bit;
        self.settle_left(cell);
        cell
    }

    /// The lowest bit that is set in a popped word.
    fn lowest_bit(&self, word: u32) -> u32
        requires inside { word < words_for self.now.heap.cells }
        requires some { word_at (popped_seen self.now) word ≢ 0 }
        ensures low { result < 32 }
        ensures set { bit_at (word_at (popped_seen self.now) word) result ≡ 1 }
        ensures inside { word * 32 + result < self.now.heap.cells }
        ensures few { self.now.heap.cells ≤ MOST_CELLS }
    {
        // A heap has few cells: its invariant says so.
        let _cells = self.counter.home().table().cells();
        lowest(self.popped[word as usize])
    }

    /// Takes what the thread was told, drains the words that this names, and deals with each of their entries. It
    /// answers what it was told: 0 where nobody put anything into its queue since the last time. Its own log before
    /// tells what lives.
    pub(crate) fn poll(&mut self) -> u64
        requires active { IsActive self.old }
        requires unlocked { IsUnlocked self.old }
        requires blank { is_blank (popped_seen self.old) ≡ true }
        ensures keeps { KeepsHandles self.old self.new }
        ensures polled { Polled self.old self.new result }
        ensures quiet { result ≡ 0 → self.new.works ≡ self.old.works }
        ensures blank { is_blank (popped_seen self.new) ≡ true }
        ensures own { OwnLog self.old.heap.cells self.old.seat.log }
    {
        let named = self.wake();
        if named != 0 {
            self.drain_named(named);
        }
        named
    }
}
