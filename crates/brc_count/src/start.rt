//! Where a thread's claims begin.
//!
//! A claim looks for a free cell word by word, and a word has 64 cells. Where all threads begin with the first word
//! they come upon one another's bits, and in a full heap each claim passes over all that is taken. So a thread may be
//! asked to begin with a part of the heap of its own, and near the cells that it claimed and freed last.

ghost use Rattle.std.specs.Prelude.{◌≡◌, false};
ghost use Rattle.brc_table.specs.law.declared.rule.contents.Contents.{Contents as contents_data};
ghost use Rattle.brc_biased.specs.Seeking.{ClaimsFirst};
ghost use Rattle.brc_count.specs.Frames.{FrameSeen, HandleSeen, first_word, word_asked};
ghost use Rattle.brc_count.specs.Making.{Made};

use brc_words::FIRST_MORTAL;
use std::alloc::Allocator;
use std::marker::Model;

/// The free word at which a thread's claims begin, whether they begin near the last ones, and the word of the next
/// claim.
#[derive(Drop)]
pub(crate) struct ClaimStart {
    from: u32,
    near: bool,
    /// Where claims begin near the last ones: the word of the last claim, or of a cell that was freed since where that
    /// is lower, and not below `from`. No contract tells it.
    next: u32,
}

impl Model for ClaimStart {
    ghost use Rattle.std.specs.Prelude.{◌≡◌, false};
    ghost use Rattle.brc_count.specs.Frames.{StartSeen};

    ghost Value = { StartSeen };

    ghost view = { λ s. record { from = s.from; near = s.near } };

    ghost invariant = { λ s. s.near ≡ false → s.next ≡ s.from };
}

impl ClaimStart {
    /// Claims begin with the first mortal cell.
    pub(crate) fn first() -> ClaimStart
        ensures from { result.from ≡ first_word }
        ensures near { result.near ≡ false }
    {
        let from = FIRST_MORTAL / 64;
        ClaimStart {
            from,
            near: false,
            next: from,
        }
    }

    /// Claims begin with the word of this cell in a heap of so many, or, where it is no mortal one, with the first
    /// word.
    pub(crate) fn at(cell: u32, cells: u32, near: bool) -> ClaimStart
        ensures from { result.from ≡ word_asked cells cell }
        ensures near { result.near ≡ near }
    {
        let asked = if FIRST_MORTAL <= cell && cell < cells {
            cell
        } else {
            FIRST_MORTAL
        };
        let from = asked / 64;
        ClaimStart {
            from,
            near,
            next: from,
        }
    }

    /// The word at which the next claim begins.
    #[inline(always)]
    pub(crate) fn word(&self) -> u32
        ensures as_asked { self.now.near ≡ false → result ≡ self.now.from }
    {
        self.next
    }

    /// The cell was claimed.
    #[inline(always)]
    pub(crate) fn claimed(&mut self, cell: u32)
        ensures same { self.new ≡ self.old }
    {
        if self.near {
            self.next = cell / 64;
        }
    }

    /// The cell is free again.
    #[inline(always)]
    pub(crate) fn freed(&mut self, cell: u32)
        ensures same { self.new ≡ self.old }
    {
        let word = cell / 64;
        // Where nobody asked the first comparison tells: no mortal cell is in a lower word.
        if word < self.next && self.near && self.from <= word {
            self.next = word;
        }
    }
}

/// A frame that nobody asked where its claims begin makes each object in the lowest cell that was to be had: of each
/// mortal cell below it the thread has found in this search that it wasn't free, with a note of its free word with its
/// bit 0.
#[tactic(auto, using(crate::proofs::Unasked::made_first))]
pub fn unasked_claims_take_the_lowest_cell<A: Allocator>()
    ensures lowest { (old new : FrameSeen A) (contents : contents_data) (given : HandleSeen)
        (made : Made old new contents given)
        → old.from ≡ first_word → old.near ≡ false → ClaimsFirst made.cell old.seat.log made.mid }
{}
