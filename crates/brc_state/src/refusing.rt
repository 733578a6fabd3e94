//! Whether an event is enabled, and if not, which of its conditions fails first.

ghost use Rattle.std.specs.Prelude.{◌≡◌, ◌↔◌, true, None};
ghost use Rattle.std.specs.Prelude.{length};
ghost use Rattle.law.specs.world.Heap.{worklist_at};
ghost use Rattle.law.specs.world.Steps.{needs_no_cell, own_ok_at, others_ok, target_at, enabled, owned_are_marked};
ghost use Rattle.law.specs.world.Steps.{may_leave, first_gathered, number_ok};
ghost use Rattle.brc_state.specs.Closers.{ClosersHaveLeft};
ghost use Rattle.brc_state.specs.Refusals.{is_roots, root_refusal, cell_refusal, thread_refusal, refusal_of};

use crate::cell_conditions::{cell_ok, is_owned_by};
use crate::conditions::{edition_ok, hand_ok, is_free_hand, is_left, lock_ok, stage_ok};
use crate::tables::Tables;
use brc_words::{MOST_REGISTRATIONS, MOST_THREADS};
use law::world::{Edition, Event, Step, no_cell, words_for};
use std::alloc::Allocator;

/// Which condition of an event fails, of those of `docs/HEAP.md`, section 3, in the order in which they are looked at.
#[derive(Clone, Copy, Debug, PartialEq, Eq)]
pub enum Refusal {
    /// The root makes `register` and `gather`, and threads make all else.
    NotItsOwn,
    /// `register` names another number than the next, or one above 64.
    NotNext,
    /// General: the thread isn't registered. Of `gather` it is the thread that is named.
    NotRegistered,
    /// General: the thread is gathered. Of `gather` it is the thread that is named.
    Gathered,
    /// General: what a thread that is closing or has left may do. Of `gather`: the thread has left.
    Stage,
    /// General: what a thread does while it has an object locked, and what it does then alone.
    Lock,
    /// The hand is free, or is the one of the event's row. Of `gather`: the hand is free.
    Hand,
    /// The event's row, where it speaks of births, kinds, worklists, popped bits or queue words; the place that is
    /// filled is vacant; what an unlock's change asks of places and entries. Of `gather`: nothing is popped or on the
    /// worklist.
    OwnPart,
    /// `nudge`: the thread that is told is registered, and has the queue word. `close`: the thread has seen to its
    /// objects.
    Told,
    /// The event is one of this edition.
    Edition,
    /// General: the event means a cell of the heap.
    NoCell,
    /// The event's row, where it speaks of the cell that is meant.
    Cell,
}

/// Whether the step is the root's.
#[inline(always)]
fn is_roots(step: Step) -> bool
    ensures { result ≡ is_roots step }
{
    matches!(step, Step::Register(_) | Step::Gather(_))
}

/// Whether the step is on words that are no cell's.
#[inline(always)]
fn needs_no_cell(step: Step) -> bool
    ensures { result ≡ needs_no_cell step }
{
    matches!(
        step,
        Step::Drain(_) | Step::Close(_) | Step::Nudge { .. } | Step::Wake | Step::Reopen(_)
    )
}

impl<A: Allocator + Copy> Tables<A> {
    /// Whether each cell that the thread owns is on its worklist.
    fn owned_are_marked(&self, thread: u32) -> bool
        ensures { result ≡ owned_are_marked thread self.now.cells (worklist_at self.now thread)
            (length self.now.cells) }
    {
        let mut marked = true;
        for cell in 0..self.cells.len() {
            let found = self.cells.get(cell).copied().unwrap_or(no_cell());
            let here = !is_owned_by(thread, found.owner) || self.is_marked_at(thread, cell);
            marked = marked && here;
        }
        marked
    }

    /// Whether the thread has seen to its objects, as it must before it closes.
    fn may_leave(&self, thread: u32) -> bool
        ensures { result ≡ may_leave self.now.edition thread self.now.cells
            (worklist_at self.now thread) }
    {
        match self.edition {
            Edition::One => self.is_unmarked(thread),
            Edition::Two => self.owned_are_marked(thread),
        }
    }

    /// The lowest number of a thread that is gathered, or the next after all.
    #[tactic(auto, using(crate::proofs::Numbers::search_begins, crate::proofs::Numbers::search_goes_on, crate::proofs::Numbers::search_finds, crate::proofs::Numbers::search_ends))]
    fn first_gathered(&self) -> usize
        ensures { result ≡ first_gathered self.now.gathered }
    {
        for number in 0..self.gathered.len() {
            if self.gathered.get(number).copied().unwrap_or(false) {
                return number;
            }
        }
        self.gathered.len()
    }

    /// Whether this number may be registered next.
    fn number_ok(&self, thread: u32) -> bool
        ensures { result ≡ number_ok self.now.edition self.now thread }
    {
        match self.edition {
            Edition::One => thread as usize == self.rows.len(),
            Edition::Two => {
                0 < thread
                    && thread as usize == self.first_gathered()
                    && self.registrations < MOST_REGISTRATIONS
            }
        }
    }

    /// Whether a thread that is told something is registered, and has the queue word; and a thread that closes has seen
    /// to its objects, for which all cells are looked at with the first word alone.
    #[tactic(auto, using(crate::proofs::Closing::closers_may_close))]
    #[inline(always)]
    fn others_ok(&self, thread: u32, step: Step) -> bool
        requires own { own_ok_at self.now thread step ≡ true }
        requires closers { ClosersHaveLeft self.now }

        ensures { result ≡ others_ok self.now thread step }
    {
        match step {
            Step::Nudge { thread, word } => {
                self.is_registered(thread) && (word as usize) < words_for(self.cells.len())
            }
            Step::Close(word) => word > 0 || self.may_leave(thread),
            _ => true,
        }
    }

    /// What the cell that is meant fails: to be one of the heap, and as it must be.
    #[inline(always)]
    fn cell_refusal(&self, thread: u32, step: Step, means: Option<u32>) -> Option<Refusal>
        ensures { result ≡ cell_refusal self.now thread step means }
    {
        let Some(cell) = means else {
            return if needs_no_cell(step) {
                None
            } else {
                Some(Refusal::NoCell)
            };
        };
        if self.cells.len() <= cell as usize {
            return Some(Refusal::NoCell);
        }
        let found = self.cell(cell);
        if cell_ok(
            self.local_limit,
            thread,
            self.row(thread),
            step,
            cell,
            found,
        ) {
            None
        } else {
            Some(Refusal::Cell)
        }
    }

    /// What a thread's step fails, where its cell is this one.
    #[inline(always)]
    fn thread_refusal(&self, thread: u32, step: Step, means: Option<u32>) -> Option<Refusal>
        requires means { means ≡ target_at self.now thread step }
        requires closers { ClosersHaveLeft self.now }

        ensures { result ≡ thread_refusal self.now thread step }
    {
        let row = self.row(thread);
        if is_roots(step) {
            return Some(Refusal::NotItsOwn);
        }
        if !self.is_registered(thread) {
            return Some(Refusal::NotRegistered);
        }
        if self.is_gathered(thread) {
            return Some(Refusal::Gathered);
        }
        if !stage_ok(row.stage, step) {
            return Some(Refusal::Stage);
        }
        if !lock_ok(row.locked, step) {
            return Some(Refusal::Lock);
        }
        if !hand_ok(row.hand, step) {
            return Some(Refusal::Hand);
        }
        if !self.own_ok(thread, step) {
            return Some(Refusal::OwnPart);
        }
        if !self.others_ok(thread, step) {
            return Some(Refusal::Told);
        }
        if !edition_ok(self.edition, row, step) {
            return Some(Refusal::Edition);
        }
        self.cell_refusal(thread, step, means)
    }

    /// What the gathering of a thread fails.
    fn gather_refusal(&self, thread: u32) -> Option<Refusal>
        ensures { result ≡ root_refusal self.now (Step.Gather thread) }
    {
        let row = self.row(thread);
        if !self.is_registered(thread) {
            return Some(Refusal::NotRegistered);
        }
        if self.is_gathered(thread) {
            return Some(Refusal::Gathered);
        }
        if !is_left(row.stage) {
            return Some(Refusal::Stage);
        }
        if !is_free_hand(row.hand) {
            return Some(Refusal::Hand);
        }
        if self.has_popped_nothing(thread) && self.is_unmarked(thread) {
            None
        } else {
            Some(Refusal::OwnPart)
        }
    }

    /// What the root's step fails.
    // Apart, since the root's steps are rare.
    #[inline(never)]
    fn root_refusal(&self, step: Step) -> Option<Refusal>
        ensures { result ≡ root_refusal self.now step }
    {
        match step {
            Step::Register(thread) => {
                if self.number_ok(thread) && thread <= MOST_THREADS {
                    None
                } else {
                    Some(Refusal::NotNext)
                }
            }
            Step::Gather(thread) => self.gather_refusal(thread),
            _ => Some(Refusal::NotItsOwn),
        }
    }

    /// Which condition the event fails first, where it means this cell.
    #[inline(always)]
    fn refusal_at(&self, event: &Event, means: Option<u32>) -> Option<Refusal>
        requires means { means ≡ target_at self.now event.now.thread event.now.step }
        requires closers { ClosersHaveLeft self.now }

        ensures { result ≡ refusal_of self.now event.now }
    {
        if event.thread == 0 {
            self.root_refusal(event.step)
        } else {
            self.thread_refusal(event.thread, event.step, means)
        }
    }

    /// Which condition the event fails first, if it isn't enabled.
    #[tactic(auto, using(crate::proofs::Refused::unrefused_enabled))]
    pub fn refusal(&self, event: &Event) -> Option<Refusal>
        requires closers { ClosersHaveLeft self.now }

        ensures which { result ≡ refusal_of self.now event.now }
        ensures none { (result ≡ None) ↔ (enabled self.now event.now ≡ true) }
    {
        self.refusal_at(event, self.target(event.thread, event.step))
    }

    /// Whether the event is enabled, where it means this cell.
    #[inline(always)]
    pub fn enabled(&self, event: &Event, means: Option<u32>) -> bool
        requires means { means ≡ target_at self.now event.now.thread event.now.step }
        requires closers { ClosersHaveLeft self.now }

        ensures { result ≡ enabled self.now event.now }
    {
        self.refusal_at(event, means).is_none()
    }
}
