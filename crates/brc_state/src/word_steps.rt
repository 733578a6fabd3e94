//! The steps of a thread on words that are no cell's: bits of a queue word are popped, the word is closed, a notify
//! word changes.

ghost use Rattle.std.specs.Prelude.{◌≡◌, ◌/◌, ◌<◌, length};
ghost use Rattle.law.specs.world.Steps.{closed_more, opened_more, stage_after, drained_word, notify_words_after};
ghost use Rattle.law.specs.world.Steps.{kept_cells};
ghost use Rattle.brc_state.specs.Effects.{named_word};

use crate::bit_words::{empty_drained, only_bit, pop_drained};
use crate::tables::Tables;
use brc_words::MOST_CELLS;
use law::world::{Stage, Step, words_for};
use std::alloc::Allocator;

/// The queue word whose bits are popped.
fn drained_word(step: Step) -> Option<u32>
    ensures { result ≡ drained_word step }
{
    match step {
        Step::Drain(word) => Some(word),
        Step::Close(word) => Some(word),
        _ => None,
    }
}

/// How far the thread's life is after one more of its queue words was closed.
fn closed_more(words: usize, word: u32) -> Stage
    requires { word < MOST_CELLS / 32 }

    ensures { result ≡ closed_more words word }
{
    if word as usize + 1 == words {
        Stage::Left
    } else {
        Stage::Closing(word + 1)
    }
}

/// How far the thread's life is after one more of its queue words was opened again.
fn opened_more(words: usize, word: u32) -> Stage
    requires { word < MOST_CELLS / 32 }

    ensures { result ≡ opened_more words word }
{
    if word as usize + 1 == words {
        Stage::Active
    } else {
        Stage::Opening(word + 1)
    }
}

/// How far the thread's life is after the step.
fn stage_after(words: usize, step: Step, stage: Stage) -> Stage
    requires { named_word step < MOST_CELLS / 32 }

    ensures { result ≡ stage_after words step stage }
{
    match step {
        Step::Close(word) => closed_more(words, word),
        Step::Reopen(word) => opened_more(words, word),
        _ => stage,
    }
}

/// A thread is told of a queue word, or takes what it was told. A notify word has a bit for 32
/// queue words.
fn change_notify_words<A: Allocator>(notify_words: &mut Vec<u64, A>, thread: u32, step: Step)
    requires { named_word step < MOST_CELLS / 32 }

    ensures { notify_words.new.items ≡ notify_words_after thread step notify_words.old.items }
{
    match step {
        Step::Nudge { thread: told, word } => {
            if let Some(notify_word) = notify_words.get_mut(told as usize) {
                *notify_word |= only_bit(word / 32);
            }
        }
        Step::Wake => {
            if let Some(notify_word) = notify_words.get_mut(thread as usize) {
                *notify_word = 0;
            }
        }
        _ => {}
    }
}

impl<A: Allocator + Copy> Tables<A> {
    /// What a thread's step does that means no cell.
    // Apart, since most steps mean a cell.
    #[inline(never)]
    pub(crate) fn make_word_step(&mut self, thread: u32, step: Step)
        requires thread_there { thread < length self.old.rows }
        requires word { named_word step < MOST_CELLS / 32 }

        ensures { self.new ≡ kept_cells self.old thread step }
    {
        let words = words_for(self.cells.len());
        let taken = drained_word(step);
        let row = &mut self.rows[thread as usize];
        row.stage = stage_after(words, step, row.stage);
        pop_drained(&mut self.popped, &self.queues, thread, taken);
        empty_drained(&mut self.queues, thread, taken);
        change_notify_words(&mut self.notify_words, thread, step);
    }
}
