//! What a seat has done and seen. No value of these types is made.

use crate::known::Word;
use crate::rule::contents::Contents;
use crate::world::Step;

/// The contents that go with a step.
pub enum Moved {
    Nothing,
    /// The step puts this cell's block home, with these contents.
    Put(u32, Contents),
    /// The step finds this cell's block, with these contents.
    Found(u32, Contents),
}

/// One item of a seat, with the number that it was told: a step, or a note, which is a load or a compare-exchange that
/// was lost.
pub enum LogItem {
    Stepped(Step, u64, Moved),
    Loaded(Word, u64),
    Lost(Word, u64),
}
