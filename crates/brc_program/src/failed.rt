//! Why nothing came of what was asked for.

use crate::unread::Unread;
use brc_mistakes::Mistake;
use brc_trace::Unreplayed;

/// Why nothing came of what was asked for.
#[derive(Clone, Copy, Debug, PartialEq, Eq)]
pub(crate) enum Failed {
    /// A fault, and why it came where that is known.
    Fault(Unreplayed),
    /// The line is not one of a report or of a world, or can't stand there; 0 if the text is too long.
    NoGraph(u32),
    /// The line is not one of a script, and this is wrong with it.
    NoScript(u32, Mistake),
    /// The words ask for nothing, and this is wrong with them.
    NoCommand(Unread),
}
