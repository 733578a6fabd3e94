//! What threads count, and what couldn't be had.

use std::fmt;
use std::fmt::{Display, Formatter, Write};

/// What can't be had.
#[derive(Clone, Copy)]
pub(crate) enum Want {
    Memory,
    Mutator,
    Thread,
    List,
    Handle,
    EmptyGlobals,
}

impl Display for Want {
    fn fmt<W: Write>(&self, into: &mut Formatter<W>) -> fmt::Result {
        let name = match self {
            Want::Memory => "memory",
            Want::Mutator => "mutator",
            Want::Thread => "thread",
            Want::List => "list",
            Want::Handle => "handle",
            Want::EmptyGlobals => "empty globals",
        };
        write!(into, "no {name} can be had")
    }
}

/// What threads counted, each for itself or several together.
#[derive(Clone, Copy)]
pub(crate) struct Counted {
    /// How often somebody looked for the list.
    pub(crate) tries: u32,
    /// How often it was there.
    pub(crate) finds: u32,
    /// What couldn't be had first.
    pub(crate) want: Option<Want>,
}

impl Counted {
    /// Nobody has looked, and nothing was wanting.
    pub(crate) const NOTHING: Counted = Counted {
        tries: 0,
        finds: 0,
        want: None,
    };

    /// Nobody has looked, since this can't be had.
    pub(crate) fn wanting(want: Want) -> Counted {
        Counted {
            want: Some(want),
            ..Counted::NOTHING
        }
    }

    /// One look, and whether the list was there.
    pub(crate) fn look(is_there: bool) -> Counted {
        Counted {
            tries: 1,
            finds: is_there as u32,
            want: None,
        }
    }

    /// What both counted.
    pub(crate) fn and(self, later: Counted) -> Counted {
        Counted {
            tries: self.tries.saturating_add(later.tries),
            finds: self.finds.saturating_add(later.finds),
            want: self.want.or(later.want),
        }
    }
}
