//! The moves of the holder map: what an event does to the references.

ghost use Rattle.std.specs.Prelude.{◌≡◌};

use crate::holder::Holder;
use brc_words::Kind;
use std::alloc::Allocator;
use std::marker::Model;

/// A place of a thread's frame.
#[derive(Clone, Copy, Debug, PartialEq, Eq)]
pub struct Spot {
    pub thread: u32,
    pub place: u32,
}

/// One reference that goes from one holder to another.
#[derive(Clone, Copy, Debug, PartialEq, Eq)]
pub struct Handover {
    pub object: u32,
    pub from: Holder,
    pub to: Holder,
}

/// References that are handed over one after the other, as a list.
#[derive(Debug, Drop)]
pub struct Handovers<A: Allocator> {
    list: Vec<Handover, A>,
}

impl<A: Allocator> Model for Handovers<A> {
    ghost use Rattle.std.specs.Prelude.{List};
    ghost use Rattle.brc_model.specs.declared.moves.Handover.{Handover};

    ghost Value = { List Handover };

    ghost view = { λ h. h.list.items };
}

impl<A: Allocator> Handovers<A> {
    /// The list as a value of its own.
    pub fn new(list: Vec<Handover, A>) -> Self
        ensures { result ≡ list.items }
    {
        Handovers { list }
    }

    /// The handovers in their order.
    pub fn as_slice(&self) -> &[Handover]
        ensures { result.now ≡ self.now }
    {
        self.list.as_slice()
    }
}

/// How the entries of a container and the places of a frame change together.
#[derive(Clone, Copy, Debug, PartialEq, Eq)]
pub enum Exchange {
    /// The cell of a place goes to the end of the entries.
    Put {
        from: u32,
        cell: u32,
    },
    /// An entry goes to a place, and the later entries close up.
    Take {
        index: u32,
        to: u32,
        cell: u32,
    },
    /// An entry and a place are exchanged: `cell` goes in, `old` comes out.
    Swap {
        index: u32,
        at: u32,
        cell: u32,
        old: u32,
    },
}

/// One change of the holder map.
#[derive(Debug, Drop)]
pub enum Move<A: Allocator> {
    /// An object comes to live, with one holder.
    Born {
        object: u32,
        kind: Kind,
        holder: Holder,
    },
    /// An object that has a holder gets one more.
    Add {
        object: u32,
        holder: Holder,
    },
    /// A holder goes.
    Remove {
        object: u32,
        holder: Holder,
    },
    /// References go from holder to holder, one after the other.
    Pass {
        list: Handovers<A>,
    },
    /// The thread that holds `cell` in `place` changes its entries.
    Change {
        cell: u32,
        place: Spot,
        change: Exchange,
    },
    /// An object without holders and entries ends.
    Dies {
        object: u32,
    },
}
