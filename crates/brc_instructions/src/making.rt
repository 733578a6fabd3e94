//! What is made: containers, and copies of what the script has.

ghost use Rattle.std.specs.Prelude.{◌≡◌, IfOk, IfErr, OnErr};
ghost use Rattle.brc_count.specs.Frames.{IsUnlocked};
ghost use Rattle.brc_count.specs.Making.{Made, RefusedMaking};
ghost use Rattle.brc_count.specs.Owned.{Keeps, Gains};
ghost use Rattle.brc_instructions.specs.Calls.{contents_of};

use brc_count::biased::HasTable;
use brc_count::{Frame, Handle};
use brc_heap::{new_dict, new_list, new_mailbox};
use brc_words::Fault;
use std::alloc::Allocator;

/// The kinds of containers.
#[derive(Clone, Copy)]
pub enum Empty {
    List,
    Dict,
    Mailbox,
}

/// A new container of this kind.
#[inline(always)]
pub(crate) fn new_empty<H: HasTable<A>, A: Allocator + Copy>(
    alloc: A,
    frame: &mut Frame<H, A>,
    empty: Empty,
) -> Result<Handle<A>, Fault>
    requires unlocked { IsUnlocked frame.old }
    ensures heap { frame.new.heap ≡ frame.old.heap }
    ensures made { IfOk result (Made frame.old frame.new (contents_of empty)) }
    ensures refused { IfErr result (RefusedMaking frame.old frame.new) }
    ensures gains { IfOk result (Gains frame.old frame.new) }
    ensures keeps { OnErr result (Keeps frame.old frame.new) }
    ensures unlocked { IsUnlocked frame.new }
{
    match empty {
        Empty::List => new_list(alloc, frame),
        Empty::Dict => new_dict(alloc, frame),
        Empty::Mailbox => new_mailbox(alloc, frame),
    }
}
