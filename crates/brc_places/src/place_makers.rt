//! Makers: what is made goes into a place.

ghost use Rattle.std.specs.Prelude.{◌≡◌, IfOk, IfErr, OnOk, OnErr};
ghost use Rattle.brc_count.specs.law.declared.rule.contents.Contents.TheVariants as contents;
ghost use Rattle.brc_count.specs.Frames.{IsUnlocked};
ghost use Rattle.brc_count.specs.Making.{Made};
ghost use Rattle.brc_count.specs.Owned.{Keeps, Gains};
ghost use Rattle.brc_handles.specs.Handles.{OwnsEach};
ghost use Rattle.brc_handles.specs.Standing.{KeepsStanding};
ghost use Rattle.brc_places.specs.Calls.{MadeBy, RefusedText};
ghost use Rattle.brc_places.specs.Placing.{Comes, Lacks};

use crate::placing::{To, close, fill, open};
use brc_count::biased::HasTable;
use brc_count::{Frame, Handle};
use brc_handles::Handles;
use brc_things::{
    new_dict, new_dict_with_room, new_int, new_list, new_list_with_room, new_mailbox, new_text,
    none, truth,
};
use brc_words::{Fault, Text};
use std::alloc::Allocator;

/// What is made: a reference to an immortal, or a new object.
#[derive(Clone, Copy)]
pub enum Make<'t> {
    /// None.
    Nothing,
    /// False, or True.
    Truth(bool),
    /// The globals, the one dictionary that all threads of a heap reach.
    Globals,
    /// An integer.
    Int(i64),
    /// A text of its own, with these bytes.
    Text(&'t str),
    /// The same of any bytes.
    Bytes(&'t [u8]),
    /// An empty list.
    List,
    /// An empty list, with memory for so many entries.
    ListFor(u32),
    /// An empty dictionary.
    Dict,
    /// An empty dictionary, with memory for so many pairs.
    DictFor(u32),
    /// An empty mailbox.
    Mailbox,
}

/// A copy of the text, as an object.
fn made_text<H: HasTable<A>, A: Allocator + Copy>(
    alloc: A,
    frame: &mut Frame<H, A>,
    text: &str,
) -> Result<Handle<A>, Fault>
    requires unlocked { IsUnlocked frame.old }
    ensures made { IfOk result (Made frame.old frame.new (contents.Text text.now)) }
    ensures refused { IfErr result (RefusedText frame.old frame.new) }
    ensures gains { IfOk result (Gains frame.old frame.new) }
    ensures keeps { OnErr result (Keeps frame.old frame.new) }
    ensures unlocked { IsUnlocked frame.new }
{
    let Ok(copy) = String::from_str(alloc, text) else {
        return Err(Fault::OutOfMemory);
    };
    match new_text(alloc, frame, Text::new(copy)) {
        Ok(handle) => Ok(handle),
        Err(handed) => Err(handed.fault),
    }
}

/// A copy of the bytes, as an object.
fn made_bytes<H: HasTable<A>, A: Allocator + Copy>(
    alloc: A,
    frame: &mut Frame<H, A>,
    bytes: &[u8],
) -> Result<Handle<A>, Fault>
    requires unlocked { IsUnlocked frame.old }
    ensures made { IfOk result (Made frame.old frame.new (contents.Text bytes.now)) }
    ensures refused { IfErr result (RefusedText frame.old frame.new) }
    ensures gains { IfOk result (Gains frame.old frame.new) }
    ensures keeps { OnErr result (Keeps frame.old frame.new) }
    ensures unlocked { IsUnlocked frame.new }
{
    let Ok(copy) = Vec::from_slice(alloc, bytes) else {
        return Err(Fault::OutOfMemory);
    };
    match new_text(alloc, frame, Text::of_bytes(copy)) {
        Ok(handle) => Ok(handle),
        Err(handed) => Err(handed.fault),
    }
}

/// What is made. OutOfMemory for the copy of a text comes first, then what its maker answers (`brc_things`).
#[inline(always)]
pub fn make_by<H: HasTable<A>, A: Allocator + Copy>(
    alloc: A,
    frame: &mut Frame<H, A>,
    make: Make<'_>,
) -> Result<Handle<A>, Fault>
    requires unlocked { IsUnlocked frame.old }
    ensures did { MadeBy make.entry frame.old frame.new result }
    ensures gains { IfOk result (Gains frame.old frame.new) }
    ensures keeps { OnErr result (Keeps frame.old frame.new) }
    ensures unlocked { IsUnlocked frame.new }
{
    match make {
        Make::Nothing => none(frame),
        Make::Truth(is_true) => truth(frame, is_true),
        Make::Globals => frame.globals(),
        Make::Int(number) => new_int(alloc, frame, number),
        Make::Text(text) => made_text(alloc, frame, text),
        Make::Bytes(bytes) => made_bytes(alloc, frame, bytes),
        Make::List => new_list(alloc, frame),
        Make::ListFor(entries) => new_list_with_room(alloc, frame, entries as usize),
        Make::Dict => new_dict(alloc, frame),
        Make::DictFor(pairs) => new_dict_with_room(alloc, frame, pairs as usize),
        Make::Mailbox => new_mailbox(alloc, frame),
    }
}

/// What is made goes where it is to go. NoSuchPlace where that place isn't there; then OutOfMemory for a new place; then
/// OutOfMemory for the copy of a text, and what its maker answers (`brc_things`). A refusal changes nothing.
pub fn make_at<H: HasTable<A>, A: Allocator + Copy>(
    alloc: A,
    frame: &mut Frame<H, A>,
    handles: &mut Handles<A>,
    make: Make<'_>,
    to: To,
) -> Result<(), Fault>
    requires each { OwnsEach frame.old handles.old }
    requires unlocked { IsUnlocked frame.old }

    ensures stands { KeepsStanding frame.old frame.new handles.old handles.new }
    ensures made { OnOk result (Comes to (MadeBy make.entry frame.old) frame.new handles.old handles.new) }
    ensures refused { IfErr result (Lacks to (MadeBy make.entry frame.old) frame.old frame.new handles.old) }
    ensures keeps { OnErr result (Keeps frame.old frame.new) }
    ensures unchanged { OnErr result (handles.new ≡ handles.old) }
{
    // The place is had first: an object that was made would have to die again for want of one.
    let room = open(frame, handles, to)?;
    match make_by(alloc, frame, make) {
        Ok(given) => {
            fill(frame, handles, room, given);
            Ok(())
        }
        Err(fault) => {
            close(handles, to);
            Err(fault)
        }
    }
}
