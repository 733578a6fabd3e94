//! The forms that wait: they try again until the object isn't locked by another thread. What each does then is what its
//! form with `try_` does, from the frame that the lost tries left, which have changed nothing
//! (`laws::lost_tries_change_nothing`).

ghost use Rattle.std.specs.Prelude.{◌≡◌, ◌≢◌, Ok, IfErr, OnErr};
ghost use Rattle.std.specs.String.{string_bytes};
ghost use Rattle.brc_words.specs.declared.fault.Fault.TheVariants as faults;
ghost use Rattle.brc_count.specs.Frames.{IsUnlocked, Owns};
ghost use Rattle.brc_count.specs.Owned.{Keeps};
ghost use Rattle.brc_things.specs.Called.{Late};
ghost use Rattle.brc_things.specs.Looking.{KindOf, LenOf, IntOf, BytesOf, TextOf, TextInto};

use crate::late::begin_late;
use crate::looking::{append_text, container_len, copy_of_bytes, holds_bytes, int_in, is_text};
use brc_count::biased::HasTable;
use brc_count::{Frame, Handle};
use brc_words::{Fault, Kind, Text};
use std::alloc::{AllocError, Allocator};
use std::sync::Wait;

/// What kind of object the handle is a reference to. It waits while another thread has it locked.
pub fn kind_of<H: HasTable<A>, A: Allocator>(
    rt: &impl Wait,
    frame: &mut Frame<H, A>,
    handle: &Handle<A>,
) -> Kind
    requires owned { Owns frame.old handle.now }
    requires unlocked { IsUnlocked frame.old }
    ensures looked { Late frame.old handle.now.place (λ mid. KindOf mid frame.new handle.now.place (Ok result)) }
    ensures keeps { Keeps frame.old frame.new }
    ensures unlocked { IsUnlocked frame.new }
{
    let block = begin_late(rt, frame, handle);
    let kind = block.payload().kind();
    frame.end_keep(block);
    kind
}

/// How many entries a list, a dictionary or a mailbox has; WrongKind where the object is no container. It waits while
/// another thread has it locked.
pub fn len_of<H: HasTable<A>, A: Allocator>(
    rt: &impl Wait,
    frame: &mut Frame<H, A>,
    handle: &Handle<A>,
) -> Result<usize, Fault>
    requires owned { Owns frame.old handle.now }
    requires unlocked { IsUnlocked frame.old }
    ensures looked { Late frame.old handle.now.place (λ mid. LenOf mid frame.new handle.now.place result) }
    ensures keeps { Keeps frame.old frame.new }
    ensures unlocked { IsUnlocked frame.new }
    ensures waited { IfErr result (λ fault. fault ≢ faults.Busy) }
{
    let block = begin_late(rt, frame, handle);
    let len = container_len(block.payload());
    frame.end_keep(block);
    match len {
        Some(len) => Ok(len),
        None => Err(Fault::WrongKind),
    }
}

/// The number of an integer; WrongKind where the object is none. It waits while another thread has it locked.
pub fn int_of<H: HasTable<A>, A: Allocator>(
    rt: &impl Wait,
    frame: &mut Frame<H, A>,
    handle: &Handle<A>,
) -> Result<i64, Fault>
    requires owned { Owns frame.old handle.now }
    requires unlocked { IsUnlocked frame.old }
    ensures looked { Late frame.old handle.now.place (λ mid. IntOf mid frame.new handle.now.place result) }
    ensures keeps { Keeps frame.old frame.new }
    ensures unlocked { IsUnlocked frame.new }
    ensures waited { IfErr result (λ fault. fault ≢ faults.Busy) }
{
    let block = begin_late(rt, frame, handle);
    let number = int_in(block.payload());
    frame.end_keep(block);
    match number {
        Some(number) => Ok(number),
        None => Err(Fault::WrongKind),
    }
}

/// A copy of a list of bytes, of a text or not; WrongKind where the object is none, then OutOfMemory. It waits while another
/// thread has it locked.
pub fn bytes_of<H: HasTable<A>, A: Allocator>(
    rt: &impl Wait,
    alloc: A,
    frame: &mut Frame<H, A>,
    handle: &Handle<A>,
) -> Result<Text<A>, Fault>
    requires owned { Owns frame.old handle.now }
    requires unlocked { IsUnlocked frame.old }
    ensures looked { Late frame.old handle.now.place (λ mid. BytesOf mid frame.new handle.now.place result) }
    ensures keeps { Keeps frame.old frame.new }
    ensures unlocked { IsUnlocked frame.new }
    ensures waited { IfErr result (λ fault. fault ≢ faults.Busy) }
{
    let block = begin_late(rt, frame, handle);
    if !holds_bytes(block.payload()) {
        frame.end_keep(block);
        return Err(Fault::WrongKind);
    }
    let copy = copy_of_bytes(alloc, block.payload());
    frame.end_keep(block);
    match copy {
        Some(bytes) => Ok(bytes),
        None => Err(Fault::OutOfMemory),
    }
}

/// A copy of a text; WrongKind where the object is none, then OutOfMemory. It waits while another thread has it locked.
pub fn text_of<H: HasTable<A>, A: Allocator>(
    rt: &impl Wait,
    alloc: A,
    frame: &mut Frame<H, A>,
    handle: &Handle<A>,
) -> Result<Text<A>, Fault>
    requires owned { Owns frame.old handle.now }
    requires unlocked { IsUnlocked frame.old }
    ensures looked { Late frame.old handle.now.place (λ mid. TextOf mid frame.new handle.now.place result) }
    ensures keeps { Keeps frame.old frame.new }
    ensures unlocked { IsUnlocked frame.new }
    ensures waited { IfErr result (λ fault. fault ≢ faults.Busy) }
{
    let block = begin_late(rt, frame, handle);
    if !is_text(block.payload()) {
        frame.end_keep(block);
        return Err(Fault::WrongKind);
    }
    let copy = copy_of_bytes(alloc, block.payload());
    frame.end_keep(block);
    match copy {
        Some(text) => Ok(text),
        None => Err(Fault::OutOfMemory),
    }
}

/// A text, into a buffer of the caller's, behind what it has; WrongKind where the object is none, then OutOfMemory,
/// where the buffer had no room for it. A refusal leaves the buffer's bytes as they were. It waits while another thread
/// has the object locked.
pub fn text_into<H: HasTable<A>, A: Allocator, B: Allocator>(
    rt: &impl Wait,
    frame: &mut Frame<H, A>,
    handle: &Handle<A>,
    buffer: &mut String<B>,
) -> Result<(), Fault>
    requires owned { Owns frame.old handle.now }
    requires unlocked { IsUnlocked frame.old }
    ensures looked { Late frame.old handle.now.place
        (λ mid. TextInto mid frame.new handle.now.place buffer.old buffer.new result) }
    ensures unchanged { OnErr result (string_bytes buffer.new ≡ string_bytes buffer.old) }
    ensures keeps { Keeps frame.old frame.new }
    ensures unlocked { IsUnlocked frame.new }
    ensures waited { IfErr result (λ fault. fault ≢ faults.Busy) }
{
    let block = begin_late(rt, frame, handle);
    if !is_text(block.payload()) {
        frame.end_keep(block);
        return Err(Fault::WrongKind);
    }
    let done = append_text(block.payload(), buffer);
    frame.end_keep(block);
    match done {
        Ok(()) => Ok(()),
        Err(AllocError) => Err(Fault::OutOfMemory),
    }
}
