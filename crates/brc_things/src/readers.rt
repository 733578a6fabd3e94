//! What an object is: its kind, its length, its integer, its text.

ghost use Rattle.std.specs.Prelude.{◌≡◌, OnErr};
ghost use Rattle.std.specs.String.{string_bytes};
ghost use Rattle.brc_count.specs.Frames.{IsUnlocked, Owns};
ghost use Rattle.brc_count.specs.Owned.{Keeps};
ghost use Rattle.brc_things.specs.Looking.{KindOf, LenOf, IntOf, BytesOf, TextOf, TextInto, BytesShown, TextShown, TextIs};

use crate::looking::{
    append_text, bytes_are, container_len, copy_of_bytes, holds_bytes, int_in, is_text, show_bytes,
    show_text,
};
use brc_count::biased::HasTable;
use brc_count::{Frame, Handle};
use brc_words::{Fault, Kind, Text};
use std::alloc::{AllocError, Allocator};

/// What kind of object the handle is a reference to. Busy where another thread has it locked.
pub fn try_kind_of<H: HasTable<A>, A: Allocator>(
    frame: &mut Frame<H, A>,
    handle: &Handle<A>,
) -> Result<Kind, Fault>
    requires owned { Owns frame.old handle.now }
    requires unlocked { IsUnlocked frame.old }
    ensures looked { KindOf frame.old frame.new handle.now.place result }
    ensures keeps { Keeps frame.old frame.new }
    ensures unlocked { IsUnlocked frame.new }
{
    let Some(block) = frame.begin(handle) else {
        return Err(Fault::Busy);
    };
    let kind = block.payload().kind();
    frame.end_keep(block);
    Ok(kind)
}

/// How many entries a list, a dictionary or a mailbox has. Busy where another thread has it locked, then WrongKind
/// where the object is no container.
pub fn try_len_of<H: HasTable<A>, A: Allocator>(
    frame: &mut Frame<H, A>,
    handle: &Handle<A>,
) -> Result<usize, Fault>
    requires owned { Owns frame.old handle.now }
    requires unlocked { IsUnlocked frame.old }
    ensures looked { LenOf frame.old frame.new handle.now.place result }
    ensures keeps { Keeps frame.old frame.new }
    ensures unlocked { IsUnlocked frame.new }
{
    let Some(block) = frame.begin(handle) else {
        return Err(Fault::Busy);
    };
    let len = container_len(block.payload());
    frame.end_keep(block);
    match len {
        Some(len) => Ok(len),
        None => Err(Fault::WrongKind),
    }
}

/// The number of an integer. Busy where another thread has the object locked, then WrongKind where it is no integer.
pub fn try_int_of<H: HasTable<A>, A: Allocator>(
    frame: &mut Frame<H, A>,
    handle: &Handle<A>,
) -> Result<i64, Fault>
    requires owned { Owns frame.old handle.now }
    requires unlocked { IsUnlocked frame.old }
    ensures looked { IntOf frame.old frame.new handle.now.place result }
    ensures keeps { Keeps frame.old frame.new }
    ensures unlocked { IsUnlocked frame.new }
{
    let Some(block) = frame.begin(handle) else {
        return Err(Fault::Busy);
    };
    let number = int_in(block.payload());
    frame.end_keep(block);
    match number {
        Some(number) => Ok(number),
        None => Err(Fault::WrongKind),
    }
}

/// A copy of a list of bytes, of a text or not. Busy where another thread has the object locked, then WrongKind where it is
/// none, then OutOfMemory.
pub fn try_bytes_of<H: HasTable<A>, A: Allocator>(
    alloc: A,
    frame: &mut Frame<H, A>,
    handle: &Handle<A>,
) -> Result<Text<A>, Fault>
    requires owned { Owns frame.old handle.now }
    requires unlocked { IsUnlocked frame.old }
    ensures looked { BytesOf frame.old frame.new handle.now.place result }
    ensures keeps { Keeps frame.old frame.new }
    ensures unlocked { IsUnlocked frame.new }
{
    let Some(block) = frame.begin(handle) else {
        return Err(Fault::Busy);
    };
    if !holds_bytes(block.payload()) {
        frame.end_keep(block);
        return Err(Fault::WrongKind);
    }
    let copy = copy_of_bytes(alloc, block.payload());
    frame.end_keep(block);
    match copy {
        Some(bytes) => Ok(bytes),
        None => Err(Fault::OutOfMemory),
    }
}

/// A copy of a text. Busy where another thread has the object locked, then WrongKind where it is no text, as bytes are that
/// aren't UTF-8, then OutOfMemory.
pub fn try_text_of<H: HasTable<A>, A: Allocator>(
    alloc: A,
    frame: &mut Frame<H, A>,
    handle: &Handle<A>,
) -> Result<Text<A>, Fault>
    requires owned { Owns frame.old handle.now }
    requires unlocked { IsUnlocked frame.old }
    ensures looked { TextOf frame.old frame.new handle.now.place result }
    ensures keeps { Keeps frame.old frame.new }
    ensures unlocked { IsUnlocked frame.new }
{
    let Some(block) = frame.begin(handle) else {
        return Err(Fault::Busy);
    };
    if !is_text(block.payload()) {
        frame.end_keep(block);
        return Err(Fault::WrongKind);
    }
    let copy = copy_of_bytes(alloc, block.payload());
    frame.end_keep(block);
    match copy {
        Some(text) => Ok(text),
        None => Err(Fault::OutOfMemory),
    }
}

/// A text, into a buffer of the caller's, behind what it has. Busy where another thread has the object locked, then
/// WrongKind where it is no text, then OutOfMemory, where the buffer had no room for it; a refusal leaves the buffer's
/// bytes as they were.
pub fn try_text_into<H: HasTable<A>, A: Allocator, B: Allocator>(
    frame: &mut Frame<H, A>,
    handle: &Handle<A>,
    buffer: &mut String<B>,
) -> Result<(), Fault>
    requires owned { Owns frame.old handle.now }
    requires unlocked { IsUnlocked frame.old }
    ensures looked { TextInto frame.old frame.new handle.now.place buffer.old buffer.new result }
    ensures unchanged { OnErr result (string_bytes buffer.new ≡ string_bytes buffer.old) }
    ensures keeps { Keeps frame.old frame.new }
    ensures unlocked { IsUnlocked frame.new }
{
    let Some(block) = frame.begin(handle) else {
        return Err(Fault::Busy);
    };
    if !is_text(block.payload()) {
        frame.end_keep(block);
        return Err(Fault::WrongKind);
    }
    let done = append_text(block.payload(), buffer);
    frame.end_keep(block);
    match done {
        Ok(()) => Ok(()),
        Err(AllocError) => Err(Fault::OutOfMemory),
    }
}

/// How many bytes a list of bytes has, and these from one on, as many as there is room for. Busy where another thread has the
/// object locked, then WrongKind where it is none. It takes no memory.
pub fn try_bytes_shown<H: HasTable<A>, A: Allocator>(
    frame: &mut Frame<H, A>,
    handle: &Handle<A>,
    from: usize,
    to: &mut [u8],
) -> Result<usize, Fault>
    requires owned { Owns frame.old handle.now }
    requires unlocked { IsUnlocked frame.old }
    ensures looked { BytesShown frame.old frame.new handle.now.place from to.old to.new result }
    ensures unchanged { OnErr result (to.new ≡ to.old) }
    ensures keeps { Keeps frame.old frame.new }
    ensures unlocked { IsUnlocked frame.new }
{
    let Some(block) = frame.begin(handle) else {
        return Err(Fault::Busy);
    };
    let len = show_bytes(block.payload(), from, to);
    frame.end_keep(block);
    match len {
        Some(len) => Ok(len),
        None => Err(Fault::WrongKind),
    }
}

/// How long a text is, and its bytes from one on, as many as there is room for. Busy where another thread has the object
/// locked, then WrongKind where it is no text. It takes no memory.
pub fn try_text_shown<H: HasTable<A>, A: Allocator>(
    frame: &mut Frame<H, A>,
    handle: &Handle<A>,
    from: usize,
    to: &mut [u8],
) -> Result<usize, Fault>
    requires owned { Owns frame.old handle.now }
    requires unlocked { IsUnlocked frame.old }
    ensures looked { TextShown frame.old frame.new handle.now.place from to.old to.new result }
    ensures unchanged { OnErr result (to.new ≡ to.old) }
    ensures keeps { Keeps frame.old frame.new }
    ensures unlocked { IsUnlocked frame.new }
{
    let Some(block) = frame.begin(handle) else {
        return Err(Fault::Busy);
    };
    let len = show_text(block.payload(), from, to);
    frame.end_keep(block);
    match len {
        Some(len) => Ok(len),
        None => Err(Fault::WrongKind),
    }
}

/// Whether a list of bytes has just these. Busy where another thread has the object locked, then WrongKind where it is none.
/// It takes no memory.
pub fn try_text_is<H: HasTable<A>, A: Allocator>(
    frame: &mut Frame<H, A>,
    handle: &Handle<A>,
    bytes: &[u8],
) -> Result<bool, Fault>
    requires owned { Owns frame.old handle.now }
    requires unlocked { IsUnlocked frame.old }
    ensures looked { TextIs frame.old frame.new handle.now.place bytes.now result }
    ensures keeps { Keeps frame.old frame.new }
    ensures unlocked { IsUnlocked frame.new }
{
    let Some(block) = frame.begin(handle) else {
        return Err(Fault::Busy);
    };
    let same = bytes_are(block.payload(), bytes);
    frame.end_keep(block);
    match same {
        Some(same) => Ok(same),
        None => Err(Fault::WrongKind),
    }
}
