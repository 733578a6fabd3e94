//! Each kind of line, as a function of its own.
//!
//! The loop over a section's lines calls them. None is inlined, and each takes only registers, numbers and references.
//! So the `PutIn`, `TakeOut` or `Await` of a line lies in that function's own stack frame. In the loop LLVM would set
//! each of these to zero for every line, whatever its kind.
//!
//! What each ensures is `Led`, of the instruction that it is for (`specs/Lines.antt`).

ghost use Rattle.std.specs.Prelude.{◌≡◌};
ghost use Rattle.brc_script.specs.declared.instruction.Instruction.TheVariants as instructions;
ghost use Rattle.brc_instructions.specs.Registers.{OwnsRegisters};
ghost use Rattle.brc_section.specs.Lines.{Led};

use crate::waiting::{Await, AwaitedHere, LookTry, SectionContext};
use brc_count::Frame;
use brc_count::biased::HasTable;
use brc_instructions::{
    Add, CopyHeld, Done, DropHeld, Empty, Execute, Len, MakeEmpty, MakeInt, MakeText, PutIn,
    Putting, Registers, TakeOut, TakingOut,
};
use brc_script::Register;
use brc_words::{Key, Text};
use std::alloc::Allocator;
use std::sync::Wait;

/// Others may wait for what the instruction has changed.
#[inline(always)]
pub(crate) fn stirs<R: Wait, A: Allocator>(rt: &R, done: Done, own: &SectionContext<'_, A>) -> Done
    ensures { result ≡ done }
{
    if done.is_ok() {
        own.board.change(rt);
    }
    done
}

/// `int`: a new integer.
#[inline(never)]
pub(crate) fn int_line<R: Wait, H: HasTable<A>, A: Allocator + Copy>(
    rt: &R,
    alloc: A,
    frame: &mut Frame<H, A>,
    registers: &mut Registers<A>,
    to: Register,
    number: i64,
) -> Done
    requires stands { OwnsRegisters frame.old registers.old }
    ensures led { Led frame.old frame.new registers.old registers.new (instructions.Int to number) result }
{
    MakeInt { to, number }.act(rt, alloc, frame, registers)
}

/// `text`: a new text, with these bytes.
#[inline(never)]
pub(crate) fn text_line<R: Wait, H: HasTable<A>, A: Allocator + Copy>(
    rt: &R,
    alloc: A,
    frame: &mut Frame<H, A>,
    registers: &mut Registers<A>,
    to: Register,
    text: &Text<A>,
) -> Done
    requires stands { OwnsRegisters frame.old registers.old }
    ensures led { Led frame.old frame.new registers.old registers.new (instructions.Text to text.now) result }
{
    MakeText { to, text }.act(rt, alloc, frame, registers)
}

/// `list`: a new list.
#[inline(never)]
pub(crate) fn list_line<R: Wait, H: HasTable<A>, A: Allocator + Copy>(
    rt: &R,
    alloc: A,
    frame: &mut Frame<H, A>,
    registers: &mut Registers<A>,
    to: Register,
) -> Done
    requires stands { OwnsRegisters frame.old registers.old }
    ensures led { Led frame.old frame.new registers.old registers.new (instructions.«List» to) result }
{
    let empty = Empty::List;
    MakeEmpty { to, empty }.act(rt, alloc, frame, registers)
}

/// `dict`: a new dictionary.
#[inline(never)]
pub(crate) fn dict_line<R: Wait, H: HasTable<A>, A: Allocator + Copy>(
    rt: &R,
    alloc: A,
    frame: &mut Frame<H, A>,
    registers: &mut Registers<A>,
    to: Register,
) -> Done
    requires stands { OwnsRegisters frame.old registers.old }
    ensures led { Led frame.old frame.new registers.old registers.new (instructions.Dict to) result }
{
    let empty = Empty::Dict;
    MakeEmpty { to, empty }.act(rt, alloc, frame, registers)
}

/// `mailbox`: a new mailbox.
#[inline(never)]
pub(crate) fn mailbox_line<R: Wait, H: HasTable<A>, A: Allocator + Copy>(
    rt: &R,
    alloc: A,
    frame: &mut Frame<H, A>,
    registers: &mut Registers<A>,
    to: Register,
) -> Done
    requires stands { OwnsRegisters frame.old registers.old }
    ensures led { Led frame.old frame.new registers.old registers.new (instructions.Mailbox to) result }
{
    let empty = Empty::Mailbox;
    MakeEmpty { to, empty }.act(rt, alloc, frame, registers)
}

/// `copy`: one reference more.
#[inline(never)]
pub(crate) fn copy_line<R: Wait, H: HasTable<A>, A: Allocator + Copy>(
    rt: &R,
    alloc: A,
    frame: &mut Frame<H, A>,
    registers: &mut Registers<A>,
    to: Register,
    from: Register,
) -> Done
    requires stands { OwnsRegisters frame.old registers.old }
    ensures led { Led frame.old frame.new registers.old registers.new (instructions.Copy to from) result }
{
    CopyHeld { to, from }.act(rt, alloc, frame, registers)
}

/// `drop`: the register's reference is released.
#[inline(never)]
pub(crate) fn drop_line<R: Wait, H: HasTable<A>, A: Allocator + Copy>(
    rt: &R,
    alloc: A,
    frame: &mut Frame<H, A>,
    registers: &mut Registers<A>,
    from: Register,
) -> Done
    requires stands { OwnsRegisters frame.old registers.old }
    ensures led { Led frame.old frame.new registers.old registers.new (instructions.Drop from) result }
{
    DropHeld { from }.act(rt, alloc, frame, registers)
}

/// `push`: the value becomes the list's last entry.
#[inline(never)]
pub(crate) fn push_line<R: Wait, H: HasTable<A>, A: Allocator + Copy>(
    rt: &R,
    alloc: A,
    frame: &mut Frame<H, A>,
    registers: &mut Registers<A>,
    list: Register,
    value: Register,
    own: &SectionContext<'_, A>,
) -> Done
    requires stands { OwnsRegisters frame.old registers.old }
    ensures led { Led frame.old frame.new registers.old registers.new (instructions.Push list value) result }
{
    let take = PutIn {
        container: list,
        value,
        taking: Putting::Push,
    };
    let done = take.act(rt, alloc, frame, registers);
    stirs(rt, done, own)
}

/// `pop`: the list's last entry comes out.
#[inline(never)]
pub(crate) fn pop_line<R: Wait, H: HasTable<A>, A: Allocator + Copy>(
    rt: &R,
    alloc: A,
    frame: &mut Frame<H, A>,
    registers: &mut Registers<A>,
    to: Register,
    list: Register,
    own: &SectionContext<'_, A>,
) -> Done
    requires stands { OwnsRegisters frame.old registers.old }
    ensures led { Led frame.old frame.new registers.old registers.new (instructions.Pop to list) result }
{
    let give = TakeOut {
        to,
        container: list,
        giving: TakingOut::Pop,
    };
    let done = give.act(rt, alloc, frame, registers);
    stirs(rt, done, own)
}

/// `get`: one reference more to the list's entry at this index.
#[inline(never)]
pub(crate) fn get_line<R: Wait, H: HasTable<A>, A: Allocator + Copy>(
    rt: &R,
    alloc: A,
    frame: &mut Frame<H, A>,
    registers: &mut Registers<A>,
    to: Register,
    list: Register,
    index: u32,
) -> Done
    requires stands { OwnsRegisters frame.old registers.old }
    ensures led { Led frame.old frame.new registers.old registers.new (instructions.Get to list index) result }
{
    let give = TakeOut {
        to,
        container: list,
        giving: TakingOut::Get(index),
    };
    give.act(rt, alloc, frame, registers)
}

/// `set`: the value takes the place of the list's entry, which comes out.
#[inline(never)]
pub(crate) fn set_line<R: Wait, H: HasTable<A>, A: Allocator + Copy>(
    rt: &R,
    alloc: A,
    frame: &mut Frame<H, A>,
    registers: &mut Registers<A>,
    list: Register,
    index: u32,
    value: Register,
    own: &SectionContext<'_, A>,
) -> Done
    requires stands { OwnsRegisters frame.old registers.old }
    ensures led { Led frame.old frame.new registers.old registers.new (instructions.Set list index value) result }
{
    let take = PutIn {
        container: list,
        value,
        taking: Putting::Set(index),
    };
    let done = take.act(rt, alloc, frame, registers);
    stirs(rt, done, own)
}

/// `len`: the number of entries, as a new integer.
#[inline(never)]
pub(crate) fn len_line<R: Wait, H: HasTable<A>, A: Allocator + Copy>(
    rt: &R,
    alloc: A,
    frame: &mut Frame<H, A>,
    registers: &mut Registers<A>,
    to: Register,
    container: Register,
) -> Done
    requires stands { OwnsRegisters frame.old registers.old }
    ensures led { Led frame.old frame.new registers.old registers.new (instructions.Len to container) result }
{
    Len { to, container }.act(rt, alloc, frame, registers)
}

/// `put`: the value goes beside the key, and an old value comes out.
#[inline(never)]
pub(crate) fn put_line<R: Wait, H: HasTable<A>, A: Allocator + Copy>(
    rt: &R,
    alloc: A,
    frame: &mut Frame<H, A>,
    registers: &mut Registers<A>,
    dict: Register,
    key: &Key<A>,
    value: Register,
    own: &SectionContext<'_, A>,
) -> Done
    requires stands { OwnsRegisters frame.old registers.old }
    ensures led { Led frame.old frame.new registers.old registers.new (instructions.Put dict key.now value) result }
{
    let take = PutIn {
        container: dict,
        value,
        taking: Putting::Put(key),
    };
    let done = take.act(rt, alloc, frame, registers);
    stirs(rt, done, own)
}

/// `find`: one reference more to the value beside the key.
#[inline(never)]
pub(crate) fn find_line<R: Wait, H: HasTable<A>, A: Allocator + Copy>(
    rt: &R,
    alloc: A,
    frame: &mut Frame<H, A>,
    registers: &mut Registers<A>,
    to: Register,
    dict: Register,
    key: &Key<A>,
) -> Done
    requires stands { OwnsRegisters frame.old registers.old }
    ensures led { Led frame.old frame.new registers.old registers.new (instructions.Find to dict key.now) result }
{
    let give = TakeOut {
        to,
        container: dict,
        giving: TakingOut::Find(key),
    };
    give.act(rt, alloc, frame, registers)
}

/// `del`: the value beside the key comes out, and its pair is removed.
#[inline(never)]
pub(crate) fn delete_line<R: Wait, H: HasTable<A>, A: Allocator + Copy>(
    rt: &R,
    alloc: A,
    frame: &mut Frame<H, A>,
    registers: &mut Registers<A>,
    to: Register,
    dict: Register,
    key: &Key<A>,
    own: &SectionContext<'_, A>,
) -> Done
    requires stands { OwnsRegisters frame.old registers.old }
    ensures led { Led frame.old frame.new registers.old registers.new (instructions.Delete to dict key.now) result }
{
    let give = TakeOut {
        to,
        container: dict,
        giving: TakingOut::Delete(key),
    };
    let done = give.act(rt, alloc, frame, registers);
    stirs(rt, done, own)
}

/// `send`: the value becomes the mailbox's last letter.
#[inline(never)]
pub(crate) fn send_line<R: Wait, H: HasTable<A>, A: Allocator + Copy>(
    rt: &R,
    alloc: A,
    frame: &mut Frame<H, A>,
    registers: &mut Registers<A>,
    mailbox: Register,
    value: Register,
    own: &SectionContext<'_, A>,
) -> Done
    requires stands { OwnsRegisters frame.old registers.old }
    ensures led { Led frame.old frame.new registers.old registers.new (instructions.Send mailbox value) result }
{
    let take = PutIn {
        container: mailbox,
        value,
        taking: Putting::Send,
    };
    let done = take.act(rt, alloc, frame, registers);
    stirs(rt, done, own)
}

/// `recv`: the mailbox's first letter comes out. An empty mailbox is waited for.
#[inline(never)]
pub(crate) fn receive_line<R: Wait, H: HasTable<A>, A: Allocator + Copy>(
    rt: &R,
    alloc: A,
    frame: &mut Frame<H, A>,
    registers: &mut Registers<A>,
    to: Register,
    mailbox: Register,
    own: &SectionContext<'_, A>,
) -> Done
    requires stands { OwnsRegisters frame.old registers.old }
    ensures led { Led frame.old frame.new registers.old registers.new (instructions.Receive to mailbox) result }
{
    let look = LookTry {
        to,
        awaited: AwaitedHere::Letter(mailbox),
    };
    Await { look, own }.act(rt, alloc, frame, registers)
}

/// `add`: the sum of two integers, as a new one.
#[inline(never)]
pub(crate) fn add_line<R: Wait, H: HasTable<A>, A: Allocator + Copy>(
    rt: &R,
    alloc: A,
    frame: &mut Frame<H, A>,
    registers: &mut Registers<A>,
    to: Register,
    first: Register,
    second: Register,
) -> Done
    requires stands { OwnsRegisters frame.old registers.old }
    ensures led { Led frame.old frame.new registers.old registers.new (instructions.Add to first second) result }
{
    Add { to, first, second }.act(rt, alloc, frame, registers)
}
