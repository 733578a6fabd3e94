//! The step of one instruction.

ghost use Rattle.std.specs.Prelude.{◌≡◌};
ghost use Rattle.brc_script.specs.declared.instruction.Instruction.TheVariants as instructions;
ghost use Rattle.brc_meaning.specs.Steps.{after, integer_sum};
ghost use Rattle.brc_meaning.specs.Outcomes.{StepsAsMeant};

use crate::call::{Call, KeyedCall};
use crate::object::Object;
use crate::state::State;
use brc_plain::{PlainDict, PlainList, PlainQueue};
use brc_script::{Instruction, Register};
use brc_words::{Fault, Key, Text};
use std::alloc::Allocator;

fn sum(first: i64, second: i64) -> Result<i64, Fault>
    ensures { result ≡ integer_sum first second }
{
    match first.checked_add(second) {
        Some(sum) => Ok(sum),
        None => Err(Fault::Overflow),
    }
}

fn text<A: Allocator>(
    alloc: A,
    state: &mut State<A>,
    to: Register,
    text: &Text<A>,
) -> Result<(), Fault>
    ensures { StepsAsMeant result state.old state.new (after (instructions.Text to text.now) state.old) }
{
    let copy = text.copy(alloc)?;
    state.make(to, Object::Text(copy))
}

fn copy<A: Allocator>(state: &mut State<A>, to: Register, from: Register) -> Result<(), Fault>
    ensures { StepsAsMeant result state.old state.new (after (instructions.Copy to from) state.old) }
{
    let reference = state.registers.held(from)?;
    state.registers.hold(to, Some(reference));
    Ok(())
}

fn drop_held<A: Allocator>(state: &mut State<A>, from: Register) -> Result<(), Fault>
    ensures { StepsAsMeant result state.old state.new (after (instructions.Drop from) state.old) }
{
    let _reference = state.registers.held(from)?;
    state.registers.hold(from, None);
    Ok(())
}

fn push<A: Allocator>(state: &mut State<A>, list: Register, value: Register) -> Result<(), Fault>
    ensures { StepsAsMeant result state.old state.new (after (instructions.Push list value) state.old) }
{
    let given = state.registers.held(value)?;
    state.call(list, Call::Push(given), value)
}

fn set<A: Allocator>(
    state: &mut State<A>,
    list: Register,
    index: u32,
    value: Register,
) -> Result<(), Fault>
    ensures { StepsAsMeant result state.old state.new (after (instructions.Set list index value) state.old) }
{
    let given = state.registers.held(value)?;
    state.call(list, Call::Set(index, given), value)
}

fn len<A: Allocator>(state: &mut State<A>, to: Register, container: Register) -> Result<(), Fault>
    ensures { StepsAsMeant result state.old state.new (after (instructions.Len to container) state.old) }
{
    let reference = state.registers.held(container)?;
    let entries = state.objects.entries(reference)?;
    state.make_integer(to, entries as i64)
}

fn put<A: Allocator>(
    alloc: A,
    state: &mut State<A>,
    dict: Register,
    key: &Key<A>,
    value: Register,
) -> Result<(), Fault>
    ensures { StepsAsMeant result state.old state.new (after (instructions.Put dict key.now value) state.old) }
{
    let given = state.registers.held(value)?;
    state.call_at(alloc, dict, key, KeyedCall::Put(given), value)
}

fn send<A: Allocator>(state: &mut State<A>, mailbox: Register, value: Register) -> Result<(), Fault>
    ensures { StepsAsMeant result state.old state.new (after (instructions.Send mailbox value) state.old) }
{
    let given = state.registers.held(value)?;
    state.call(mailbox, Call::Send(given), value)
}

fn add<A: Allocator>(
    state: &mut State<A>,
    to: Register,
    first: Register,
    second: Register,
) -> Result<(), Fault>
    ensures { StepsAsMeant result state.old state.new (after (instructions.Add to first second) state.old) }
{
    // Both registers are looked at before either kind is.
    let first = state.registers.held(first)?;
    let second = state.registers.held(second)?;
    let first = state.objects.number(first)?;
    let second = state.objects.number(second)?;
    let sum = sum(first, second)?;
    state.make_integer(to, sum)
}

fn print<A: Allocator>(state: &mut State<A>, from: Register) -> Result<(), Fault>
    ensures { StepsAsMeant result state.old state.new (after (instructions.Print from) state.old) }
{
    let reference = state.registers.held(from)?;
    state.objects.print(reference, &mut state.printed)
}

/// Does what the instruction says; a refused one changes nothing, unless memory is missing.
pub(crate) fn step<A: Allocator + Copy>(
    alloc: A,
    state: &mut State<A>,
    instruction: &Instruction<A>,
) -> Result<(), Fault>
    ensures { StepsAsMeant result state.old state.new (after instruction.now state.old) }
{
    match instruction {
        Instruction::Int { to, number } => state.make_integer(*to, *number),
        Instruction::Text { to, text: bytes } => text(alloc, state, *to, bytes),
        Instruction::List { to } => state.make(*to, Object::List(PlainList::new(alloc))),
        Instruction::Dict { to } => state.make(*to, Object::Dict(PlainDict::new(alloc))),
        Instruction::Mailbox { to } => state.make(*to, Object::Mailbox(PlainQueue::new(alloc))),

        Instruction::Copy { to, from } => copy(state, *to, *from),
        Instruction::Drop { from } => drop_held(state, *from),

        Instruction::Push { list, value } => push(state, *list, *value),
        Instruction::Pop { to, list } => state.call(*list, Call::Pop, *to),
        Instruction::Get { to, list, index } => state.call(*list, Call::Get(*index), *to),
        Instruction::Set { list, index, value } => set(state, *list, *index, *value),
        Instruction::Len { to, container } => len(state, *to, *container),

        Instruction::Put { dict, key, value } => put(alloc, state, *dict, key, *value),
        Instruction::Find { to, dict, key } => {
            state.call_at(alloc, *dict, key, KeyedCall::Find, *to)
        }
        Instruction::Delete { to, dict, key } => {
            state.call_at(alloc, *dict, key, KeyedCall::Delete, *to)
        }

        Instruction::Send { mailbox, value } => send(state, *mailbox, *value),
        Instruction::Receive { to, mailbox } => state.call(*mailbox, Call::Receive, *to),

        Instruction::Add { to, first, second } => add(state, *to, *first, *second),
        Instruction::Print { from } => print(state, *from),

        // These don't stand in a private section.
        Instruction::Share { .. } | Instruction::Fetch { .. } | Instruction::Unshare { .. } => Ok(
            (),
        ),
    }
}
