//! The instruction of a line.

ghost use Rattle.std.specs.Prelude.{◌≡◌, ◌==◌, IfOk, IfErr};
ghost use Rattle.brc_words.specs.declared.fault.Fault.TheVariants.{OutOfMemory};
ghost use Rattle.brc_script.specs.Instructions.{registers_differ};
ghost use Rattle.brc_script.specs.Rows.{plain_at, text_at, put_at, find_at, delete_at, share_at, fetch_at, unshare_at};
ghost use Rattle.brc_script.specs.Rows.{worded_at, instruction_at, line_at};

use crate::first_word::FirstWord;
use crate::instruction::Instruction;
use crate::operands::{
    index_between_of, key_ahead, key_of, name_ahead, name_of, register_ahead, register_of, text_of,
    three_of, two_of, two_with_index_of, with_integer_of,
};
use crate::register::Register;
use crate::script::Line;
use brc_words::Fault;
use std::alloc::Allocator;

/// An instruction without a text, by the first word of its line and what stands behind it.
fn plain_of<A: Allocator>(word: FirstWord, rest: &[u8]) -> Option<Instruction<A>>
    ensures { result ≡ plain_at word rest.now }
{
    match word {
        FirstWord::Int => {
            let (to, number) = with_integer_of(rest)?;
            Some(Instruction::Int { to, number })
        }
        FirstWord::List => {
            let to = register_of(rest)?;
            Some(Instruction::List { to })
        }
        FirstWord::Dict => {
            let to = register_of(rest)?;
            Some(Instruction::Dict { to })
        }
        FirstWord::Mailbox => {
            let to = register_of(rest)?;
            Some(Instruction::Mailbox { to })
        }
        FirstWord::Copy => {
            let (to, from) = two_of(rest)?;
            Some(Instruction::Copy { to, from })
        }
        FirstWord::Drop => {
            let from = register_of(rest)?;
            Some(Instruction::Drop { from })
        }
        FirstWord::Push => {
            let (list, value) = two_of(rest)?;
            Some(Instruction::Push { list, value })
        }
        FirstWord::Pop => {
            let (to, list) = two_of(rest)?;
            Some(Instruction::Pop { to, list })
        }
        FirstWord::Get => {
            let (to, list, index) = two_with_index_of(rest)?;
            Some(Instruction::Get { to, list, index })
        }
        FirstWord::Set => {
            let (list, index, value) = index_between_of(rest)?;
            Some(Instruction::Set { list, index, value })
        }
        FirstWord::Len => {
            let (to, container) = two_of(rest)?;
            Some(Instruction::Len { to, container })
        }
        FirstWord::Send => {
            let (mailbox, value) = two_of(rest)?;
            Some(Instruction::Send { mailbox, value })
        }
        FirstWord::Recv => {
            let (to, mailbox) = two_of(rest)?;
            Some(Instruction::Receive { to, mailbox })
        }
        FirstWord::Add => {
            let (to, first, second) = three_of(rest)?;
            Some(Instruction::Add { to, first, second })
        }
        FirstWord::Print => {
            let from = register_of(rest)?;
            Some(Instruction::Print { from })
        }
        _ => None,
    }
}

// ---- instructions with a text, a name or a key

#[tactic(auto, unfolding(crate::specs::Rows::text_at))]
fn text_line<A: Allocator>(alloc: A, rest: &[u8]) -> Result<Option<Instruction<A>>, Fault>
    ensures read { IfOk result (λ found. found ≡ text_at rest.now) }
    ensures refused { IfErr result (λ fault. fault ≡ OutOfMemory) }
{
    let Some((to, bytes)) = register_ahead(rest) else {
        return Ok(None);
    };
    match text_of(alloc, bytes)? {
        Some(text) => Ok(Some(Instruction::Text { to, text })),
        None => Ok(None),
    }
}

#[tactic(auto, unfolding(crate::specs::Rows::put_at))]
fn put_line<A: Allocator>(alloc: A, rest: &[u8]) -> Result<Option<Instruction<A>>, Fault>
    ensures read { IfOk result (λ found. found ≡ put_at rest.now) }
    ensures refused { IfErr result (λ fault. fault ≡ OutOfMemory) }
{
    let Some((dict, bytes)) = register_ahead(rest) else {
        return Ok(None);
    };
    let Some((key, bytes)) = key_ahead(alloc, bytes)? else {
        return Ok(None);
    };
    let Some(value) = register_of(bytes) else {
        return Ok(None);
    };
    Ok(Some(Instruction::Put { dict, key, value }))
}

#[tactic(auto, unfolding(crate::specs::Rows::find_at))]
fn find_line<A: Allocator>(alloc: A, rest: &[u8]) -> Result<Option<Instruction<A>>, Fault>
    ensures read { IfOk result (λ found. found ≡ find_at rest.now) }
    ensures refused { IfErr result (λ fault. fault ≡ OutOfMemory) }
{
    let Some((to, bytes)) = register_ahead(rest) else {
        return Ok(None);
    };
    let Some((dict, bytes)) = register_ahead(bytes) else {
        return Ok(None);
    };
    match key_of(alloc, bytes)? {
        Some(key) => Ok(Some(Instruction::Find { to, dict, key })),
        None => Ok(None),
    }
}

#[tactic(auto, unfolding(crate::specs::Rows::delete_at))]
fn delete_line<A: Allocator>(alloc: A, rest: &[u8]) -> Result<Option<Instruction<A>>, Fault>
    ensures read { IfOk result (λ found. found ≡ delete_at rest.now) }
    ensures refused { IfErr result (λ fault. fault ≡ OutOfMemory) }
{
    let Some((to, bytes)) = register_ahead(rest) else {
        return Ok(None);
    };
    let Some((dict, bytes)) = register_ahead(bytes) else {
        return Ok(None);
    };
    match key_of(alloc, bytes)? {
        Some(key) => Ok(Some(Instruction::Delete { to, dict, key })),
        None => Ok(None),
    }
}

#[tactic(auto, unfolding(crate::specs::Rows::share_at))]
fn share_line<A: Allocator>(alloc: A, rest: &[u8]) -> Result<Option<Instruction<A>>, Fault>
    ensures read { IfOk result (λ found. found ≡ share_at rest.now) }
    ensures refused { IfErr result (λ fault. fault ≡ OutOfMemory) }
{
    let Some((name, bytes)) = name_ahead(alloc, rest)? else {
        return Ok(None);
    };
    let Some(value) = register_of(bytes) else {
        return Ok(None);
    };
    Ok(Some(Instruction::Share { name, value }))
}

#[tactic(auto, unfolding(crate::specs::Rows::fetch_at))]
fn fetch_line<A: Allocator>(alloc: A, rest: &[u8]) -> Result<Option<Instruction<A>>, Fault>
    ensures read { IfOk result (λ found. found ≡ fetch_at rest.now) }
    ensures refused { IfErr result (λ fault. fault ≡ OutOfMemory) }
{
    let Some((to, bytes)) = register_ahead(rest) else {
        return Ok(None);
    };
    match name_of(alloc, bytes)? {
        Some(name) => Ok(Some(Instruction::Fetch { to, name })),
        None => Ok(None),
    }
}

#[tactic(auto, unfolding(crate::specs::Rows::unshare_at))]
fn unshare_line<A: Allocator>(alloc: A, rest: &[u8]) -> Result<Option<Instruction<A>>, Fault>
    ensures read { IfOk result (λ found. found ≡ unshare_at rest.now) }
    ensures refused { IfErr result (λ fault. fault ≡ OutOfMemory) }
{
    let Some((to, bytes)) = register_ahead(rest) else {
        return Ok(None);
    };
    match name_of(alloc, bytes)? {
        Some(name) => Ok(Some(Instruction::Unshare { to, name })),
        None => Ok(None),
    }
}

fn worded_of<A: Allocator>(
    alloc: A,
    word: FirstWord,
    rest: &[u8],
) -> Result<Option<Instruction<A>>, Fault>
    ensures read { IfOk result (λ found. found ≡ worded_at word rest.now) }
    ensures refused { IfErr result (λ fault. fault ≡ OutOfMemory) }
{
    match word {
        FirstWord::Text => text_line(alloc, rest),
        FirstWord::Put => put_line(alloc, rest),
        FirstWord::Find => find_line(alloc, rest),
        FirstWord::Del => delete_line(alloc, rest),
        FirstWord::Share => share_line(alloc, rest),
        FirstWord::Fetch => fetch_line(alloc, rest),
        FirstWord::Unshare => unshare_line(alloc, rest),
        _ => Ok(None),
    }
}

// ---- all instructions

#[tactic(auto, unfolding(crate::specs::Rows::instruction_at))]
fn instruction_of<A: Allocator>(
    alloc: A,
    word: FirstWord,
    rest: &[u8],
) -> Result<Option<Instruction<A>>, Fault>
    ensures read { IfOk result (λ found. found ≡ instruction_at word rest.now) }
    ensures refused { IfErr result (λ fault. fault ≡ OutOfMemory) }
{
    match plain_of(word, rest) {
        Some(instruction) => Ok(Some(instruction)),
        None => worded_of(alloc, word, rest),
    }
}

fn is_same(register: Register, other: Register) -> bool
    ensures { result ≡ (register == other) }
{
    register.number() == other.number()
}

/// Whether no register stands twice in the instruction.
#[tactic(auto, unfolding(crate::specs::Instructions::registers_differ))]
fn registers_differ<A: Allocator>(instruction: &Instruction<A>) -> bool
    ensures { result ≡ registers_differ instruction.now }
{
    match instruction {
        Instruction::Copy { to, from, .. } => !is_same(*to, *from),
        Instruction::Push { list, value, .. } => !is_same(*list, *value),
        Instruction::Pop { to, list, .. } => !is_same(*to, *list),
        Instruction::Get { to, list, .. } => !is_same(*to, *list),
        Instruction::Set { list, value, .. } => !is_same(*list, *value),
        Instruction::Len { to, container, .. } => !is_same(*to, *container),
        Instruction::Put { dict, value, .. } => !is_same(*dict, *value),
        Instruction::Find { to, dict, .. } => !is_same(*to, *dict),
        Instruction::Delete { to, dict, .. } => !is_same(*to, *dict),
        Instruction::Send { mailbox, value, .. } => !is_same(*mailbox, *value),
        Instruction::Receive { to, mailbox, .. } => !is_same(*to, *mailbox),
        Instruction::Add { to, first, second } => {
            !is_same(*to, *first) && !is_same(*to, *second) && !is_same(*first, *second)
        }
        _ => true,
    }
}

/// The line of this number, by its first word and what stands behind it; none where that is no instruction, or names a
/// register twice.
#[tactic(auto, unfolding(crate::specs::Rows::line_at))]
pub(crate) fn line_of<A: Allocator>(
    alloc: A,
    number: u32,
    word: FirstWord,
    rest: &[u8],
) -> Result<Option<Line<A>>, Fault>
    ensures read { IfOk result (λ found. found ≡ line_at number word rest.now) }
    ensures refused { IfErr result (λ fault. fault ≡ OutOfMemory) }
{
    let Some(instruction) = instruction_of(alloc, word, rest)? else {
        return Ok(None);
    };
    if !registers_differ(&instruction) {
        return Ok(None);
    }
    Ok(Some(Line::new(number, instruction)))
}
