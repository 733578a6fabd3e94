//! How an instruction is shown.

use brc_script::{Instruction, Register};
use brc_words::{Key, Text};
use std::alloc::{AllocError, Global};

/// Text was added, or memory is wanting.
type Put = Result<(), AllocError>;

/// The name of an instruction, and the registers that follow it. Each of these functions writes into a text of its
/// caller's.
fn put(text: &mut String, name: &str, registers: &[Register]) -> Put {
    text.push_str(name)?;
    put_registers(text, registers)
}

fn put_registers(text: &mut String, registers: &[Register]) -> Put {
    for register in registers {
        write!(text, " {}", register.number())?;
    }
    Ok(())
}

fn put_word(text: &mut String, word: &str) -> Put {
    text.push_str(" ")?;
    text.push_str(word)
}

fn put_number(text: &mut String, number: i64) -> Put {
    write!(text, " {number}")
}

/// A text of a script, which is UTF-8.
pub(crate) fn shown(text: &Text<Global>) -> &str {
    text.as_str().unwrap_or("NOT UTF-8")
}

fn put_key(text: &mut String, key: &Key<Global>) -> Put {
    match key {
        Key::Int(number) => put_number(text, *number),
        Key::Text(name) => write!(text, " '{}", shown(name)),
    }
}

/// The variant, and the operands in the order of the fields.
pub(crate) fn put_instruction(text: &mut String, instruction: &Instruction<Global>) -> Put {
    match instruction {
        Instruction::List { to } => put(text, "List", &[*to]),
        Instruction::Dict { to } => put(text, "Dict", &[*to]),
        Instruction::Mailbox { to } => put(text, "Mailbox", &[*to]),
        Instruction::Copy { to, from } => put(text, "Copy", &[*to, *from]),
        Instruction::Drop { from } => put(text, "Drop", &[*from]),
        Instruction::Push { list, value } => put(text, "Push", &[*list, *value]),
        Instruction::Pop { to, list } => put(text, "Pop", &[*to, *list]),
        Instruction::Len { to, container } => put(text, "Len", &[*to, *container]),
        Instruction::Send { mailbox, value } => put(text, "Send", &[*mailbox, *value]),
        Instruction::Receive { to, mailbox } => put(text, "Receive", &[*to, *mailbox]),
        Instruction::Add { to, first, second } => put(text, "Add", &[*to, *first, *second]),
        Instruction::Print { from } => put(text, "Print", &[*from]),
        _ => put_with_words(text, instruction),
    }
}

/// The same of those that have another operand than registers.
fn put_with_words(text: &mut String, instruction: &Instruction<Global>) -> Put {
    match instruction {
        Instruction::Int { to, number } => {
            put(text, "Int", &[*to])?;
            put_number(text, *number)
        }
        Instruction::Text { to, text: letters } => {
            put(text, "Text", &[*to])?;
            put_word(text, shown(letters))
        }
        Instruction::Get { to, list, index } => {
            put(text, "Get", &[*to, *list])?;
            put_number(text, i64::from(*index))
        }
        Instruction::Set { list, index, value } => {
            put(text, "Set", &[*list])?;
            put_number(text, i64::from(*index))?;
            put_registers(text, &[*value])
        }
        Instruction::Put { dict, key, value } => {
            put(text, "Put", &[*dict])?;
            put_key(text, key)?;
            put_registers(text, &[*value])
        }
        Instruction::Find { to, dict, key } => {
            put(text, "Find", &[*to, *dict])?;
            put_key(text, key)
        }
        Instruction::Delete { to, dict, key } => {
            put(text, "Delete", &[*to, *dict])?;
            put_key(text, key)
        }
        _ => put_with_names(text, instruction),
    }
}

/// The same of those that have a name of the globals.
fn put_with_names(text: &mut String, instruction: &Instruction<Global>) -> Put {
    match instruction {
        Instruction::Share { name, value } => {
            text.push_str("Share")?;
            put_word(text, shown(name))?;
            put_registers(text, &[*value])
        }
        Instruction::Fetch { to, name } => {
            put(text, "Fetch", &[*to])?;
            put_word(text, shown(name))
        }
        Instruction::Unshare { to, name } => {
            put(text, "Unshare", &[*to])?;
            put_word(text, shown(name))
        }
        _ => text.push_str("NOT SHOWN"),
    }
}
