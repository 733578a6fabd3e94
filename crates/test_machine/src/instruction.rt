//! The instructions of the machine.

/// What the machine does at one turn. The top is the last value of its stack.
#[derive(Clone, Copy)]
pub(crate) enum Instruction {
    // a value more on top
    Int(i64),
    Text(&'static str),
    True,
    List,
    Dict,
    Mailbox,
    Globals,
    /// The value in this place of the stack, counted from the first.
    Load(usize),
    Duplicate,

    // other moves of the stack
    Swap,
    Drop,
    /// The top goes into this place.
    Store(usize),

    // the top goes into the container below it
    Append,
    Put(&'static str),
    Send,

    // what the container on top gives, on top of it
    Last,
    Get(u32),
    Find(&'static str),
    Delete(&'static str),
    /// It waits for a letter.
    Receive,

    // numbers
    /// The two topmost go, and their sum is on top.
    Add,
    /// The number on top is the machine's answer.
    Tell,

    // where it goes on
    Jump(usize),
    /// The number on top goes, and if it was 0, this is next.
    JumpIfZero(usize),
}
