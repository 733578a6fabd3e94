//! What the machines run.

use crate::instruction::Instruction::{
    self, Add, Append, Delete, Dict, Drop, Duplicate, Find, Get, Globals, Int, Jump, JumpIfZero,
    Last, List, Load, Mailbox, Put, Receive, Send, Store, Swap, Tell, Text, True,
};

/// A mailbox goes into the globals, for the others to find.
pub(crate) const OPENS: [Instruction; 3] = [Globals, Mailbox, Put("mail")];

/// Ten letters, from 10 down to 1: each is a list of a number, of a text and of True.
pub(crate) const SENDS: [Instruction; 20] = [
    Globals,
    Find("mail"),
    Int(10),
    Load(2),
    JumpIfZero(18),
    Load(1),
    List,
    Load(2),
    Append,
    Text("loaf"),
    Append,
    True,
    Append,
    Send,
    Drop,
    Int(-1),
    Add,
    Jump(3),
    Load(2),
    Tell,
];

/// Ten letters come, and their numbers are added up, from 1,000 on.
pub(crate) const ADDS: [Instruction; 19] = [
    Globals,
    Find("mail"),
    Int(1_000),
    Int(10),
    Load(3),
    JumpIfZero(17),
    Load(1),
    Receive,
    Get(0),
    Load(2),
    Add,
    Store(2),
    Drop,
    Drop,
    Int(-1),
    Add,
    Jump(4),
    Load(2),
    Tell,
];

/// The mailbox goes out of the globals. A dictionary has what a list's last entry was, once more, under a name.
pub(crate) const ENDS: [Instruction; 17] = [
    Globals,
    Delete("mail"),
    Drop,
    Dict,
    List,
    Int(500),
    Append,
    Last,
    Swap,
    Drop,
    Duplicate,
    Store(0),
    Put("last"),
    Find("last"),
    Load(0),
    Add,
    Tell,
];
