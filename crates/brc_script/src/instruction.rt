//! The instructions of a script.

use crate::register::Register;
use brc_words::{Key, Text};
use std::alloc::Allocator;

/// What one line of a section does. A result goes to the register `to`; the others are read.
#[derive(Drop)]
pub enum Instruction<A: Allocator> {
    // New objects.
    Int {
        to: Register,
        number: i64,
    },
    Text {
        to: Register,
        text: Text<A>,
    },
    List {
        to: Register,
    },
    Dict {
        to: Register,
    },
    Mailbox {
        to: Register,
    },

    // References.
    Copy {
        to: Register,
        from: Register,
    },
    Drop {
        from: Register,
    },

    // Lists.
    Push {
        list: Register,
        value: Register,
    },
    Pop {
        to: Register,
        list: Register,
    },
    Get {
        to: Register,
        list: Register,
        index: u32,
    },
    /// The value's register has the old entry afterwards.
    Set {
        list: Register,
        index: u32,
        value: Register,
    },

    /// The number of entries of a list, a dictionary or a mailbox, as a new integer.
    Len {
        to: Register,
        container: Register,
    },

    // Dictionaries.
    /// The value's register has the old value afterwards, or is empty.
    Put {
        dict: Register,
        key: Key<A>,
        value: Register,
    },
    Find {
        to: Register,
        dict: Register,
        key: Key<A>,
    },
    Delete {
        to: Register,
        dict: Register,
        key: Key<A>,
    },

    // The globals, by name.
    Share {
        name: Text<A>,
        value: Register,
    },
    /// Waits where the name isn't there.
    Fetch {
        to: Register,
        name: Text<A>,
    },
    Unshare {
        to: Register,
        name: Text<A>,
    },

    // Mailboxes.
    Send {
        mailbox: Register,
        value: Register,
    },
    /// Waits where the mailbox is empty.
    Receive {
        to: Register,
        mailbox: Register,
    },

    /// The sum of two integers, as a new one.
    Add {
        to: Register,
        first: Register,
        second: Register,
    },
    Print {
        from: Register,
    },
}
