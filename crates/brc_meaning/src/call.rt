//! The calls that instructions make on containers.

use crate::reference::Reference;

/// A call on a list or a mailbox.
#[derive(Clone, Copy)]
pub enum Call {
    // On a list.
    Push(Reference),
    Pop,
    Get(u32),
    Set(u32, Reference),

    // On a mailbox.
    Send(Reference),
    Receive,
}

/// A call on a dictionary, at a key.
#[derive(Clone, Copy)]
pub enum KeyedCall {
    Put(Reference),
    Find,
    Delete,
}
