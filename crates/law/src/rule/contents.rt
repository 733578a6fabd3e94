//! What a block holds, as plain data. Views speak of it; no value of these types is made.

use brc_words::Entry;
use std::collections::LinkedList;

/// The key of a dictionary's pair.
pub enum PlainKey {
    Int(i64),
    Text(LinkedList<u8>),
}

/// What an object is and holds: of a container the cells, each with what a client noted beside it, of a dictionary with
/// their keys.
pub enum Contents {
    Nothing,
    Truth(bool),
    Int(i64),
    Text(LinkedList<u8>),
    List(LinkedList<Entry>),
    Dict(LinkedList<(PlainKey, Entry)>),
    Mailbox(LinkedList<Entry>),
}
