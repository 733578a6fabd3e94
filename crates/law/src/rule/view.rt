//! What a seat at the table knows. No value of it is made.

use crate::rule::told::LogItem;
use std::collections::LinkedList;

/// A seat's thread and its items, newest first.
pub struct View {
    /// False in a view that another seat has taken in.
    pub active: bool,
    /// The thread that the seat steps for; 0 is the root.
    pub thread: u32,
    pub log: LinkedList<LogItem>,
    /// In the root's view, the items of the threads that are gathered, newest first.
    pub gathered: LinkedList<(u32, LinkedList<LogItem>)>,
}
