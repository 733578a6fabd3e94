//! The memory of objects: blocks, each one allocation with its own link, and lists of blocks.
//!
//! A block is made once and given back once; it can be neither copied nor forgotten. What it holds is read and edited
//! by index, and `specs/Payload.antt` shows it as plain data: kind, entries and keys. Room for an entry can be made
//! beforehand, so that the put itself neither fails nor takes memory.
#![tactic(auto)]

mod block;
mod cell_list;
mod entries;
mod key_map;
mod key_ref;
mod letters;
mod pairs;
mod payload;
mod worklist;

pub use block::Block;
pub use cell_list::CellList;
pub use entries::Entries;
pub use key_ref::KeyRef;
pub use letters::Letters;
pub use pairs::Pairs;
pub use payload::Payload;
pub use worklist::Worklist;
