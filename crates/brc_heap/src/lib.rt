//! The running heap as one library: what an interpreter's author names, and nothing else.
//!
//! A heap is opened (`Heap::new`) with its root, which registers threads: up to 64 at a time, and up to 65,536 in all.
//! Each thread has a `Mutator`, and works over its frame: objects are made (`new_int`, `new_list`, ..), retained and
//! released, and lists, dictionaries and mailboxes read and changed under their locks. A `Handle` is a reference; it
//! must be given back, by `Frame::release` or by a call that takes it. `Handles` keeps many. A thread ends by
//! `Mutator::settle_and_leave`, `settle_and_join` or `leave_without_waiting`; what it owns is handed over, and once the
//! root gathers it its number is given again. `Shared` is a heap by a count, with its root at a desk, for threads that
//! can't name a lifetime. A heap ends by `close_or_end`, with a report of what is left or why there is none; by
//! `close`, which hands heap and root back if a thread isn't gathered; or by `take_apart` and `give_back`.
//!
//! What contracts of a client cite stands in `specs/Words.antt`: which handles a frame owns before and after a call.
#![tactic(auto)]

mod asking;
mod closing;
mod collecting;
mod desk;
mod ending;
mod fixed;
mod inner;
mod last;
mod shared;
mod sight;

pub use asking::{same_object, truth_of};

// the heap and its threads
pub use brc_count::Ledger;
pub use brc_count::table::Rest;
pub use brc_report::{Cells, Content, Remain, Report, check_report, write_report};
pub use brc_thread::{Heap, Options, Resting, Retired, Root, give_back, take_apart};
pub use closing::{CloseFault, close};
pub use ending::{NoReport, close_or_end};
pub use fixed::{Leaving, Mutator};

// a heap by a count, and its threads
pub use fixed::SharedMutator;
pub use last::LastReport;
pub use shared::{NotClosed, NotRegistered, RootCounts, Shared, Stays};
pub use sight::{Registration, Sight};

// references
pub use brc_count::{HandedBack, Handle};
pub use brc_handles::Handles;
pub use fixed::Frame;

// objects
pub use brc_things::{new_dict, new_int, new_list, new_mailbox, new_text, none, truth};

// what they are and hold
pub use brc_count::block::KeyRef;
pub use brc_things::{
    bytes_of, dict_del, dict_del_by, dict_find, dict_find_by, dict_key, dict_key_by, dict_pair,
    dict_put, dict_set, int_of, kind_of, len_of, list_get, list_pop, list_push, list_set,
    list_take, recv, send, text_into, text_of, try_bytes_of, try_dict_del, try_dict_del_by,
    try_dict_find, try_dict_find_by, try_dict_key, try_dict_key_by, try_dict_pair, try_dict_put,
    try_dict_set, try_int_of, try_kind_of, try_len_of, try_list_get, try_list_pop, try_list_push,
    try_list_set, try_list_take, try_recv, try_send, try_text_into, try_text_of,
};

// the same by values: scalars without an object, and references with a label
pub use brc_things::{
    Pair, Value, dict_del_value, dict_find_value, dict_pair_value, dict_set_value, list_get_value,
    list_pop_value, list_push_value, list_put_value, list_set_value, list_take_value, recv_value,
    send_value, try_dict_del_value, try_dict_find_value, try_dict_pair_value, try_dict_set_value,
    try_list_get_value, try_list_pop_value, try_list_push_value, try_list_put_value,
    try_list_set_value, try_list_take_value, try_recv_value, try_send_value,
};

// plain values
pub use brc_words::{Fault, GLOBALS, Key, Kind, Note, Text};

// names of before, for one version
pub use asking::same_object as is_same;
pub use brc_count::HandedBack as Handed;
