//! Objects as an interpreter needs them: None, False, True, integers, texts, lists, dictionaries and mailboxes. They are
//! made over a frame, and read under their locks.
//!
//! What each maker does is what `brc_count` says of `Frame::immortal` and `Frame::born`; here stands which of the two
//! it is, and with which contents (`specs/Makers.antt`).
//!
//! Each other call is a locking, at most one step on an entry, and an unlocking; its answer is that of plain data on
//! what the locking found (`specs/Looking.antt`). The forms with `try_` never wait: an object that another thread has
//! locked is Busy. The others try again, and hold nothing while they do. What a call does is one definition, which both
//! its forms cite.
#![tactic(auto)]

mod dict_valued;
mod dict_values;
mod indexing;
mod late;
mod laws;
mod lists;
mod looking;
mod mailboxes;
mod makers;
mod placing;
mod putting;
mod readers;
mod rows;
mod seeking;
mod swap_if;
mod value;
mod valued;
mod valued_entries;
mod valued_late;
mod waiting_calls;
mod waiting_readers;
mod within;

pub use dict_valued::{
    dict_del_value, dict_find_value, dict_pair_value, dict_put_new_value, dict_set_value,
    try_dict_del_value, try_dict_find_value, try_dict_pair_value, try_dict_put_new_value,
    try_dict_set_value,
};
pub use dict_values::{
    dict_del, dict_del_by, dict_find, dict_find_by, try_dict_del, try_dict_del_by, try_dict_find,
    try_dict_find_by,
};
pub use indexing::{dict_key, dict_pair, try_dict_key, try_dict_pair};
pub use late::begin_late;
pub use laws::{calls_on_an_object_are_one_history, lost_tries_change_nothing};
pub use lists::{try_list_get, try_list_pop, try_list_push, try_list_set, try_list_take};
pub use looking::{copy_prefix, show_from};
pub use mailboxes::{try_recv, try_send};
pub use makers::{
    new_dict, new_dict_with_room, new_int, new_list, new_list_with_room, new_mailbox, new_text,
    none, truth,
};
pub use placing::{dict_key_by, try_dict_key_by};
pub use putting::{dict_put, dict_set, try_dict_put, try_dict_set};
pub use readers::{
    try_bytes_of, try_bytes_shown, try_int_of, try_kind_of, try_len_of, try_text_into, try_text_is,
    try_text_of, try_text_shown,
};
pub use swap_if::{dict_swap_if, list_swap_if, try_dict_swap_if, try_list_swap_if};
pub use value::{Pair, SwapIf, Value};
pub use valued::{
    try_list_get_value, try_list_pop_value, try_list_push_value, try_list_put_value,
    try_list_set_value, try_list_take_value, try_recv_value, try_send_value,
};
pub use valued_late::{
    list_get_value, list_pop_value, list_push_value, list_put_value, list_set_value,
    list_take_value, recv_value, send_value,
};
pub use waiting_calls::{list_get, list_pop, list_push, list_set, list_take, recv, send};
pub use waiting_readers::{bytes_of, int_of, kind_of, len_of, text_into, text_of};
