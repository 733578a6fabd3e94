//! What stays a thread's own while others step: the cells that it bore and never put into one that isn't private.
//! Definitions and laws on items of `law::known`.
//!
//! `specs/private/Private.antt` reads the private cells off the thread's own items, and says what sets them apart:
//! whoever holds or grips one is its thread or a private cell. That is so after every list of items
//! (`proofs/private/Private_Law.antt`, one more instance of the induction over own items), so no other thread counts,
//! locks, frees or buries one. Where the thread put own cells alone into them, they lead to own cells
//! (`specs/private/Own_Entries.antt`). Nothing runs here.

mod laws;

pub use laws::{
    births_and_frees_keep_private_cells_apart, others_keep_private_cells_apart,
    others_leave_private_cells, own_items_tell_own_entries, own_items_tell_the_private_cells,
    own_steps_keep_private_cells_apart, private_cells_are_never_asked_for, private_cells_go_on,
    queue_steps_keep_private_cells_apart, root_steps_keep_private_cells_apart,
    small_immortals_are_kept, steps_keep_private_cells,
};
