//! What a thread knows from its own items, the steps that it made with what they found: definitions and laws on runs of
//! `law::world`.
//!
//! All of it is read off the items alone, by recursion: its part of the world (`specs/known/Items.antt`), the local
//! counts of its own objects (`specs/known/Counts.antt`), what it has seen queued or merged (`specs/known/Risen.antt`),
//! the blocks that it has taken (`specs/known/Taken.antt`) and what it has locked (`specs/known/Locked.antt`). One
//! induction says that all of it is so in the world (`proofs/known/Items_Tells.antt`), and one table what each further
//! step makes of it (`specs/known/Going_On.antt`). The root's items tell which threads there are
//! (`specs/known/Root.antt`), and looks at owner words tell of some (`specs/known/Owners_Seen.antt`). Nothing runs
//! here; the running table and the frames above it cite these laws.

mod laws;
mod word;

pub use laws::{
    a_step_changes_one_word, counts_say_who_counts, free_words_tell_the_free_cells,
    own_items_tell_few_frees, own_items_tell_the_blocks, own_items_tell_the_counts,
    own_items_tell_the_lock, own_items_tell_the_part, own_items_tell_what_has_risen,
    own_items_tell_what_is_left, own_looks_tell_the_owners, own_steps_go_on,
    queue_words_name_cells, root_items_tell_the_threads, what_has_risen_stays_seen,
};
pub use word::{Field, Word};
