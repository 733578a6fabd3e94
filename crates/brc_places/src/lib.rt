//! Makers and container calls by place, over a frame and many handles (`brc_handles`): what a machine calls.
//!
//! A client that keeps its handles in places names a container and a value by their numbers, and where a result is to
//! go. From each call to the next the frame owns each handle that is there, and as many others (`KeepsStanding` of
//! `brc_handles`), whatever the call came to; so a machine is written without a lemma of its own. A place that is empty,
//! or isn't there, is `NoSuchPlace`. What a call came to is pinned (`specs/Placing.antt`): which call of the crates below
//! was made (`specs/Calls.antt`), on which handle, and where its answer is. `Stack` is many handles seen from the last.
#![tactic(auto)]

mod giving;
mod place_makers;
mod placing;
mod reading;
mod stack;
mod stack_turns;
mod taking;
mod valued;

// by handle, the call as a value
pub use giving::{GiveBy, give_by, try_give_by};
pub use place_makers::{Make, make_by};
pub use taking::{TakeBy, take_by, try_take_by};
pub use valued::{PutBy, put_value_by, take_out_value_by, try_put_value_by, try_take_out_value_by};

// by place
pub use giving::{give_at, try_give_at};
pub use place_makers::make_at;
pub use placing::To;
pub use reading::{
    int_at, kind_at, len_at, text_at, try_int_at, try_kind_at, try_len_at, try_text_at,
};
pub use taking::{take_at, try_take_at};

// from the last one
pub use stack::Stack;

// turns over both
pub use stack_turns::{Step, Turn, run_steps};
