//! The rule of the running table, "what stands here is the world of one run": definitions and laws.
//!
//! There is a run of `law::world` in which the own items of each seat stand, each once and in that seat's order, and no
//! others; and the world that it reaches is what the table's words and the blocks at home show
//! (`specs/rule/Rule.antt`). What holds of the world of every run, such as "counts equal references", so holds of a
//! running table, and nothing is said of counts here. Nothing runs here: `brc_table` makes the steps, and each of its
//! calls owes that its step keeps the rule.

mod contents;
mod laws;
mod told;
mod view;

pub use contents::{Contents, PlainKey};
pub use laws::{
    each_item_stands_in_one_log, lockings_find_what_was_put_home, looks_keep_the_rule,
    no_key_stands_twice, tables_open_by_the_rule, unlockings_pin_the_keys,
    what_stands_here_is_one_run, words_lie_apart,
};
pub use told::{LogItem, Moved};
pub use view::View;
