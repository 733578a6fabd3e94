//! Each kind of step keeps the rule of the running table: what it asks of its seat's log, and what it tells it.
//!
//! What a step asks stands in `specs/steps/Owing.antt`, all of it as facts about the seat's own log; what it tells,
//! where a block moves, in `specs/steps/Taking.antt`; how seats are split and joined in `specs/steps/Joining.antt`.
//! Each law has the form that a step of `atomic_table` asks (`Allows`, `Splits`, `Joins`). Nothing runs here;
//! `brc_table` makes the steps.

mod laws;

pub use laws::{
    asked_references_are_queued, cells_are_used_again, objects_are_locked, objects_are_merged,
    objects_are_offered, objects_end, others_count, owners_count, queued_references_end,
    queues_are_drained, threads_come_and_go,
};
