//! What the plain meaning of a section owes to whoever compares a running section with it, line by line: laws on
//! `brc_meaning`.
//!
//! Registers and objects refer into a part of the objects, and instructions don't leave it but for what they make
//! (`specs/Within.antt`): so a map from objects to cells of a heap needs to have only the objects that are reached, and
//! an object that has left it never comes back. More lines only add (`specs/Fronts.antt`): so a section that ends early
//! has printed a front of its meaning. Nothing runs here.
#![tactic(auto)]

mod laws;

pub use laws::{
    lines_only_add, lines_stay_within, meanings_have_fronts, private_sections_share_nothing,
};
