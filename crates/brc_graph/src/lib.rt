//! Pictures of what holds what: a leak report, what `brc run` writes, or the text of a world is read, and the graph of
//! its objects and threads is written in DOT, the language of graphviz.
//!
//! `specs/Lines.antt` says what each line is and what is drawn for it, `specs/Reading.antt` which lines make a text, and
//! `specs/Pictures.antt` the text of a picture. A graph is what is drawn for each line, in the order of the lines, and of
//! a world a box for each cycle besides (`specs/Boxes.antt`).
#![tactic(auto)]

mod boxes;
mod cells;
mod cutting;
mod drawn;
mod first_word;
mod laws;
mod line;
mod names;
mod operands;
mod part;
mod picture_writing;
mod reading;
mod undrawn;
mod whole;

pub use boxes::box_cycles;
pub use drawn::{Drawn, Graph};
pub use laws::reports_are_read;
pub use picture_writing::write_graph;
pub use reading::read_graph;
pub use undrawn::Undrawn;
pub use whole::draw;
