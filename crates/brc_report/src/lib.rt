//! The leak report of a heap that was closed: what was still alive, who held it, and which of it held itself.
//!
//! It is computed from the contents of the live cells alone. `specs/Holding.antt` says who holds a cell, and
//! `specs/Cycles.antt` what a cycle is; the report's text is `specs/Texts.antt`.
#![tactic(auto)]

mod checking;
mod content;
mod cycles;
mod holders;
pub mod laws;
mod report;
mod table;

pub use checking::check_report;
pub use content::{Cells, Content, Remain};
pub use cycles::find_cycles;
pub use holders::find_remains;
pub use report::{Ledger, Report, write_report};
