//! A script from bytes to bytes: its sections, each on a thread of its own over one heap, what they print, and the
//! heap's report.
//!
//! All sections are registered in order before the first starts, section `i` as thread `i`. Each runs on a thread of
//! the machine (`run_section`), and hands back its seat and how it ended; then all are gathered in order, one more
//! thread, which has the number 1 again, clears the globals, and the heap is closed (`run_sections`). The heap's
//! allocator is `Global`, since a thread that is started takes no other along.
//!
//! `run_script` reads the script before, and writes the text of what came of it once all sections have ended
//! (`specs/Scripts_Run.antt`). `run_script_explained` also keeps notes of why a run ended so.
#![tactic(auto)]

mod clearing;
mod crew;
mod ended;
mod explained;
mod fault;
mod gathering;
mod joining;
mod names;
mod notes;
mod options;
mod phrases;
mod places;
mod reasons;
mod section;
mod section_lines;
mod sections;
mod starting;
mod telling;
mod watch;
mod whole;
mod words;

pub use brc_section::{Gate, Operands, SectionEnd, first_operand, second_operand};
pub use ended::RunEnded;
pub use explained::{Explained, run_script_explained};
pub use names::name_of_number;
pub use notes::{Notes, put_notes};
pub use options::{MOST_TURNS, RunOptions};
pub use section::write_section;
pub use sections::{RunReport, run_sections};
pub use telling::write_run;
pub use whole::run_script;
