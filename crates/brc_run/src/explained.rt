//! A script, from its bytes to the text of what came of it, and to what is known of why.

ghost use Rattle.std.specs.Prelude.{◌≡◌, ◌↔◌, ◌+◌, ℕ, Err, IfSome, IsSome, take};
ghost use Rattle.std.specs.declared.alloc.Global.{Global as global};
ghost use Rattle.brc_words.specs.declared.fault.Fault.TheVariants as faults;
ghost use Rattle.brc_words.specs.declared.limits.TheConstants.{MOST_INPUT};
ghost use Rattle.brc_script.specs.Walks.{script_at};
ghost use Rattle.brc_run.specs.Options.{AreRunOptions};
ghost use Rattle.brc_run.specs.Notes.{nowhere};
ghost use Rattle.brc_run.specs.Scripts_Run.{Runs};

use crate::ended::RunEnded;
use crate::notes::Notes;
use crate::telling::{has_fault, write_run};
use crate::watch::Watch;
use crate::{RunOptions, run_sections};
use brc_script::parse;
use brc_text::read_input;
use brc_words::Fault;
use std::alloc::Global;
use std::io::{Read, Write};
use std::sync::Wait;
use std::thread::Threads;

/// A run, and what is known of why it came so.
#[derive(Drop)]
pub struct Explained {
    pub ended: Result<RunEnded, Fault>,
    /// The bytes that were read, where they spell no script.
    pub text: Option<Vec<u8>>,
    /// Where all of the run's text was written.
    pub notes: Option<Notes>,
}

/// The same as `run_script` with a gate that refuses nothing, and what is known besides: of a script that is bad its
/// bytes, and of one that was run the notes of the run. Memory for notes that is missing takes nothing from the run.
pub fn run_script_explained<T: Threads + Wait + Sync, R: Read + Drop, W: Write>(
    rt: &T,
    alloc: Global,
    options: RunOptions,
    mut reader: R,
    writer: &mut W,
) -> Explained
    ensures runs { Runs options nowhere (R.remaining reader) (W.contents writer.old) (W.contents writer.new)
        result.ended }
    ensures options { (result.ended ≡ Err faults.BadOptions) ↔ ¬ (AreRunOptions options) }

    // The bytes are there exactly where they spell no script, and are those of the input, up to one more than it may
    // have.
    ensures bad { (line : ℕ) → result.ended ≡ Err (faults.BadScript line) → IsSome result.text }
    ensures spelled { IfSome result.text (λ text. (line : ℕ) × (result.ended ≡ Err (faults.BadScript line))
        × (script_at {A = global} text.items ≡ Err line)) }
    ensures input { IfSome result.text (λ text. IfSome (R.remaining reader)
        (λ input. text.items ≡ take (MOST_INPUT + 1) input)) }
{
    if !options.are_within() {
        return Explained {
            ended: Err(Fault::BadOptions),
            text: None,
            notes: None,
        };
    }
    let input = match read_input(alloc, &mut reader) {
        Ok(input) => input,
        Err(fault) => return Explained {
            ended: Err(fault),
            text: None,
            notes: None,
        },
    };
    let script = match parse(alloc, input.as_slice()) {
        Ok(script) => script,
        Err(Fault::BadScript { line }) => {
            return Explained {
                ended: Err(Fault::BadScript { line }),
                text: Some(input),
                notes: None,
            };
        }
        Err(fault) => return Explained {
            ended: Err(fault),
            text: None,
            notes: None,
        },
    };
    let watch = Watch::new(alloc, script.sections().len(), options.cells);
    let run = match run_sections(rt, alloc, &script, options, &watch) {
        Ok(run) => run,
        Err(fault) => return Explained {
            ended: Err(fault),
            text: None,
            notes: None,
        },
    };
    match write_run(&script, &run, writer) {
        Ok(()) => {}
        Err(fault) => return Explained {
            ended: Err(fault),
            text: None,
            notes: None,
        },
    }
    let ended = RunEnded {
        lives: run.report.live > 0,
        faulted: has_fault(run.sections.as_slice()),
    };
    Explained {
        ended: Ok(ended),
        text: None,
        notes: Some(Notes {
            script,
            run,
            cells: options.cells,
            watch,
        }),
    }
}
