//! A script, from its bytes to the text of what came of it.

ghost use Rattle.std.specs.Prelude.{◌≡◌, ◌↔◌, Err};
ghost use Rattle.brc_words.specs.declared.fault.Fault.TheVariants as faults;
ghost use Rattle.brc_run.specs.Options.{AreRunOptions};
ghost use Rattle.brc_run.specs.Scripts_Run.{Runs};

use crate::ended::RunEnded;
use crate::telling::{has_fault, write_run};
use crate::{Gate, RunOptions, run_sections};
use brc_script::parse;
use brc_text::read_input;
use brc_words::Fault;
use std::alloc::Global;
use std::io::{Read, Write};
use std::sync::Wait;
use std::thread::Threads;

/// Reads a script, runs its sections at the same time, each on a thread of its own, and writes what each printed, in
/// the script's order, and the report of their heap. BadOptions, looked at first, where a number of the options is
/// outside its limits; Io where a read or a write fails; BadScript with the first bad line; OutOfMemory where a growth
/// was refused, or a thread. Nothing is written until all sections have ended.
pub fn run_script<T: Threads + Wait + Sync, R: Read + Drop, W: Write, G: Gate>(
    rt: &T,
    alloc: Global,
    options: RunOptions,
    mut reader: R,
    writer: &mut W,
    gate: &G,
) -> Result<RunEnded, Fault>
    ensures runs { Runs options (G.may_refuse gate.now) (R.remaining reader) (W.contents writer.old)
        (W.contents writer.new) result }
    ensures options { (result ≡ Err faults.BadOptions) ↔ ¬ (AreRunOptions options) }
{
    if !options.are_within() {
        return Err(Fault::BadOptions);
    }
    let input = read_input(alloc, &mut reader)?;
    let script = parse(alloc, input.as_slice())?;
    let run = run_sections(rt, alloc, &script, options, gate)?;
    write_run(&script, &run, writer)?;
    Ok(RunEnded {
        lives: run.report.live > 0,
        faulted: has_fault(run.sections.as_slice()),
    })
}
