//! `brc run`: a script on standard input, what its sections print, on threads of their own, and the report of their
//! heap on standard output. `brc replay`: a trace of atomic steps, and the world that it leads to. `brc graph`: a
//! report or a world, and what holds what in it.
//!
//! What is done, its statuses and its error lines are `brc_program`; here are the words and the streams of the process.
#![tactic(auto)]

use brc_program::{program, refuse};
use brc_words::Fault;
use std::io::{BufWriter, ErrorKind};
use std::process::ExitCode;
use std::{env, io};

/// Words that aren't text are a bad command line too.
fn fault_of(error: &io::Error) -> Fault {
    match error.kind() {
        ErrorKind::OutOfMemory => Fault::OutOfMemory,
        _ => Fault::BadOptions,
    }
}

fn words_of(rt: &HostRuntime) -> io::Result<Vec<String>> {
    Ok(env::args(rt)?.collect::<Vec<String>>(rt.alloc())?)
}

fn main(rt: HostRuntime) -> ExitCode {
    let words = match words_of(&rt) {
        Ok(words) => words,
        Err(error) => return ExitCode::from(refuse(&mut rt.stderr(), fault_of(&error))),
    };
    let Ok(output) = BufWriter::new(rt.alloc(), rt.stdout()) else {
        return ExitCode::from(refuse(&mut rt.stderr(), Fault::OutOfMemory));
    };
    let mut output = output;
    ExitCode::from(program(
        &rt,
        rt.alloc(),
        words.as_slice(),
        rt.stdin(),
        &mut output,
        &mut rt.stderr(),
    ))
}
