//! What the program comes to.

use brc_meaning::plain_run;
use brc_program::{Invocation, program, read_words};
use brc_run::write_section;
use brc_script::{Section, is_private, parse};
use std::alloc::{AllocError, AllocGlobal, Global};
use std::io::{self, Write};
use std::str;
use std::sync::Wait;
use std::thread::Threads;

/// The words of a line.
fn words_of(alloc: Global, line: &str) -> Result<Vec<String>, AllocError> {
    let mut words = Vec::new(alloc);
    for word in line.split_whitespace() {
        words.push(String::from_str(alloc, word)?)?;
    }
    Ok(words)
}

/// What it writes, its status, and its error lines.
pub(crate) fn running<R: AllocGlobal + Threads + Wait + Sync>(
    rt: &R,
    line: &str,
    input: &[u8],
    out: &mut Vec<u8>,
) -> io::Result<()> {
    let alloc = rt.alloc();
    let words = words_of(alloc, line)?;
    let mut errors = Vec::new(alloc);
    let status = program(rt, alloc, words.as_slice(), input, out, &mut errors);
    writeln!(out, "status {status}")?;
    Ok(out.extend_from_slice(errors.as_slice())?)
}

/// What comes of the output of `brc run` on this script, as `brc graph` reads it.
pub(crate) fn drawn<R: AllocGlobal + Threads + Wait + Sync>(
    rt: &R,
    script: &[u8],
    out: &mut Vec<u8>,
) -> io::Result<()> {
    let alloc = rt.alloc();
    let words = words_of(alloc, "brc run")?;
    let mut output = Vec::new(alloc);
    let mut errors = Vec::new(alloc);
    let _status = program(
        rt,
        alloc,
        words.as_slice(),
        script,
        &mut output,
        &mut errors,
    );
    running(rt, "brc graph", output.as_slice(), out)
}

/// The lines but the one that the option `--explain` adds.
fn without_why(alloc: Global, lines: &[u8]) -> Result<Vec<u8>, AllocError> {
    let mut rest = Vec::new(alloc);
    for line in str::from_utf8(lines).unwrap_or("").lines() {
        if !line.starts_with("brc: why: ") {
            rest.extend_from_slice(line.as_bytes())?;
            rest.push(b'\n')?;
        }
    }
    Ok(rest)
}

/// What comes of a trace with the option `--explain`; and whether it isn't that without the line of why, where the
/// option isn't given.
pub(crate) fn explained<R: AllocGlobal + Threads + Wait + Sync>(
    rt: &R,
    trace: &[u8],
    out: &mut Vec<u8>,
) -> io::Result<()> {
    running(rt, "brc replay --explain", trace, out)?;
    let mut plain = Vec::new(rt.alloc());
    running(rt, "brc replay", trace, &mut plain)?;
    let said = without_why(rt.alloc(), out.as_slice())?;
    tell_unless(
        out,
        said.as_slice() == plain.as_slice(),
        "otherwise without --explain",
    )
}

/// The plain meaning of a section that shares nothing, as it is written.
fn put_meaning(alloc: Global, section: &Section<Global>, meant: &mut Vec<u8>) -> io::Result<()> {
    if !is_private(section) {
        return Ok(());
    }
    let answer = match plain_run(alloc, section) {
        Ok(plain) => {
            let name = section.name.as_bytes();
            write_section(meant, name, plain.lines.as_slice(), plain.fault)
        }
        Err(fault) => Err(fault),
    };
    tell_unless(meant, answer.is_ok(), "no meaning")
}

/// The plain meaning of the sections that share nothing.
fn meaning_of(alloc: Global, script: &[u8]) -> io::Result<Vec<u8>> {
    let mut meant = Vec::new(alloc);
    let Ok(script) = parse(alloc, script) else {
        tell_unless(&mut meant, false, "no script")?;
        return Ok(meant);
    };
    for section in script.sections() {
        put_meaning(alloc, section, &mut meant)?;
    }
    Ok(meant)
}

/// Whether what came of a script doesn't begin with the plain meaning of the sections that share nothing.
pub(crate) fn compare_meaning(alloc: Global, script: &[u8], out: &mut Vec<u8>) -> io::Result<()> {
    let meant = meaning_of(alloc, script)?;
    let is_meant = out.starts_with(meant.as_slice());
    tell_unless(out, is_meant, "not as meant")
}

/// One line more, unless it is so.
fn tell_unless(out: &mut Vec<u8>, is_so: bool, line: &str) -> io::Result<()> {
    if is_so {
        return Ok(());
    }
    writeln!(out, "{line}")
}

/// What options of a run are read as: its three numbers, or the name of the fault.
pub(crate) fn options(alloc: Global, options: &str, out: &mut Vec<u8>) -> io::Result<()> {
    let line = format!(in alloc; "brc run {options}")?;
    let words = words_of(alloc, line.as_str())?;
    match read_words(alloc, words.as_slice()) {
        Ok(Invocation::Run { options: run, .. }) => {
            writeln!(out, "{} {} {}", run.cells, run.budget, run.local_limit)
        }
        Ok(_) => writeln!(out, "another"),
        Err(fault) => writeln!(out, "{}", fault.name()),
    }
}
