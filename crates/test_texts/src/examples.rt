//! The examples of `data/examples/LIST`, run by the program: what it writes is compared with the file that stands beside
//! its input, and its status with that of the list.

use crate::listed::{Kind, Listed, read_listed};
use crate::tell_right;
use brc_program::program;
use std::alloc::AllocGlobal;
use std::io::Print;
use std::rt::Files;
use std::sync::Wait;
use std::thread::Threads;
use std::{fs, io, str};

/// The status of an input that is refused: then nothing is written, and `NAME.error` is the error line.
const REFUSED: u8 = 3;

/// The bytes of an example's file.
fn file_of<R: AllocGlobal + Files>(rt: &R, name: &str, ending: &str) -> io::Result<Vec<u8>> {
    let path = format!(in rt.alloc(); "examples/{name}.{ending}")?;
    fs::read(rt, path.as_str())
}

/// The words of the first line but for its first one; none where the bytes are no text.
fn first_words<R: AllocGlobal>(rt: &R, script: &[u8]) -> io::Result<Vec<String>> {
    let mut words = Vec::new(rt.alloc());
    let Ok(text) = str::from_utf8(script) else {
        return Ok(words);
    };
    let Some(line) = text.lines().next() else {
        return Ok(words);
    };
    for word in line.split_whitespace().skip(1) {
        words.push(String::from_str(rt.alloc(), word)?)?;
    }
    Ok(words)
}

/// `brc` and this word.
fn brc_and<R: AllocGlobal>(rt: &R, word: &str) -> io::Result<Vec<String>> {
    let mut words = Vec::new(rt.alloc());
    words.push(String::from_str(rt.alloc(), "brc")?)?;
    words.push(String::from_str(rt.alloc(), word)?)?;
    Ok(words)
}

/// The words by which the program is run on the input.
fn words_for<R: AllocGlobal>(rt: &R, kind: Kind, input: &[u8]) -> io::Result<Vec<String>> {
    match kind {
        Kind::Trace => brc_and(rt, "replay"),
        Kind::Script => first_words(rt, input),
        Kind::WorldPicture | Kind::OutputPicture => brc_and(rt, "graph"),
    }
}

/// What the program must write, and its error lines.
fn wanted_of<R: AllocGlobal + Files>(rt: &R, listed: Listed<'_>) -> io::Result<(Vec<u8>, Vec<u8>)> {
    if listed.status == REFUSED {
        let errors = file_of(rt, listed.name, "error")?;
        return Ok((Vec::new(rt.alloc()), errors));
    }
    let output = file_of(rt, listed.name, listed.kind.output())?;
    Ok((output, Vec::new(rt.alloc())))
}

/// Whether the program comes to what is written of the example. What it came to else is printed.
fn is_as_written<R: AllocGlobal + Files + Print + Threads + Wait + Sync>(
    rt: &R,
    listed: Listed<'_>,
) -> io::Result<bool> {
    let input = file_of(rt, listed.name, listed.kind.input())?;
    let words = words_for(rt, listed.kind, input.as_slice())?;
    let (output, errors) = wanted_of(rt, listed)?;
    let mut written = Vec::new(rt.alloc());
    let mut told = Vec::new(rt.alloc());
    let status = program(
        rt,
        rt.alloc(),
        words.as_slice(),
        input.as_slice(),
        &mut written,
        &mut told,
    );
    let is_written = written.as_slice() == output.as_slice();
    let is_told = told.as_slice() == errors.as_slice();
    if is_written && is_told && status == listed.status {
        return Ok(true);
    }
    let (name, ending) = (listed.name, listed.kind.input());
    let written = str::from_utf8(written.as_slice()).unwrap_or("no text\n");
    let told = str::from_utf8(told.as_slice()).unwrap_or("no text\n");
    println!(rt; "{name}.{ending}, NOT RIGHT: status {status}\n{written}{told}")?;
    Ok(false)
}

/// Runs all that the list names, and says whether all came out as they should.
pub(crate) fn run_examples<R: AllocGlobal + Files + Print + Threads + Wait + Sync>(
    rt: &R,
) -> io::Result<()> {
    let list = fs::read_to_string(rt, "examples/LIST")?;
    let (mut tried, mut right) = (0u32, 0u32);
    for line in list.lines() {
        if let Some(listed) = read_listed(line)? {
            tried = tried.saturating_add(1);
            if is_as_written(rt, listed)? {
                right = right.saturating_add(1);
            }
        }
    }
    tell_right(rt, "examples", right, tried)
}
