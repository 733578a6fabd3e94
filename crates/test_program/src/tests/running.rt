//! The program over streams in memory, and what came of it.

use brc_program::program;
use std::alloc::{AllocError, AllocGlobal, Global};
use std::io::{Read, Write};
use std::process::Abort;
use std::sync::Wait;
use std::test::*;
use std::thread::Threads;

/// The words of a line.
pub(crate) fn words_of(alloc: Global, line: &str) -> Result<Vec<String>, AllocError> {
    let mut words = Vec::new(alloc);
    for word in line.split_whitespace() {
        words.push(String::from_str(alloc, word)?)?;
    }
    Ok(words)
}

/// The status of the program on these words and streams.
pub(crate) fn status_of<T: AllocGlobal + Threads + Wait + Sync, R: Read + Drop, W: Write, E: Write>(
    rt: &T,
    line: &str,
    input: R,
    output: &mut W,
    errors: &mut E,
) -> Result<u8, AllocError> {
    let alloc = rt.alloc();
    let words = words_of(alloc, line)?;
    Ok(program(rt, alloc, words.as_slice(), input, output, errors))
}

/// The two are the same bytes, or the test ends and names the case.
pub(crate) fn same(rt: &impl Abort, case: &str, found: &[u8], wanted: &str) {
    assert_eq!(rt; found, wanted.as_bytes(), "{case}");
}

/// The two are one status, or the test ends and names the case.
pub(crate) fn ended(rt: &impl Abort, case: &str, found: u8, wanted: u8) {
    assert_eq!(rt; found, wanted, "{case}");
}

/// On these words and this input the program ends so: its status, and what is on standard error. Answers what it wrote.
pub(crate) fn ran<T: Abort + AllocGlobal + Threads + Wait + Sync>(
    rt: &T,
    line: &str,
    input: &str,
    status: u8,
    told: &str,
) -> Result<Vec<u8>, Fail> {
    let mut output = Vec::new(rt.alloc());
    let mut errors = Vec::new(rt.alloc());
    let found = status_of(rt, line, input.as_bytes(), &mut output, &mut errors)?;
    ended(rt, line, found, status);
    same(rt, line, errors.as_slice(), told);
    Ok(output)
}
