//! What comes of a script by the calls of `brc_script` and `brc_meaning`.

use crate::instructions::{put_instruction, shown};
use brc_meaning::plain_run;
use brc_script::{Line, Piece, Script, Section, is_private, parse};
use std::alloc::{AllocError, Global};
use std::io::{self, Write};

/// One line more: its number, and what it does.
fn put_line(text: &mut String, line: &Line<Global>) -> Result<(), AllocError> {
    write!(text, "{} ", line.number())?;
    put_instruction(text, line.instruction())?;
    text.push_str("\n")
}

fn put_piece(text: &mut String, piece: &Piece<Global>) -> Result<(), AllocError> {
    match piece {
        Piece::One(line) => put_line(text, line),
        Piece::Repeat { times, lines } => {
            write!(text, "{times} times\n")?;
            for line in lines.as_slice() {
                put_line(text, line)?;
            }
            text.push_str("so often\n")
        }
    }
}

/// The script line by line.
fn put_script(text: &mut String, script: &Script<Global>) -> Result<(), AllocError> {
    for section in script.sections() {
        write!(text, "in {}\n", shown(&section.name))?;
        for piece in section.pieces.as_slice() {
            put_piece(text, piece)?;
        }
    }
    Ok(())
}

/// How it is read, or why it is none.
pub(crate) fn parsing(alloc: Global, text: &[u8], out: &mut Vec<u8>) -> io::Result<()> {
    match parse(alloc, text) {
        Ok(script) => {
            let mut shown = String::new(alloc);
            put_script(&mut shown, &script)?;
            Ok(out.extend_from_slice(shown.as_bytes())?)
        }
        Err(fault) => writeln!(out, "Err({fault:?})"),
    }
}

/// Of a section that shares nothing: the lines that it prints, the fault that ends it, and how many objects it makes.
/// Of another section nothing.
fn mean(alloc: Global, section: &Section<Global>, out: &mut Vec<u8>) -> io::Result<()> {
    if !is_private(section) {
        return Ok(());
    }
    match plain_run(alloc, section) {
        Ok(plain) => {
            out.extend_from_slice(plain.lines.as_slice())?;
            if let Some((fault, line)) = plain.fault {
                writeln!(out, "fault {fault} line {line}")?;
            }
            writeln!(out, "made {}", plain.made)
        }
        Err(fault) => writeln!(out, "Err({fault:?})"),
    }
}

/// What its sections mean.
pub(crate) fn meaning(alloc: Global, text: &[u8], out: &mut Vec<u8>) -> io::Result<()> {
    match parse(alloc, text) {
        Ok(script) => {
            for section in script.sections() {
                mean(alloc, section, out)?;
            }
            Ok(())
        }
        Err(fault) => writeln!(out, "Err({fault:?})"),
    }
}
