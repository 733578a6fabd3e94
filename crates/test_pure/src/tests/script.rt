//! Every limit of a script one past, and refused memory. Which value a text spells is the contract of `parse`; whole
//! scripts, and lines that are none, stand in a file of `test_texts`.

use crate::tests::comparing::{holds, same};
use crate::tests::memory::{Tried, ends_of, has_come};
use brc_script::*;
use brc_words::Fault;
use linked_list_allocator::LocalHeap;
use std::alloc::{AllocError, AllocGlobal, Global};
use std::process::Abort;
use std::test::*;

/// The script is refused, for this line.
fn is_refused(rt: &impl Abort, alloc: Global, case: &str, text: &[u8], line: u32) {
    let found = parse(alloc, text).err();
    same(rt, case, found, Some(Fault::BadScript { line }));
}

/// A line with so many letters at its end, in a section.
fn long_line(alloc: Global, front: &str, letters: usize) -> Result<Vec<u8>, AllocError> {
    let mut text = Vec::new(alloc);
    text.extend_from_slice(b"section a\n")?;
    text.extend_from_slice(front.as_bytes())?;
    for _ in 0..letters {
        text.push(b'x')?;
    }
    Ok(text)
}

/// So many letters are read, and one more is refused.
fn most_letters(
    rt: &impl Abort,
    alloc: Global,
    case: &str,
    front: &str,
    most: usize,
    line: u32,
) -> Result<(), Fail> {
    let mut text = long_line(alloc, front, most)?;
    holds(rt, case, parse(alloc, text.as_slice()).is_ok());
    text.push(b'x')?;
    is_refused(rt, alloc, case, text.as_slice(), line);
    Ok(())
}

#[test]
fn limits_of_letters_are_kept(rt: HostRuntime) -> Result<(), Fail> {
    most_letters(&rt, rt.alloc(), "a text", "text r0 ", 4_096, 2)?;
    most_letters(&rt, rt.alloc(), "a shared name", "fetch r0 ", 64, 2)?;
    most_letters(&rt, rt.alloc(), "a key", "find r0 r1 '", 64, 2)?;
    most_letters(&rt, rt.alloc(), "a script", "#", 16_777_205, 0)
}

/// So many sections, each without an instruction.
fn empty_sections(alloc: Global, count: u32) -> Result<String, AllocError> {
    let mut text = String::new(alloc);
    for number in 0..count {
        let line = format!(in alloc; "section s{number}\n")?;
        text.push_str(line.as_str())?;
    }
    Ok(text)
}

#[test]
fn the_limit_of_sections_is_kept(rt: HostRuntime) -> Result<(), Fail> {
    let text = empty_sections(rt.alloc(), 63)?;
    let script = parse(rt.alloc(), text.as_bytes())?;
    same(&rt, "sections", script.sections().len(), 63);
    let text = empty_sections(rt.alloc(), 64)?;
    is_refused(&rt, rt.alloc(), "one more", text.as_bytes(), 64);
    Ok(())
}

#[test]
fn sections_are_private(rt: HostRuntime) -> Result<(), Fail> {
    let text =
        "section a\nlist r0\nrepeat 2\nsend r0 r1\nend\nsection b\nshare x r0\nsection c\nrepeat 0\nfetch r0 x\nend\nsection d\nlist r0\nunshare r0 x\n";
    let script = parse(rt.alloc(), text.as_bytes())?;
    match script.sections() {
        [alone, shares, fetches, unshares] => {
            holds(&rt, "alone", is_private(alone));
            holds(&rt, "shares", !is_private(shares));
            holds(&rt, "fetches in a repeat", !is_private(fetches));
            holds(&rt, "unshares", !is_private(unshares));
        }
        _ => panic!(rt; "other sections"),
    }
    Ok(())
}

/// A script of two sections.
const TWO_SECTIONS: &[u8] =
    b"section a\ntext r0 side\nrepeat 3\nshare box r0\nfetch r0 box\nend\nput r1 'key r2\nsection b\nprint r0\n";

/// It is read.
struct Reads;

impl Tried for Reads {
    fn comes_to<R: Abort + AllocGlobal>(&self, rt: &R, size: usize, heap: &LocalHeap) -> u32 {
        let read = parse(heap, TWO_SECTIONS);
        let sections = read.map(|script| script.sections().len());
        has_come(rt, size, sections, 2)
    }
}

#[test]
fn refused_memory(rt: HostRuntime) {
    assert_eq!(rt; ends_of(&rt, &Reads, 1..128, 32), 2);
}
