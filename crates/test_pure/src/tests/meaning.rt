//! Sections run by themselves, where memory is scarce. What a section comes to is the contract of `plain_run`; texts
//! that were worked by hand stand in a file of `test_texts`.

use crate::tests::comparing::same;
use crate::tests::memory::{Tried, ends_of, has_come};
use brc_meaning::plain_run;
use brc_script::{Script, Section, is_private, parse};
use brc_words::Fault;
use linked_list_allocator::LocalHeap;
use std::alloc::{AllocGlobal, Allocator, Global};
use std::process::Abort;
use std::str;
use std::test::*;

/// Of a private section, what it comes to: the lines that it prints, the fault that ends it, and how many objects it
/// makes. Of another section nothing.
fn add_told<A: Allocator + Copy>(
    alloc: Global,
    memory: A,
    section: &Section<A>,
    told: &mut String,
) -> Result<(), Fault> {
    if !is_private(section) {
        return Ok(());
    }
    let plain = plain_run(memory, section)?;
    if let Ok(lines) = str::from_utf8(plain.lines.as_slice()) {
        told.push_str(lines)?;
    }
    if let Some((fault, line)) = plain.fault {
        let end = format!(in alloc; "fault {fault} line {line}\n")?;
        told.push_str(end.as_str())?;
    }
    let made = format!(in alloc; "made {}\n", plain.made)?;
    told.push_str(made.as_str())?;
    Ok(())
}

/// The same of each section of a script.
fn told_of<A: Allocator + Copy>(
    alloc: Global,
    memory: A,
    script: &Script<A>,
) -> Result<String, Fault> {
    let mut told = String::new(alloc);
    for section in script.sections() {
        add_told(alloc, memory, section, &mut told)?;
    }
    Ok(told)
}

#[test]
fn turns_take_no_memory(rt: HostRuntime) -> Result<(), Fail> {
    let heap = LocalHeap::new(rt.alloc(), 8_192)?;
    let text =
        "section a\nlist r0\nint r1 1\nrepeat 1000000\ncopy r2 r1\npush r0 r2\npop r3 r0\nend\nprint r3\n";
    let script = parse(&heap, text.as_bytes())?;
    let told = told_of(rt.alloc(), &heap, &script)?;
    same(&rt, "in 8,192 bytes", told.as_str(), "1\nmade 1\n");
    Ok(())
}

/// A script, and what it comes to.
#[derive(Clone, Copy)]
struct Means<'s> {
    script: &'s [u8],
    told: &'s str,
}

impl Tried for Means<'_> {
    /// It is read, and its meaning told.
    fn comes_to<R: Abort + AllocGlobal>(&self, rt: &R, size: usize, heap: &LocalHeap) -> u32 {
        let Ok(script) = parse(heap, self.script) else {
            return 0;
        };
        let told = told_of(rt.alloc(), heap, &script);
        let wanted = String::from_str(rt.alloc(), self.told).expect(rt, "memory");
        has_come(rt, size, told, wanted).saturating_add(1)
    }
}

#[test]
fn refused_memory(rt: HostRuntime) {
    let of_each_kind = Means {
        script: b"section a\ntext r0 side\nlist r1\npush r1 r0\ndict r2\nput r2 'key r1\nmailbox r3\nsend r3 r2\nint r4 1000\nprint r4\n",
        told: "1000\nmade 5\n",
    };
    assert_eq!(rt; ends_of(&rt, &of_each_kind, 1..128, 32), 3);
}
