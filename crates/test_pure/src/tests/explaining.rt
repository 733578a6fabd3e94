//! Why a trace is refused, where the text is too long, and where memory is scarce. What is told of bad lines and of
//! events stands in a file of `test_texts`.

use crate::tests::comparing::{same_at, shows};
use crate::tests::memory::{Tried, ends_of};
use brc_trace::{Unreplayed, Why, explain, run_replay_explained};
use brc_words::{Fault, Reason};
use linked_list_allocator::LocalHeap;
use std::alloc::AllocGlobal;
use std::process::Abort;
use std::test::*;

/// A list is made, and its cell claimed once more.
const CLAIMED_AGAIN: &str =
    "heap 512 9\n0 register 1\n1 claim 266\n1 local 266\n1 shared 266\n1 born 266 list 0\n1 claim 266\n";

#[test]
fn too_long(rt: HostRuntime) -> Result<(), Fail> {
    let mut text = Vec::with_capacity(rt.alloc(), 16_777_217)?;
    text.extend_from_slice(b"heap 512 1\n")?;
    text.resize(16_777_217, b'x')?;
    let is_told = matches!(explain(rt.alloc(), text.as_slice())?, Some(Why::TooLong));
    assert!(rt; is_told, "one byte too long");
    Ok(())
}

/// The trace is refused for its last line, where there is memory to tell why.
struct Explains;

impl Tried for Explains {
    fn comes_to<R: Abort + AllocGlobal>(&self, rt: &R, size: usize, heap: &LocalHeap) -> u32 {
        match explain(heap, CLAIMED_AGAIN.as_bytes()) {
            Ok(Some(Why::Refused(refused))) => {
                same_at(rt, size, refused.line, 7);
                shows(rt, "the refusal", &refused.refusal, "Cell");
                1
            }
            Ok(_) => panic!(rt; "a cell is claimed twice"),
            Err(_) => 0,
        }
    }
}

#[test]
fn refused_memory(rt: HostRuntime) {
    assert_eq!(rt; ends_of(&rt, &Explains, 1..64, 1_024), 2);
}

/// So is its replay, which says why.
struct SaysWhy;

impl Tried for SaysWhy {
    fn comes_to<R: Abort + AllocGlobal>(&self, rt: &R, size: usize, heap: &LocalHeap) -> u32 {
        let mut out = Vec::new(rt.alloc());
        let Err(Unreplayed { fault, why }) = run_replay_explained(
            heap,
            CLAIMED_AGAIN.as_bytes(),
            &mut out,
        ) else {
            panic!(rt; "a cell is claimed twice")
        };
        same_at(rt, size, out.len(), 0);
        if fault == Fault::OutOfMemory {
            same_at(rt, size, why.is_none(), true);
            return 0;
        }
        let (line, reason) = (7, Reason::NotEnabled);
        same_at(rt, size, fault, Fault::BadTrace { line, reason });
        if why.is_some() { 2 } else { 1 }
    }
}

/// Between the two ends the line is told, and not why.
#[test]
fn replays_without_memory(rt: HostRuntime) {
    assert_eq!(rt; ends_of(&rt, &SaysWhy, 1..3_000, 32), 3);
}
