//! How a test's table ends.

use brc_table::Rest;
use std::alloc::Allocator;
use std::process::Abort;

/// Gives all blocks back, and answers how many there were; each is of the next cell.
pub(crate) fn end_all<A: Allocator>(rt: &impl Abort, rest: Rest<A>) -> u32 {
    let mut rest = rest;
    for cell in 0..1_000 {
        match rest.next() {
            None => return cell,
            Some((block, left)) => {
                assert!(rt; block.cell() == cell);
                let _payload = block.into_payload();
                rest = left;
            }
        }
    }
    panic!(rt; "blocks without end")
}
