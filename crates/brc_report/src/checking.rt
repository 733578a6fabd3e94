//! Whether a report is right.

ghost use Rattle.std.specs.Prelude.{◌≡◌, ◌↔◌, IsTrue, IfOk, IfErr};
ghost use Rattle.brc_words.specs.declared.fault.Fault.TheVariants.{OutOfMemory};
ghost use Rattle.brc_report.specs.Reports.{rises, are_contents, IsReport};

use crate::content::{Cells, Content, Remain};
use crate::cycles::find_cycles;
use crate::holders::find_remains;
use brc_words::{Fault, GLOBALS};
use std::alloc::Allocator;

/// Whether the contents begin with the globals, and their cells rise.
fn is_contents<A: Allocator>(contents: &[Content<A>]) -> bool
    ensures { result ≡ are_contents contents.now }
{
    let [first, others @ ..] = contents else {
        return false;
    };
    let mut last = first.cell;
    for content in others {
        if content.cell <= last {
            return false;
        }
        last = content.cell;
    }
    first.cell == GLOBALS
}

/// Whether the remains are the same.
fn is_same_remains(remains: &[Remain], others: &[Remain]) -> bool
    ensures { IsTrue result ↔ (remains.now ≡ others.now) }
{
    remains == others
}

/// Whether the cycles are the same.
fn is_same_cycles<A: Allocator>(cycles: &[Cells<A>], others: &[Cells<A>]) -> bool
    ensures { IsTrue result ↔ (cycles.now ≡ others.now) }
{
    cycles == others
}

/// Whether the remains and cycles are those of the contents.
pub fn check_report<A: Allocator + Copy>(
    alloc: A,
    remains: &[Remain],
    cycles: &[Cells<A>],
    contents: &[Content<A>],
) -> Result<bool, Fault>
    ensures right { IfOk result (λ right. IsTrue right ↔ IsReport remains.now cycles.now contents.now) }
    ensures lacks { IfErr result (λ fault. fault ≡ OutOfMemory) }
{
    if !is_contents(contents) {
        return Ok(false);
    }
    let Some(own) = find_remains(alloc, contents)? else {
        return Ok(false);
    };
    if !is_same_remains(own.as_slice(), remains) {
        return Ok(false);
    }
    let own = find_cycles(alloc, remains)?;
    Ok(is_same_cycles(own.as_slice(), cycles))
}
