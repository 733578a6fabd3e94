//! Who holds each cell, and what remains.

ghost use Rattle.std.specs.Prelude.{◌≡◌, ℕ, Some, IfOk, IfErr, OnOk, if◌then◌else◌};
ghost use Rattle.brc_words.specs.declared.fault.Fault.TheVariants.{OutOfMemory};
ghost use Rattle.std.specs.Option.{option_map};
ghost use Rattle.brc_report.specs.Tables.{at};
ghost use Rattle.brc_report.specs.Holding.{has, holder_of, remains_of};

use crate::content::{Content, Remain};
use crate::table::Table;
use brc_words::{FIRST_MORTAL, Fault};
use std::alloc::{AllocError, Allocator};

/// The cell holds each of its entries now, whoever held it before.
fn mark<A: Allocator + Clone>(
    table: &mut Table<u32, A>,
    cell: u32,
    entries: &[u32],
) -> Result<(), AllocError>
    ensures { OnOk result
        ((q : ℕ) → at table.new q ≡ (if has entries.now q then Some cell else at table.old q)) }
{
    for entry in entries {
        table.put(*entry, cell)?;
    }
    Ok(())
}

/// The holder of each cell. The contents are gone through from behind, so that the first holder stays.
fn holders<A: Allocator + Copy>(
    alloc: A,
    contents: &[Content<A>],
) -> Result<Table<u32, A>, AllocError>
    ensures { IfOk result (λ table. (q : ℕ) → at table q ≡ holder_of contents.now q) }
{
    let mut table = Table::new(alloc);
    let mut left = contents.len();
    while left > 0 {
        left -= 1;
        let content = &contents[left];
        mark(&mut table, content.cell, content.entries.as_slice())?;
    }
    Ok(table)
}

/// The remains of the contents, or None where a mortal cell has no holder.
pub fn find_remains<A: Allocator + Copy>(
    alloc: A,
    contents: &[Content<A>],
) -> Result<Option<Vec<Remain, A>>, Fault>
    ensures remains { IfOk result (λ found. option_map (λ remains. remains.items) found ≡ remains_of contents.now) }
    ensures lacks { IfErr result (λ fault. fault ≡ OutOfMemory) }
{
    let holders = holders(alloc, contents)?;
    let mut remains = Vec::new(alloc);
    for content in contents {
        if content.cell >= FIRST_MORTAL {
            let Some(holder) = holders.get(content.cell) else {
                return Ok(None);
            };
            remains.push(Remain {
                cell: content.cell,
                kind: content.kind,
                held_by: *holder,
            })?;
        }
    }
    Ok(Some(remains))
}
