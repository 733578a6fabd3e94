//! Whether a run came to what it should.

use crate::plan::Plan;
use brc_run::RunEnded;
use std::alloc::{AllocError, Global};

/// What the sections print, and the ledger of the report.
fn told(alloc: Global, plan: &Plan) -> Result<String, AllocError> {
    let (sum, births, remains) = (plan.sum(), plan.births(), plan.remains());
    let frees = births.saturating_sub(remains);
    format!(in alloc;
        "last: {sum}\nlast: list 0\nlast: mailbox 0\nlast: dict 0\nlast: mailbox 0\nlast: mailbox 0\nledger {births} {frees} {remains}\n"
    )
}

/// The line names a list that is held by itself.
fn is_own_holder(line: &str) -> bool {
    let mut words = line.split_whitespace();
    let word = words.next();
    let cell = words.next();
    let kind = words.next();
    let held_by = words.next();
    word == Some("remain") && kind == Some("list") && cell.is_some() && cell == held_by
}

/// So many lines name such lists, and as many their cycles.
fn are_left(lines: &str, remains: u64) -> bool {
    let mut held: u64 = 0;
    let mut cycles: u64 = 0;
    for line in lines.lines() {
        if is_own_holder(line) {
            held = held.wrapping_add(1);
        } else if line.starts_with("cycle ") {
            cycles = cycles.wrapping_add(1);
        } else {
            return false;
        }
    }
    held == remains && cycles == remains
}

/// No fault ended a section, something lives if that is planned, and the output is that of the plan.
pub fn is_as_planned(
    alloc: Global,
    plan: &Plan,
    ended: RunEnded,
    output: &[u8],
) -> Result<bool, AllocError> {
    let told = told(alloc, plan)?;
    let ends_so = !ended.faulted && ended.lives == (plan.remains() > 0);
    let Ok(output) = str::from_utf8(output) else {
        return Ok(false);
    };
    Ok(match output.strip_prefix(told.as_str()) {
        Some(lines) => ends_so && are_left(lines, plan.remains()),
        None => false,
    })
}
