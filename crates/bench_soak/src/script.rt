//! The script of a plan.

use crate::plan::Plan;
use std::alloc::{AllocError, Global};

/// A player fetches what is shared; its sum is in `r4`, and its last number in `r5`.
const BEGINS: &str =
    "fetch r0 list\nfetch r1 box\nfetch r2 dict\nint r4 0\nint r5 1000\nint r6 1\n";

/// A turn: the next number goes into the dictionary, into the list in place of one and at its end, and into the
/// mailbox, and what comes out each time is added to the sum.
const TURN: &str =
    "add r7 r5 r6\nput r2 'k r7\nadd r8 r4 r7\ncopy r4 r8\nadd r7 r5 r6\nset r0 0 r7\nadd r8 r4 r7\ncopy r4 r8\nadd r7 r5 r6\npush r0 r7\npop r7 r0\nadd r8 r4 r7\ncopy r4 r8\nadd r7 r5 r6\nsend r1 r7\nrecv r7 r1\nadd r8 r4 r7\ncopy r4 r8\nadd r7 r5 r6\ncopy r5 r7\nend\n";

/// It gives a list away, which somebody holds when it has left.
const GIVES: &str = "list r9\nint r10 7\npush r9 r10\nfetch r11 gifts\nsend r11 r9\n";

/// A list that holds itself.
const LEAVES: &str = "list r9\ncopy r10 r9\npush r9 r10\ndrop r9\nend\n";

/// It tells its sum.
const TELLS: &str = "fetch r9 sums\nsend r9 r4\n";

/// The last section shares a list with one number, an empty mailbox, a dictionary with one number, and mailboxes for
/// gifts and sums.
const SHARES: &str =
    "section last\nlist r0\nint r4 1000\npush r0 r4\ncopy r4 r0\nshare list r4\nmailbox r1\ncopy r4 r1\nshare box r4\ndict r2\nint r4 1000\nput r2 'k r4\ncopy r4 r2\nshare dict r4\nmailbox r3\ncopy r4 r3\nshare gifts r4\nmailbox r9\ncopy r4 r9\nshare sums r4\nint r4 0\n";

/// It adds a player's sum, and what its gift holds.
const ADDS: &str =
    "recv r5 r9\nadd r6 r4 r5\ncopy r4 r6\nrecv r5 r3\npop r6 r5\nadd r7 r4 r6\ncopy r4 r7\nend\n";

/// It adds what is left in the list and in the dictionary, and shows that nothing else is left.
const ENDS: &str =
    "pop r5 r0\nadd r6 r4 r5\ncopy r4 r6\ndel r5 r2 'k\nadd r6 r4 r5\nprint r6\nprint r0\nprint r1\nprint r2\nprint r3\nprint r9\n";

/// The script.
pub fn script_of(alloc: Global, plan: &Plan) -> Result<String, AllocError> {
    let mut script = String::new(alloc);
    let (players, turns, left) = (plan.players, plan.turns, plan.left);
    for player in 0..players {
        let begins = format!(in alloc; "section s{player}\n{BEGINS}repeat {turns}\n{TURN}")?;
        script.push_str(begins.as_str())?;
        let ends = format!(in alloc; "{GIVES}repeat {left}\n{LEAVES}{TELLS}")?;
        script.push_str(ends.as_str())?;
    }
    let last = format!(in alloc; "{SHARES}repeat {players}\n{ADDS}{ENDS}")?;
    script.push_str(last.as_str())?;
    Ok(script)
}
