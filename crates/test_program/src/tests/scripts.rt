//! `brc run` on scripts that are run many times or take long. What other scripts print stands in the files of
//! `test_texts`.

use crate::tests::running::{ran, same};
use std::alloc::{AllocError, AllocGlobal, Global};
use std::ops::Range;
use std::process::Abort;
use std::sync::Wait;
use std::test::*;
use std::thread::Threads;

/// A case: its name, a command line, a script, and what is written.
type Case<'s> = (&'s str, &'s str, &'s str, &'s str);

/// So many runs of it, all alike.
fn runs<T: Abort + AllocGlobal + Threads + Wait + Sync>(
    rt: &T,
    times: u32,
    (case, line, script, output): Case<'_>,
) -> Result<(), Fail> {
    for _run in 0..times {
        let found = ran(rt, line, script, 0, "")?;
        same(rt, case, found.as_slice(), output);
    }
    Ok(())
}

/// Sections that all do the same, with these numbers.
fn add_sections(
    alloc: Global,
    script: &mut String,
    numbers: Range<u32>,
    lines: &str,
) -> Result<(), AllocError> {
    for number in numbers {
        let begins = format!(in alloc; "section s{number}\n")?;
        script.push_str(begins.as_str())?;
        script.push_str(lines)?;
    }
    Ok(())
}

/// A list that the second section takes over from the first, and one of the third section's own.
const TAKEN_OVER: Case = (
    "a list that two sections share, and one of its own",
    "brc run",
    "section a\nlist r0\nint r1 1000\npush r0 r1\nshare box r0\nsection b\nfetch r0 box\npop r1 r0\nprint r1\ndrop r1\ndrop r0\nsection c\nlist r0\nint r1 7\npush r0 r1\nlen r2 r0\nprint r2\n",
    "b: 1000\nc: 1\nledger 3 3 0\n",
);

/// A section that makes and drops two objects a thousand times, and one beside it that keeps its own.
const BESIDE_ANOTHER: Case = (
    "a section that makes and drops a thousand times beside another",
    "brc run",
    "section a\nrepeat 1000\nlist r0\nint r1 1000\npush r0 r1\ndrop r0\nend\nsection b\nlist r0\ntext r1 one\npush r0 r1\nget r2 r0 0\nprint r2\nlen r3 r0\nprint r3\n",
    "b: one\nb: 1\nledger 2002 2002 0\n",
);

/// Twenty lists, each of which goes into a mailbox, and into the globals in place of the one before it. Two sections
/// take eight of them each out of the mailbox, and as often the one that is in the globals then; the last thread finds
/// the other four, and the globals' one. Owners soon count as others do, and there are few turns of work.
const HANDED_OVER: Case = (
    "lists that two sections take while a third makes them",
    "brc run --cells 512 --budget 2 --local-limit 10",
    "section a\nmailbox r0\ncopy r1 r0\nshare box r1\nrepeat 20\nlist r1\ncopy r2 r1\nshare last r2\nsend r0 r1\nend\nsection b\nfetch r0 box\nrepeat 8\nrecv r1 r0\nfetch r2 last\ncopy r3 r2\ndrop r1\ndrop r2\ndrop r3\nend\nsection c\nfetch r0 box\nrepeat 8\nrecv r1 r0\nfetch r2 last\ncopy r3 r2\ndrop r1\ndrop r2\ndrop r3\nend\n",
    "ledger 21 21 0\n",
);

/// A list that one section hands to the other while both let it go: at the same time its maker releases, works and
/// leaves, and the other one releases, works and leaves.
const LEFT_AT_ONCE: Case = (
    "two sections leave while both let a list go",
    "brc run --cells 512",
    "section a\nlist r0\ncopy r1 r0\nshare box r1\nfetch r1 taken\ndrop r0\nsection b\nfetch r0 box\nunshare r1 box\nint r2 1\nshare taken r2\ndrop r0\ndrop r1\n",
    "ledger 1 1 0\n",
);

/// Two of them a hundred times, and the others a thousand times.
#[test]
fn worked_scripts_are_alike_in_each_run(rt: HostRuntime) -> Result<(), Fail> {
    let cases = [
        (100, TAKEN_OVER),
        (100, BESIDE_ANOTHER),
        (1_000, HANDED_OVER),
        (1_000, LEFT_AT_ONCE),
    ];
    for (times, case) in cases {
        runs(&rt, times, case)?;
    }
    Ok(())
}

/// A section that plays 10,000 turns, of numbers from 1,001 up. In each turn a number is put in place of another in a
/// dictionary, and one in a list; one is pushed and one popped, one is sent and one received. At the end it sends the
/// sum of what it got.
const PLAYS: &str =
    "fetch r0 list\nfetch r1 box\nfetch r2 dict\nint r4 0\nint r5 1000\nint r6 1\nrepeat 10000\nadd r7 r5 r6\nput r2 'k r7\nadd r8 r4 r7\ncopy r4 r8\nadd r7 r5 r6\nset r0 0 r7\nadd r8 r4 r7\ncopy r4 r8\nadd r7 r5 r6\npush r0 r7\npop r7 r0\nadd r8 r4 r7\ncopy r4 r8\nadd r7 r5 r6\nsend r1 r7\nrecv r7 r1\nadd r8 r4 r7\ncopy r4 r8\nadd r7 r5 r6\ncopy r5 r7\nend\nfetch r9 sums\nsend r9 r4\n";

/// What the last section shares: a list with one number, an empty mailbox, a dictionary with one number, and a mailbox
/// for the sums.
const SHARES: &str =
    "section last\nlist r0\nint r4 1000\npush r0 r4\ncopy r4 r0\nshare list r4\nmailbox r1\ncopy r4 r1\nshare box r4\ndict r2\nint r4 1000\nput r2 'k r4\ncopy r4 r2\nshare dict r4\nmailbox r3\ncopy r4 r3\nshare sums r4\n";

/// So many sections play, and so it ends. Each number that was given is got once or left, so the sum is theirs: a
/// section gives 4 times the numbers from 1,001 to 11,000, which is 240,020,000, and there were 2,000 at first. A
/// section makes 9 integers in a turn and one before; the last one makes 6 objects, and an integer for each number that
/// it adds.
fn play<T: Abort + AllocGlobal + Threads + Wait + Sync>(
    rt: &T,
    sections: u32,
    output: &str,
) -> Result<(), Fail> {
    /// Once it has added the sums it adds the numbers that the list and the dictionary are left with.
    const ADDS_LEFT: &str =
        "pop r5 r0\nadd r6 r4 r5\ncopy r4 r6\ndel r5 r2 'k\nadd r6 r4 r5\nprint r6\nprint r0\nprint r1\nprint r2\n";
    let mut script = String::new(rt.alloc());
    add_sections(rt.alloc(), &mut script, 0..sections, PLAYS)?;
    script.push_str(SHARES)?;
    let adds = format!(in rt.alloc();
        "int r4 0\nrepeat {sections}\nrecv r5 r3\nadd r6 r4 r5\ncopy r4 r6\nend\n"
    )?;
    script.push_str(adds.as_str())?;
    script.push_str(ADDS_LEFT)?;
    runs(rt, 1, ("many turns", "brc run", script.as_str(), output))
}

#[test]
fn sections_share_for_many_turns(rt: HostRuntime) -> Result<(), Fail> {
    let cases = [
        (
            2,
            "last: 480042000\nlast: list 0\nlast: mailbox 0\nlast: dict 0\nledger 180012 180012 0\n",
        ),
        (
            4,
            "last: 960082000\nlast: list 0\nlast: mailbox 0\nlast: dict 0\nledger 360016 360016 0\n",
        ),
        (
            8,
            "last: 1920162000\nlast: list 0\nlast: mailbox 0\nlast: dict 0\nledger 720024 720024 0\n",
        ),
    ];
    for (sections, output) in cases {
        play(&rt, sections, output)?;
    }
    Ok(())
}

/// Long scripts, which only end so where each section polls and works between its instructions and while it waits, and
/// where no wakeup is lost; and a long death.
#[test]
fn long_scripts(rt: HostRuntime) -> Result<(), Fail> {
    const CASES: &[Case] = &[
        (
            "a chain of 3,000 lists dies a turn at a time",
            "brc run --budget 1",
            "section a\nlist r0\nrepeat 2999\nlist r1\npush r1 r0\ncopy r0 r1\nend\ndrop r1\ndrop r0\nrepeat 6000\nint r2 1\nend\n",
            "ledger 3000 3000 0\n",
        ),
        (
            "what is dropped is freed between instructions",
            "brc run --cells 512",
            "section a\nrepeat 10000\nint r0 1000\ndrop r0\nend\n",
            "ledger 10000 10000 0\n",
        ),
        (
            "what others drop is freed too",
            "brc run --cells 512",
            "section a\nmailbox r0\ncopy r1 r0\nshare out r1\nmailbox r1\ncopy r2 r1\nshare back r2\nrepeat 10000\nint r2 1000\nsend r0 r2\nrecv r2 r1\nend\nsection b\nfetch r0 out\nfetch r1 back\nrepeat 10000\nrecv r2 r0\ndrop r2\nint r2 1\nsend r1 r2\nend\n",
            "ledger 10002 10002 0\n",
        ),
        (
            "a hundred thousand times one section hands something to another and waits for an answer",
            "brc run",
            "section a\nmailbox r0\ncopy r1 r0\nshare out r1\nmailbox r1\ncopy r2 r1\nshare back r2\nrepeat 100000\nint r2 1\nsend r0 r2\nrecv r2 r1\nend\nsection b\nfetch r0 out\nfetch r1 back\nrepeat 100000\nrecv r2 r0\nsend r1 r2\nend\n",
            "ledger 2 2 0\n",
        ),
        (
            "who waits frees what others drop",
            "brc run",
            "section a\nlist r0\nrepeat 3000\nint r1 1000\npush r0 r1\nend\nshare list r0\nfetch r1 done\nrepeat 3000\nint r2 1000\nend\nsection b\nfetch r0 list\nunshare r1 list\ndrop r1\nrepeat 3000\npop r1 r0\ndrop r1\nend\nint r1 1\nshare done r1\n",
            "ledger 6001 6001 0\n",
        ),
    ];
    for &case in CASES {
        runs(&rt, 1, case)?;
    }
    Ok(())
}

/// Sixty-three sections find one list and let it go, a hundred times each; the first of them made it. The 64th thread
/// clears the globals.
#[test]
fn all_find_one_list(rt: HostRuntime) -> Result<(), Fail> {
    const FINDS: &str = "repeat 100\nfetch r0 box\ndrop r0\nend\n";
    let mut script = String::from_str(rt.alloc(), "section s0\nlist r0\nshare box r0\n")?;
    script.push_str(FINDS)?;
    add_sections(rt.alloc(), &mut script, 1..63, FINDS)?;
    let line = "brc run --cells 512";
    runs(
        &rt,
        1,
        ("one list", line, script.as_str(), "ledger 1 1 0\n"),
    )
}

/// A section that shares nothing makes a thousand numbers, and a thousand sums of them; each goes through a container
/// of its own.
const OWN: &str =
    "section own\nlist r0\ndict r1\nmailbox r2\nint r3 0\nrepeat 1000\nint r4 1000\nadd r5 r3 r4\ncopy r3 r5\npush r0 r4\nsend r2 r5\npop r4 r0\nput r1 'k r4\nrecv r5 r2\nend\nprint r3\nfind r4 r1 'k\nprint r4\nprint r0\nprint r1\nprint r2\n";

/// It prints what it would print alone, beside 62 sections that lock one list, push to it and pop from it a hundred
/// times each, and so free cells and use them again. Ten runs.
#[test]
fn a_section_of_its_own_beside_all_others(rt: HostRuntime) -> Result<(), Fail> {
    const PUSHES: &str =
        "fetch r0 box\nrepeat 100\nint r1 1000\npush r0 r1\npop r1 r0\ndrop r1\nend\n";
    let mut script = String::from_str(rt.alloc(), "section s0\nlist r0\nshare box r0\n")?;
    script.push_str(PUSHES)?;
    add_sections(rt.alloc(), &mut script, 1..31, PUSHES)?;
    script.push_str(OWN)?;
    add_sections(rt.alloc(), &mut script, 31..62, PUSHES)?;
    let output =
        "own: 1000000\nown: 1000\nown: list 0\nown: dict 1\nown: mailbox 0\nledger 8204 8204 0\n";
    runs(
        &rt,
        10,
        ("beside all others", "brc run", script.as_str(), output),
    )
}

/// So many turns of work, one an instruction, are more than a structure of 60,000 containers takes to die.
const GOES_ON: &str = "repeat 120000\nint r2 1\nend\n";

/// A chain of 60,000 lists, each of which holds the one before.
const DEEP: &str =
    "section a\nlist r0\nrepeat 59999\nlist r1\npush r1 r0\ncopy r0 r1\nend\ndrop r1\ndrop r0\n";

/// A mailbox of 59,999 mailboxes.
const WIDE: &str = "section a\nmailbox r0\nrepeat 59999\nmailbox r1\nsend r0 r1\nend\ndrop r0\n";

/// A dictionary of 59,999 dictionaries.
fn wide_dictionary(alloc: Global) -> Result<String, AllocError> {
    let mut script = String::from_str(alloc, "section a\ndict r0\n")?;
    for key in 1..60_000 {
        let puts = format!(in alloc; "dict r1\nput r0 {key} r1\n")?;
        script.push_str(puts.as_str())?;
    }
    script.push_str("drop r0\n")?;
    Ok(script)
}

/// Each dies by one turn of work an instruction.
#[test]
fn deep_and_wide(rt: HostRuntime) -> Result<(), Fail> {
    let dictionary = wide_dictionary(rt.alloc())?;
    for makes in [DEEP, WIDE, dictionary.as_str()] {
        let mut script = String::from_str(rt.alloc(), makes)?;
        script.push_str(GOES_ON)?;
        let line = "brc run --cells 65536 --budget 1";
        runs(
            &rt,
            1,
            (line, line, script.as_str(), "ledger 60000 60000 0\n"),
        )?;
    }
    Ok(())
}

/// A list gets as many entries as it may have, 1,048,576, and takes no more: the last turn of a loop is one too many,
/// or the instruction behind it.
#[test]
fn a_full_list_takes_no_entry(rt: HostRuntime) -> Result<(), Fail> {
    const FILLS: &str = "section a\nlist r0\nrepeat 1000000\nint r1 1\npush r0 r1\nend\n";
    const CASES: &[(&str, &str)] = &[
        (
            "repeat 48577\nint r1 1\npush r0 r1\nend\n",
            "a: fault 8 Full line 9\nledger 1 1 0\n",
        ),
        (
            "repeat 48576\nint r1 1\npush r0 r1\nend\nprint r0\nint r1 1\npush r0 r1\n",
            "a: list 1048576\na: fault 8 Full line 13\nledger 1 1 0\n",
        ),
    ];
    for &(goes_on, output) in CASES {
        let mut script = String::from_str(rt.alloc(), FILLS)?;
        script.push_str(goes_on)?;
        let found = ran(&rt, "brc run", script.as_str(), 4, "")?;
        same(&rt, goes_on, found.as_slice(), output);
    }
    Ok(())
}
