//! Help, for the program and for each command.

use crate::tests::running::ran;
use std::alloc::AllocGlobal;
use std::process::Abort;
use std::sync::Wait;
use std::test::*;
use std::thread::Threads;

/// The help that is asked for by these words, without an error.
fn help<R: Abort + AllocGlobal + Threads + Wait + Sync>(
    rt: &R,
    line: &str,
) -> Result<String, Fail> {
    let text = ran(rt, line, "", 0, "")?;
    Ok(String::from_utf8(text)?)
}

/// Help by its option and by the word `help` is the same text.
#[test]
fn help_is_asked_for_in_three_ways(rt: HostRuntime) -> Result<(), Fail> {
    const SAME: &[(&str, &str)] = &[
        ("brc --help", "brc -h"),
        ("brc --help", "brc help"),
        ("brc replay --help", "brc help replay"),
        ("brc run --help", "brc help run"),
        ("brc graph --help", "brc help graph"),
    ];
    for &(line, other) in SAME {
        let text = help(&rt, line)?;
        let same = help(&rt, other)?;
        assert_eq!(rt; same.as_str(), text.as_str(), "{other}");
    }
    Ok(())
}

/// The text says this, or the test ends and names it.
fn says(rt: &impl Abort, text: &str, said: &str) {
    assert!(rt; text.contains(said), "{said}");
}

/// Each line fits a terminal of 80 columns.
fn is_narrow(rt: &impl Abort, text: &str) {
    for line in text.lines() {
        assert!(rt; line.len() <= 80, "{line}");
    }
}

#[test]
fn each_command_has_its_help(rt: HostRuntime) -> Result<(), Fail> {
    const SAYS: &[(&str, &str)] = &[
        ("/usr/bin/brc-1 --help", "Usage: brc <COMMAND>"),
        ("brc --help", "brc run --help teaches"),
        ("brc --help", "3 bad\ntrace or script"),
        ("brc replay --help", "Usage: brc replay [OPTIONS]"),
        ("brc replay --help", "--explain"),
        ("brc replay --help", "1 born 266 list 0"),
        ("brc run --help", "Usage: brc run [OPTIONS]"),
        ("brc run --help", "--local-limit <L>"),
        ("brc run --help", "fetch R NAME"),
        ("brc run --help", "buyer: 1000"),
        ("brc --help", "graph"),
        ("brc graph --help", "Usage: brc graph"),
        ("brc graph --help", "subgraph cluster_266 {"),
        ("brc graph --help", "A\nbox is drawn round each cycle along"),
    ];
    for &(line, said) in SAYS {
        let text = help(&rt, line)?;
        says(&rt, text.as_str(), said);
        is_narrow(&rt, text.as_str());
    }
    Ok(())
}
