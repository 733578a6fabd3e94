//! A script's output, in its words.

use brc_report::{check_report, write_report};
use brc_run::{Gate, RunOptions, RunReport, SectionEnd, run_sections};
use brc_script::{Script, Section, parse};
use brc_words::Fault;
use std::alloc::Global;
use std::process::Abort;
use std::str;
use std::sync::Wait;
use std::test::*;
use std::thread::Threads;

/// What a section came to.
fn add_end(
    alloc: Global,
    section: &Section<Global>,
    end: &SectionEnd<Global>,
    told: &mut String,
) -> Result<(), Fault> {
    let name = section.name.as_str().unwrap_or("NOT UTF-8");
    if let Ok(lines) = str::from_utf8(end.lines.as_slice()) {
        for line in lines.lines() {
            let told_line = format!(in alloc; "{name}: {line}\n")?;
            told.push_str(told_line.as_str())?;
        }
    }
    if let Some((fault, line)) = end.fault {
        let told_fault = format!(in alloc; "{name}: fault {fault} line {line}\n")?;
        told.push_str(told_fault.as_str())?;
    }
    Ok(())
}

/// What a run came to: the sections in the script's order, and the report.
fn told_of(
    rt: &impl Abort,
    alloc: Global,
    script: &Script<Global>,
    run: &RunReport<Global>,
) -> String {
    let mut told = String::new(alloc);
    let sections = script.sections();
    assert_eq!(rt; run.sections.len(), sections.len());
    for (section, end) in sections.iter().zip(run.sections.as_slice()) {
        assert!(rt; add_end(alloc, section, end, &mut told).is_ok());
    }
    let report = &run.report;
    let right = check_report(
        alloc,
        report.remains.as_slice(),
        report.cycles.as_slice(),
        report.contents.as_slice(),
    );
    assert!(rt; right == Ok(true));
    assert_eq!(rt; report.live, report.remains.len() as u64);
    assert_eq!(rt;
        report.ledger.allocs,
        report.ledger.frees.wrapping_add(report.live)
    );
    let mut text = Vec::new(alloc);
    assert!(rt; write_report(report, &mut text).is_ok());
    let Ok(text) = str::from_utf8(text.as_slice()) else {
        panic!(rt; "the report is no text")
    };
    assert!(rt; told.push_str(text).is_ok());
    told
}

/// What comes of a script; or the fault of the whole run.
pub(super) fn outcome_of<R: Abort + Threads + Wait + Sync, G: Gate>(
    rt: &R,
    alloc: Global,
    text: &str,
    options: RunOptions,
    gate: &G,
) -> Result<String, Fault> {
    let script = parse(alloc, text.as_bytes())?;
    let run = run_sections(rt, alloc, &script, options, gate)?;
    Ok(told_of(rt, alloc, &script, &run))
}

/// What comes of a script that runs.
pub(super) fn outcome<R: Abort + Threads + Wait + Sync, G: Gate>(
    rt: &R,
    alloc: Global,
    text: &str,
    options: RunOptions,
    gate: &G,
) -> String {
    match outcome_of(rt, alloc, text, options, gate) {
        Ok(told) => told,
        Err(_fault) => panic!(rt; "the run is refused"),
    }
}
