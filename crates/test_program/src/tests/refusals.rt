//! Runs that are refused as a whole.

use crate::tests::gates::Open;
use crate::tests::harness::outcome_of;
use brc_run::RunOptions;
use brc_words::Fault;
use std::process::Abort;
use std::test::*;

/// A heap that would be too small.
#[test]
fn options_have_limits(rt: HostRuntime) {
    let options = RunOptions {
        cells: 511,
        ..RunOptions::DEFAULT
    };
    let told = outcome_of(
        &rt,
        rt.alloc(),
        "section a\n",
        options,
        &Open { is_open: true },
    );
    assert!(rt; matches!(told, Err(Fault::BadOptions)));
}
