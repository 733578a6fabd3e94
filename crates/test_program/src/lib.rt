//! Tests of the program over streams in memory: streams that fail, inputs without end, help, and scripts that are run
//! many times or take long. What it answers to other texts stands in the files of `test_texts`. And tests of scripts
//! whose sections run with gates, by calls of `brc_run`: what is asked before each instruction, and what comes of it.
//!
//! They stand in a crate of their own, so that no crate below is proved a second time for them.
#![tactic(auto)]

#[cfg(test)]
mod tests;
