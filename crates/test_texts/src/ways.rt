//! The ways by which something comes of a text.

use crate::programs::{compare_meaning, drawn, explained, options, running};
use crate::scripts::{meaning, parsing};
use crate::traces::{
    explaining, explaining_whole, in_both_editions, reading, replaying, replaying_explained,
    spelling,
};
use crate::worlds::asking;
use std::alloc::AllocGlobal;
use std::io;
use std::sync::Wait;
use std::thread::Threads;

/// What comes of the text by this way: a command line of the program, or a call that a word stands for.
pub(crate) fn come_of<R: AllocGlobal + Threads + Wait + Sync>(
    rt: &R,
    way: &str,
    text: &str,
    out: &mut Vec<u8>,
) -> io::Result<()> {
    let (alloc, bytes) = (rt.alloc(), text.as_bytes());
    match way {
        "read" => reading(alloc, bytes, out),
        "spell" => spelling(alloc, bytes, out),
        "replay" => replaying(alloc, bytes, out),
        "replay and explain" => replaying_explained(alloc, bytes, out),
        "explain" => explaining(alloc, bytes, out),
        "explain whole" => explaining_whole(alloc, bytes, out),
        "editions" => in_both_editions(alloc, bytes, out),
        "ask" => asking(alloc, text, out),
        "parse" => parsing(alloc, bytes, out),
        "mean" => meaning(alloc, bytes, out),
        "options" => options(alloc, text, out),
        "brc replay --explain, or without" => explained(rt, bytes, out),
        "brc run | brc graph" => drawn(rt, bytes, out),
        "brc run, as meant" => {
            running(rt, "brc run", bytes, out)?;
            compare_meaning(alloc, bytes, out)
        }
        line => running(rt, line, bytes, out),
    }
}
