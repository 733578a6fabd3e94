//! The names of faults as they are shown, and words worked by hand.

use crate::tests::comparing::{holds, same, shows};
use brc_words::*;
use std::alloc::{AllocError, Allocator, Global};
use std::hash::{DefaultHasher, Hash, Hasher};
use std::process::Abort;
use std::test::*;

/// The fault with this number.
fn fault_of(number: u8) -> Fault {
    match number {
        1 => Fault::OutOfMemory,
        2 => Fault::HeapFull,
        3 => Fault::FrameFull,
        4 => Fault::Busy,
        5 => Fault::WrongKind,
        6 => Fault::NoSuchPlace,
        7 => Fault::NoSuchKey,
        8 => Fault::Full,
        9 => Fault::TooManyThreads,
        10 => Fault::NotIdle,
        11 => Fault::Missing {
            registered: 3,
            gathered: 2,
        },
        12 => Fault::BadTrace {
            line: 7,
            reason: Reason::NotEnabled,
        },
        13 => Fault::BadScript { line: 2 },
        14 => Fault::BadOptions,
        15 => Fault::Io,
        16 => Fault::Overflow,
        _ => Fault::LedgerFull,
    }
}

/// What is shown of a fault.
fn is_named(rt: &impl Abort, alloc: Global, number: u8, name: &str) -> Result<(), Fail> {
    let fault = fault_of(number);
    same(rt, name, fault.number(), number);
    same(rt, name, fault.name(), name);
    same(rt, name, fault.to_string(alloc)?.as_str(), name);
    Ok(())
}

#[test]
fn faults_show_their_names(rt: HostRuntime) -> Result<(), Fail> {
    const NAMES: &[(u8, &str)] = &[
        (1, "OutOfMemory"),
        (2, "HeapFull"),
        (3, "FrameFull"),
        (4, "Busy"),
        (5, "WrongKind"),
        (6, "NoSuchPlace"),
        (7, "NoSuchKey"),
        (8, "Full"),
        (9, "TooManyThreads"),
        (10, "NotIdle"),
        (11, "Missing"),
        (12, "BadTrace"),
        (13, "BadScript"),
        (14, "BadOptions"),
        (15, "Io"),
        (16, "Overflow"),
        (17, "LedgerFull"),
    ];
    for &(number, name) in NAMES {
        is_named(&rt, rt.alloc(), number, name)?;
    }
    Ok(())
}

#[test]
fn shared_words(rt: HostRuntime) {
    const CASES: &[(&str, i64, &str, u64)] = &[
        ("a new object", 0, "Default", 4398046511104),
        ("asked for below zero", -1, "Queued", 4398046511102),
        ("merged with one reference", 1, "Merged", 4398046511111),
    ];
    for &(case, count, state, word) in CASES {
        let found = state_of(word).expect(&rt, "a state");
        shows(&rt, case, &found, state);
        same(&rt, case, count_of(word), count);
        same(&rt, case, shared_word(count, found), word);
    }
    same(&rt, "no state", state_of(4398046511105), None);
}

#[test]
fn owner_words(rt: HostRuntime) {
    const CASES: &[(&str, u64, &str)] = &[
        ("nobody", 0, "Some(Nobody)"),
        ("the last thread", 64, "Some(Thread(64))"),
        ("no thread", 65, "None"),
        ("claimed", 4294967297, "Some(Claimed(1))"),
        ("claimed by nobody", 4294967296, "None"),
        ("free", 18446744073709551615, "Some(Free)"),
    ];
    for &(case, word, owner) in CASES {
        shows(&rt, case, &OwnerWord::read(word), owner);
    }
}

fn text_key(alloc: Global, text: &str) -> Result<Key<Global>, AllocError> {
    Ok(Key::Text(Text::new(String::from_str(alloc, text)?)))
}

fn hash_of<A: Allocator>(key: &Key<A>) -> u64 {
    let mut state = DefaultHasher::new();
    key.hash(&mut state);
    state.finish()
}

/// The first key is below the second, and another one.
fn rises(rt: &impl Abort, case: &str, low: &Key<Global>, high: &Key<Global>) {
    holds(rt, case, low < high);
    holds(rt, case, high.is_same(high));
    holds(rt, case, !high.is_same(low));
    holds(rt, case, hash_of(high) != hash_of(low));
}

/// The one text is below the other, each as a key.
fn texts_rise(rt: &impl Abort, alloc: Global, low: &str, high: &str) -> Result<(), Fail> {
    rises(rt, high, &text_key(alloc, low)?, &text_key(alloc, high)?);
    Ok(())
}

#[test]
fn keys_in_rising_order(rt: HostRuntime) -> Result<(), Fail> {
    rises(&rt, "5", &Key::Int(-1), &Key::Int(5));
    rises(&rt, "no letters", &Key::Int(5), &text_key(rt.alloc(), "")?);
    texts_rise(&rt, rt.alloc(), "", "10")?;
    texts_rise(&rt, rt.alloc(), "10", "5")?;
    texts_rise(&rt, rt.alloc(), "5", "50")
}

#[test]
fn keys_of_one_text_have_one_hash(rt: HostRuntime) -> Result<(), Fail> {
    let first = hash_of(&text_key(rt.alloc(), "5")?);
    same(&rt, "of 5", first, hash_of(&text_key(rt.alloc(), "5")?));
    Ok(())
}
