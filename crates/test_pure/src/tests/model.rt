//! Lives of objects in the map, told by hand: rows of steps, which one player takes. What a word of a step means says
//! `move_of`, and of a holder `holder_of`.

use crate::tests::comparing::{comes, same};
use brc_model::{Exchange, Handover, Handovers, Holder, HolderWorld, Move, Refused, Spot};
use brc_words::Kind;
use linked_list_allocator::LocalHeap;
use std::alloc::{AllocGlobal, Allocator, Global};
use std::process::Abort;

/// The map allows it, and it is made.
const MADE: &str = "Ok(true)";

const NOT_ALLOWED: &str = "Err(NotAllowed)";

const NO_MEMORY: &str = "Err(Memory)";

const YES: &str = "Ok(true)";

const NO: &str = "Ok(false)";

/// A step of a life: its name, what is asked of the map, and what comes of it.
type Row = (&'static str, &'static str, &'static str);

/// A life, and its steps.
type Life = (&'static str, &'static [Row]);

const LIVES: &[Life] = &[
    (
        "an object lives as long as its holder",
        &[
            ("an immortal is not born", "born 265 f0", NOT_ALLOWED),
            ("nothing lives in the cell", "dies 266", NOT_ALLOWED),
            ("an object is born", "born 266 f0", MADE),
            ("it lives already", "born 266 f1", NOT_ALLOWED),
            ("its place is taken", "born 267 f0", NOT_ALLOWED),
            ("it is held", "dies 266", NOT_ALLOWED),
            ("the hand does not hold it", "remove 266 hand", NOT_ALLOWED),
            ("its place lets go", "remove 266 f0", MADE),
            ("nothing holds it", "remove 266 f0", NOT_ALLOWED),
            ("it dies", "dies 266", MADE),
            ("it is dead", "dies 266", NOT_ALLOWED),
            ("it doesn't live", "lives 266", NO),
        ],
    ),
    // The second of two handovers asks for what the first has given away, or for what it has given.
    (
        "references are handed over together",
        &[
            ("born", "born 266 f0", MADE),
            ("twice", "pass 266 f0>hand f0>hand", NOT_ALLOWED),
            ("its holder", "has 266 f0", YES),
            ("not the hand", "has 266 hand", NO),
            ("there and on", "pass 266 f0>hand hand>f1", MADE),
            ("its next holder", "has 266 f1", YES),
            ("no more the other", "has 266 f0", NO),
        ],
    ),
    // At last None comes out, and no place holds an immortal.
    (
        "entries and places change together",
        &[
            ("a list", "born 266 f0", MADE),
            ("an object", "born 267 f1", MADE),
            ("it goes in", "put 267 f1", MADE),
            ("its entry", "has 267 entry", YES),
            ("no more its place", "has 267 f1", NO),
            ("None goes in and it comes out", "swap 267 f2", MADE),
            ("its new place", "has 267 f2", YES),
            ("no more its entry", "has 267 entry", NO),
            ("None comes out", "take 0 f3", MADE),
            ("twice", "take 0 f3", NOT_ALLOWED),
        ],
    ),
];

/// In little memory. What lets go asks for nothing, and leaves room for one.
const STARVED: &[Life] = &[
    (
        "what is refused for memory changes nothing",
        &[
            ("objects are born", "from 266: born n hand", NO_MEMORY),
            ("more than one lives", "lives 267", YES),
            ("the last lives", "lives n-1", YES),
            ("the refused one doesn't", "lives n", NO),
            ("let go", "remove n-1 hand", MADE),
            ("dead", "dies n-1", MADE),
            ("the first lives", "lives 266", YES),
            ("the last is dead", "lives n-1", NO),
        ],
    ),
    (
        "each move that grows is refused",
        &[
            ("a list", "born 266 f0", MADE),
            ("an object", "born 267 f1", MADE),
            ("it goes in", "put 267 f1", MADE),
            (
                "one place more after the other",
                "from 10: add 266 fn",
                NO_MEMORY,
            ),
            ("the refused place holds nothing", "has 266 fn", NO),
            ("a birth", "born 268 f1", NO_MEMORY),
            ("None would go in", "put 0 f1", NO_MEMORY),
            ("None would be swapped in", "swap 267 f2", NO_MEMORY),
            ("its entry", "has 267 entry", YES),
            ("not its old place", "has 267 f1", NO),
            ("not born", "lives 268", NO),
            ("let go", "remove 266 f10", MADE),
            ("None goes in", "put 0 f1", MADE),
        ],
    ),
];

/// A number of a step: `n` is the one at which memory was refused.
fn number(rt: &impl Abort, word: &str, n: u32) -> u32 {
    match word {
        "n" => n,
        "n-1" => n.saturating_sub(1),
        _ => word.parse::<u32>().expect(rt, "a number"),
    }
}

/// A place of the first thread's frame.
fn place_of(rt: &impl Abort, word: &str, n: u32) -> u32 {
    number(rt, word.strip_prefix("f").expect(rt, "a place"), n)
}

/// A holder of an object: the first thread's hand, the first entry of the list in cell 266, or a place of its frame.
fn holder_of(rt: &impl Abort, word: &str, object: u32, n: u32) -> Holder {
    match word {
        "hand" => Holder::Hand {
            thread: 1,
            cell: object,
        },
        "entry" => Holder::Entry {
            cell: 266,
            index: 0,
        },
        _ => Holder::Frame {
            thread: 1,
            place: place_of(rt, word, n),
        },
    }
}

/// An object's references are handed over, all at once: each word has two holders.
fn pass(rt: &impl Abort, alloc: Global, object: u32, words: &str) -> Move<Global> {
    let mut list = Vec::new(alloc);
    for word in words.split(' ') {
        let (from, to) = word.split_once('>').expect(rt, "two holders");
        let handover = Handover {
            object,
            from: holder_of(rt, from, object, 0),
            to: holder_of(rt, to, object, 0),
        };
        list.push(handover).expect(rt, "memory");
    }
    Move::Pass {
        list: Handovers::new(list),
    }
}

/// An entry of the list in cell 266 and a place of the first thread change together; its first place holds the list.
fn change(change: Exchange) -> Move<Global> {
    Move::Change {
        cell: 266,
        place: Spot {
            thread: 1,
            place: 0,
        },
        change,
    }
}

/// What is asked of the map. An object is put from a place to the list's end, swapped for None, or taken.
fn move_of(
    rt: &impl Abort,
    alloc: Global,
    verb: &str,
    object: u32,
    with: &str,
    n: u32,
) -> Move<Global> {
    match verb {
        "born" => Move::Born {
            object,
            kind: Kind::List,
            holder: holder_of(rt, with, object, n),
        },
        "add" => Move::Add {
            object,
            holder: holder_of(rt, with, object, n),
        },
        "remove" => Move::Remove {
            object,
            holder: holder_of(rt, with, object, n),
        },
        "dies" => Move::Dies { object },
        "pass" => pass(rt, alloc, object, with),
        "put" => change(Exchange::Put {
            from: place_of(rt, with, n),
            cell: object,
        }),
        "swap" => change(Exchange::Swap {
            index: 0,
            at: place_of(rt, with, n),
            cell: 0,
            old: object,
        }),
        "take" => change(Exchange::Take {
            index: 0,
            to: place_of(rt, with, n),
            cell: object,
        }),
        _ => panic!(rt; "{verb}"),
    }
}

/// What comes of a step: a move that is made, or what is so.
fn comes_of<A: Allocator + Copy>(
    rt: &impl Abort,
    alloc: Global,
    world: &mut HolderWorld<A>,
    asked: &str,
    n: u32,
) -> Result<bool, Refused> {
    let (verb, rest) = asked.split_once(' ').expect(rt, "a step");
    let (object, with) = rest.split_once(' ').unwrap_or((rest, ""));
    let object = number(rt, object, n);
    match verb {
        "lives" => Ok(world.is_live(object)),
        "has" => Ok(world.has(object, &holder_of(rt, with, object, n))),
        _ => match world.apply(&move_of(rt, alloc, verb, object, with, n)) {
            Ok(()) => Ok(true),
            Err(why) => Err(why),
        },
    }
}

/// The step is taken of each number from this one on: the first of which it is refused.
fn until_refused<A: Allocator + Copy>(
    rt: &impl Abort,
    alloc: Global,
    world: &mut HolderWorld<A>,
    asked: &str,
    from: u32,
) -> u32 {
    for n in from..400 {
        if comes_of(rt, alloc, world, asked, n).is_err() {
            return n;
        }
    }
    panic!(rt; "{asked}: never refused")
}

/// Each step of a life in turn. One behind `from` and a number is taken of each number from there on until it is refused,
/// and then of that one once more.
fn plays<R: Abort + AllocGlobal, A: Allocator + Copy>(
    rt: &R,
    world: &mut HolderWorld<A>,
    life: &Life,
) {
    let &(case, rows) = life;
    let mut n = 0;
    for &(name, step, wanted) in rows {
        let mut asked = step;
        if let Some(rest) = step.strip_prefix("from ") {
            let (from, again) = rest.split_once(": ").expect(rt, "a number and a step");
            asked = again;
            n = until_refused(rt, rt.alloc(), world, asked, number(rt, from, n));
        }
        let found = comes_of(rt, rt.alloc(), world, asked, n);
        comes(rt, case, name, &found, wanted);
    }
}

#[test]
fn lives_of_objects(rt: HostRuntime) {
    for life in LIVES {
        let mut world = HolderWorld::new(rt.alloc());
        plays(&rt, &mut world, life);
    }
}

/// A map takes no memory at first, and leaves none behind.
#[test]
fn lives_in_little_memory(rt: HostRuntime) {
    for life in STARVED {
        let heap = LocalHeap::new(rt.alloc(), 1024).expect(&rt, "memory");
        let mut world = HolderWorld::new(&heap);
        same(&rt, life.0, heap.used(), 0);
        plays(&rt, &mut world, life);
        drop(world);
        same(&rt, life.0, heap.used(), 0);
    }
}
