//! The lines that the program answers.

use crate::lives::CELLS;

/// What an operation is.
#[derive(Clone, Copy)]
pub enum Case {
    /// A retain and a release of one integer of the thread's own.
    PairOwn,
    /// The same of eight integers in turn.
    PairOwn8,
    /// The same of 256 integers in turn, which the threads made at the same time.
    PairOwn256,
    /// The same of one integer that all threads hold, with a poll at each 256th.
    PairShared,
    /// The same of 64 integers in turn, whose owner is idle.
    PairForeign,
    /// An integer is made and released, and taken apart.
    NewInt,
    /// A text of sixteen bytes is.
    NewText16,
    /// A list of ten references to one integer is.
    NewList10,
    /// The same as `NewInt`, each thread in a part of the heap of its own.
    NewIntApart,
    /// The same as `NewText16`, each so.
    NewText16Apart,
    /// The same as `NewList10`, each so.
    NewList10Apart,
    /// A push to a list of the thread's own, and a pop.
    List,
    /// The same of one list that all threads hold.
    ListShared,
    /// A put into a dictionary of the thread's own of 256 integer keys, and a find.
    Dict,
    /// The same of 4 keys.
    Dict4,
    /// A find beside the integer key of a dictionary of the thread's own, which has a text key too, and a release.
    FindInt,
    /// The same beside the text key.
    FindText,
    /// A send of a new integer by each of two threads, and its receiving by a third.
    Mail,
    /// As `List`, of a scalar.
    ListValue,
    /// As `List`, of a reference with a label.
    ListLabel,
    /// A look at an entry of a list of ten scalars.
    GetValue,
    /// A scalar goes into an entry of such a list.
    SetValue,
    /// As `Dict`, of scalars.
    DictValue,
    /// As `FindInt`, of a scalar.
    FindIntValue,
    /// As `FindText`, of a scalar.
    FindTextValue,
    /// As `Mail`, of scalars.
    MailValue,
    /// One of so many lists, of which each holds the next, is taken apart.
    Chain,
    /// Such a chain is made.
    MakeChain,
    /// The same, where each claim begins near the last one.
    MakeChainNear,
    /// One of so many entries of a list is released.
    Wide,
    /// An integer is made and released, and taken apart, in a heap that has 16 free cells.
    ClaimFull,
    /// The same, where each claim begins near the last one.
    ClaimFullNear,
    /// A thread is registered, puts so many integers into the globals of a heap of so many cells, leaves and is gathered.
    ThreadLife { objects: u32, cells: u32 },
    /// A thread leaves that owns so many integers, which the globals hold.
    Leave { objects: u32 },
}

/// The least heap, which has 246 cells for objects.
const FEW_CELLS: u32 = 512;

/// The names of the cases.
pub const CASES: &str =
    "pair_own pair_own8 pair_own256 pair_shared pair_foreign new_int new_text16 new_list10 new_int_apart new_text16_apart new_list10_apart list list_shared dict dict4 find_int find_text mail list_value list_label get_value set_value dict_value find_int_value find_text_value mail_value chain make_chain make_chain_near wide claim_full claim_full_near thread_life0 thread_life1 thread_life200 thread_life0_large thread_life1_large thread_life1000_large leave10000";

/// What a line asks for.
#[derive(Clone, Copy)]
pub enum Request {
    /// The names of the cases.
    List,
    /// The time of so many operations of each thread.
    Run { case: Case, threads: u32, n: u64 },
    /// What all threads together have made and given back after such a run.
    Count { case: Case, threads: u32, n: u64 },
}

/// The life of a thread that shares so many integers, in a heap of so many cells.
fn life(objects: u32, cells: u32) -> Option<Case> {
    Some(Case::ThreadLife { objects, cells })
}

/// The case of this name.
fn case_of(name: &str) -> Option<Case> {
    match name {
        "pair_own" => Some(Case::PairOwn),
        "pair_own8" => Some(Case::PairOwn8),
        "pair_own256" => Some(Case::PairOwn256),
        "pair_shared" => Some(Case::PairShared),
        "pair_foreign" => Some(Case::PairForeign),
        "new_int" => Some(Case::NewInt),
        "new_text16" => Some(Case::NewText16),
        "new_list10" => Some(Case::NewList10),
        "new_int_apart" => Some(Case::NewIntApart),
        "new_text16_apart" => Some(Case::NewText16Apart),
        "new_list10_apart" => Some(Case::NewList10Apart),
        "list" => Some(Case::List),
        "list_shared" => Some(Case::ListShared),
        "dict" => Some(Case::Dict),
        "dict4" => Some(Case::Dict4),
        "find_int" => Some(Case::FindInt),
        "find_text" => Some(Case::FindText),
        "mail" => Some(Case::Mail),
        "list_value" => Some(Case::ListValue),
        "list_label" => Some(Case::ListLabel),
        "get_value" => Some(Case::GetValue),
        "set_value" => Some(Case::SetValue),
        "dict_value" => Some(Case::DictValue),
        "find_int_value" => Some(Case::FindIntValue),
        "find_text_value" => Some(Case::FindTextValue),
        "mail_value" => Some(Case::MailValue),
        "chain" => Some(Case::Chain),
        "make_chain" => Some(Case::MakeChain),
        "make_chain_near" => Some(Case::MakeChainNear),
        "wide" => Some(Case::Wide),
        "claim_full" => Some(Case::ClaimFull),
        "claim_full_near" => Some(Case::ClaimFullNear),
        "thread_life0" => life(0, FEW_CELLS),
        "thread_life1" => life(1, FEW_CELLS),
        "thread_life200" => life(200, FEW_CELLS),
        "thread_life0_large" => life(0, CELLS),
        "thread_life1_large" => life(1, CELLS),
        "thread_life1000_large" => life(1_000, CELLS),
        "leave10000" => Some(Case::Leave { objects: 10_000 }),
        _ => None,
    }
}

/// Reads a line: `list`, or `run` or `count` with a case, how many threads, and how many operations of each.
pub fn read_request(line: &str) -> Option<Request> {
    let mut words = line.split_whitespace();
    let verb = words.next()?;
    if verb == "list" {
        return Some(Request::List);
    }
    let case = case_of(words.next()?)?;
    let threads = words.next()?.parse::<u32>().ok()?;
    let n = words.next()?.parse::<u64>().ok()?;
    match verb {
        "run" => Some(Request::Run { case, threads, n }),
        "count" => Some(Request::Count { case, threads, n }),
        _ => None,
    }
}
