//! A thread's life: it wakes, has its objects, does what is timed, lets them go, and leaves.

ghost use Rattle.std.specs.Prelude.{◌≡◌};
ghost use Rattle.brc_count.specs.Frames.{IsUnlocked};
ghost use Rattle.brc_count.specs.Owned.{Keeps};
ghost use Rattle.brc_handles.specs.Handles.{OwnsEach};

use crate::containers::{Full, Kind, NewList10};
use crate::deaths::{Chains, life_of};
use crate::dict_values::{Finds, PutsAndFindsValues};
use crate::dicts::{Keys, PutsAndFinds, Seek, Sought, TwoKeys};
use crate::globals::{first_key, take_from_globals};
use crate::letters::{Post, ReceiveOne, SENDERS, SendOne};
use crate::lists::PushesAndPops;
use crate::operations::{
    Ending, Integers, On, Operation, Order, Pair, PairOf, Polled, Texts16, new_integers,
    pairs_in_turn,
};
use crate::request::Case;
use crate::timing::{Span, refused, this_moment};
use crate::value_letters::{ReceiveValue, SendValues};
use crate::values::{ENTRIES, Gets, PushesAndPopsLabelled, PushesAndPopsValues, Sets};
use brc_count::biased::HasTable;
use brc_count::{Frame, Handle};
use brc_handles::Handles;
use brc_loops::{Life, Source, fill, repeat};
use brc_thread::{Heap, Mutator};
use brc_words::FIRST_MORTAL;
use std::alloc::{Allocator, Global};
use std::rt::Clock;
use std::sync::Wait;
use std::time::CpuClock;
use std::{io, thread};

/// How many cells a heap has.
pub const CELLS: u32 = 65_536;

/// How many of them are free while `claim_full` and `claim_full_near` are timed.
const LEFT_FREE: u32 = 16;

/// How many integers leave so many cells free.
const NEARLY_ALL: u32 = CELLS - FIRST_MORTAL - LEFT_FREE;

/// How many cells a free word has.
const IN_WORD: u32 = 64;

/// The word that has the first mortal cell.
const FIRST_WORD: u32 = FIRST_MORTAL / IN_WORD;

/// How many words have mortal cells.
const WORDS: u32 = CELLS / IN_WORD - FIRST_WORD;

/// How many objects `pair_foreign` counts in turn.
pub const FOREIGN: u32 = 64;

/// What some threads are to do, all the same.
#[derive(Clone, Copy)]
pub struct Asked {
    pub case: Case,
    /// Whether they are idle, and others count the integers that they gave before.
    pub idle: bool,
    pub threads: u32,
    pub n: u64,
}

/// The cell with whose word the thread's part of the heap begins, where so many threads have each as many words.
fn first_cell(thread: u32, threads: u32) -> u32 {
    let before = thread.saturating_sub(1);
    let words = WORDS
        .saturating_mul(before)
        .checked_div(threads)
        .unwrap_or(0);
    FIRST_WORD.saturating_add(words).saturating_mul(IN_WORD)
}

/// The thread's claims begin where the case has it.
fn begins_claims<H: HasTable<A>, A: Allocator>(frame: &mut Frame<H, A>, asked: Asked)
    requires unlocked { IsUnlocked frame.old }
    ensures keeps { Keeps frame.old frame.new }
    ensures unlocked { IsUnlocked frame.new }
{
    match asked.case {
        Case::NewIntApart | Case::NewText16Apart | Case::NewList10Apart => {
            let thread = frame.thread();
            frame.claim_from(first_cell(thread, asked.threads));
        }
        Case::MakeChainNear | Case::ClaimFullNear => frame.claim_near(FIRST_MORTAL),
        _ => {}
    }
}

/// How many handles a thread needs for the operations of a case.
fn handles_for(case: Case) -> u64 {
    match case {
        Case::PairOwn | Case::PairShared | Case::NewList10 | Case::NewList10Apart => 1,
        Case::List | Case::ListShared | Case::Dict | Case::Dict4 | Case::Mail => 1,
        Case::FindInt | Case::FindText => 1,
        Case::ListValue | Case::ListLabel | Case::GetValue | Case::SetValue => 1,
        Case::DictValue | Case::FindIntValue | Case::FindTextValue | Case::MailValue => 1,
        Case::PairOwn8 => 8,
        Case::PairOwn256 => 256,
        Case::PairForeign => FOREIGN as u64,
        Case::ClaimFull | Case::ClaimFullNear => NEARLY_ALL as u64,
        Case::NewInt | Case::NewIntApart | Case::NewText16 | Case::NewText16Apart => 0,
        Case::Chain | Case::MakeChain | Case::MakeChainNear | Case::Wide => 0,
        Case::ThreadLife { .. } | Case::Leave { .. } => 0,
    }
}

/// A thread that is asked something, with what it does that by.
#[derive(Drop)]
struct Worker<'r, R, A> {
    rt: &'r R,
    alloc: A,
    post: &'r Post,
    asked: Asked,
}

/// The objects that it needs: handles for its operations, or what lives while it is timed.
impl<'r, R: Wait, H: HasTable<A>, A: Allocator + Copy> Source<H, A> for Worker<'r, R, A> {
    fn next(&self, frame: &mut Frame<H, A>, before: u64) -> Option<Handle<A>> {
        let rt = self.rt;
        let alloc = self.alloc;
        let n = self.asked.n;
        let number = frame.thread();
        match self.asked.case {
            Case::PairShared | Case::ListShared | Case::Mail | Case::MailValue => {
                take_from_globals(rt, frame, number as i64)
            }
            Case::PairForeign => {
                // The idle threads, as many as these, are the first ones.
                let first = first_key(number.saturating_sub(self.asked.threads));
                take_from_globals(rt, frame, first as i64 + (before % 65_536) as i64)
            }
            Case::List | Case::ListValue | Case::ListLabel | Case::GetValue | Case::SetValue => {
                Full::new(rt, alloc, Kind::List, ENTRIES).next(frame, before)
            }
            Case::Wide => Full::new(rt, alloc, Kind::List, n).next(frame, before),
            Case::Dict | Case::DictValue => {
                Full::new(rt, alloc, Kind::Dict, Keys::Many.count()).next(frame, before)
            }
            Case::Dict4 => Full::new(rt, alloc, Kind::Dict, Keys::Few.count()).next(frame, before),
            Case::FindInt | Case::FindText | Case::FindIntValue | Case::FindTextValue => {
                TwoKeys { rt, alloc }.next(frame, before)
            }
            Case::Chain | Case::MakeChain | Case::MakeChainNear => {
                let count = n;
                Chains { rt, alloc, count }.next(frame, before)
            }
            _ => {
                if before % 4 == 3 {
                    thread::yield_now();
                }
                Integers { alloc }.next(frame, before)
            }
        }
    }
}

impl<'r, R: Wait + Clock + CpuClock, A: Allocator + Copy> Worker<'r, R, A> {
    /// The operations of the case; None where one failed, or where there is no handle that it needs.
    fn operates<H: HasTable<A>>(&self, frame: &mut Frame<H, A>, handles: &Handles<A>) -> Option<()>
        requires each { OwnsEach frame.old handles.now }
        requires unlocked { IsUnlocked frame.old }
        ensures keeps { Keeps frame.old frame.new }
        ensures unlocked { IsUnlocked frame.new }
    {
        let rt = self.rt;
        let alloc = self.alloc;
        let post = self.post;
        let n = self.asked.n;
        match self.asked.case {
            Case::NewInt | Case::NewIntApart | Case::ClaimFull | Case::ClaimFullNear => {
                return new_integers(alloc, frame, n);
            }
            Case::NewText16 | Case::NewText16Apart => {
                let source = Texts16 { alloc };
                return repeat(&Ending { source }, frame, n);
            }
            _ => {}
        }
        let handle = handles.get(0)?;
        match self.asked.case {
            Case::PairOwn => repeat(&On(handle, Pair), frame, n),
            Case::PairShared => repeat(&On(handle, Polled { operation: Pair }), frame, n),
            Case::PairOwn256 => {
                let order = Order::Strewn;
                repeat(&PairOf { handles, order }, frame, n)
            }
            Case::NewList10 | Case::NewList10Apart => {
                repeat(&On(handle, NewList10 { rt, alloc }), frame, n)
            }
            Case::List | Case::ListShared => PushesAndPops { rt, alloc, n }.run_on(
                frame, handle, 0,
            ),
            Case::Dict => {
                let keys = Keys::Many;
                PutsAndFinds { rt, alloc, keys, n }.run_on(frame, handle, 0)
            }
            Case::Dict4 => {
                let keys = Keys::Few;
                PutsAndFinds { rt, alloc, keys, n }.run_on(frame, handle, 0)
            }
            Case::FindInt => {
                let sought = Sought::Number;
                repeat(&On(handle, Seek { rt, sought }), frame, n)
            }
            Case::FindText => {
                let sought = Sought::Name;
                repeat(&On(handle, Seek { rt, sought }), frame, n)
            }
            Case::ListValue => PushesAndPopsValues { rt, n }.run_on(frame, handle, 0),
            Case::ListLabel => PushesAndPopsLabelled { rt, alloc, n }.run_on(frame, handle, 0),
            Case::GetValue => Gets { rt, n }.run_on(frame, handle, 0),
            Case::SetValue => Sets { rt, n }.run_on(frame, handle, 0),
            Case::DictValue => {
                let keys = Keys::Many;
                PutsAndFindsValues { rt, alloc, keys, n }.run_on(frame, handle, 0)
            }
            Case::FindIntValue => {
                let sought = Sought::Number;
                Finds {
                    rt,
                    alloc,
                    sought,
                    n,
                }
                .run_on(frame, handle, 0)
            }
            Case::FindTextValue => {
                let sought = Sought::Name;
                Finds {
                    rt,
                    alloc,
                    sought,
                    n,
                }
                .run_on(frame, handle, 0)
            }
            Case::MailValue => {
                if frame.thread() > SENDERS {
                    let receive = On(handle, ReceiveValue { rt, post });
                    return repeat(&receive, frame, n.saturating_mul(SENDERS as u64));
                }
                SendValues { rt, post, n }.run_on(frame, handle, 0)
            }
            Case::Mail => {
                if frame.thread() > SENDERS {
                    let receive = On(handle, ReceiveOne { rt, post });
                    return repeat(&receive, frame, n.saturating_mul(SENDERS as u64));
                }
                repeat(&On(handle, SendOne { rt, alloc, post }), frame, n)
            }
            _ => pairs_in_turn(frame, handles, n),
        }
    }

    /// When the thread began and ended what the case times of one object; or why it couldn't.
    fn measures_one<H: HasTable<A>>(&self, frame: &mut Frame<H, A>) -> io::Result<Span>
        requires unlocked { IsUnlocked frame.old }
        ensures keeps { Keeps frame.old frame.new }
        ensures unlocked { IsUnlocked frame.new }
    {
        let life = life_of(self.rt, self, frame)?;
        match self.asked.case {
            Case::MakeChain | Case::MakeChainNear => Ok(life.making()),
            _ => Ok(life.end()),
        }
    }

    /// When the thread began and ended its operations; or why it couldn't do them all. It has no handle before and
    /// afterwards.
    fn measures<H: HasTable<A>>(&self, frame: &mut Frame<H, A>) -> io::Result<Span>
        requires bare { frame.old.len ≡ 0 }
        requires unlocked { IsUnlocked frame.old }
        ensures heap { frame.new.heap ≡ frame.old.heap }
        ensures bare { frame.new.len ≡ 0 }
        ensures unlocked { IsUnlocked frame.new }
    {
        let asked = self.asked;
        let mut handles = Handles::new(self.alloc);
        self.post.begin_together(self.rt, asked.threads, 1);
        let filled = fill(self, frame, &mut handles, handles_for(asked.case));
        self.post.begin_together(self.rt, asked.threads, 2);
        let began = this_moment(self.rt);
        let whole = self.operates(frame, &handles);
        let ended = this_moment(self.rt);
        handles.release_all(frame);
        if filled.is_none() || whole.is_none() {
            self.post.give_up();
            return Err(refused());
        }
        Ok(Span {
            began: began?,
            ended: ended?,
        })
    }
}

/// What a thread does between its waking and its end: it tells when it began and ended its operations; None where it is
/// idle.
#[derive(Drop)]
pub struct Timed<'p> {
    pub alloc: Global,
    pub post: &'p Post,
    pub asked: Asked,
}

impl<'p, R: Wait + Clock + CpuClock> Life<R> for Timed<'p> {
    type Answer = io::Result<Option<Span>>;

    fn live(
        &self,
        rt: &R,
        mutator: &mut Mutator<&Heap<Global>, Global>,
    ) -> io::Result<Option<Span>> {
        if self.asked.idle {
            return Ok(None);
        }
        begins_claims(mutator.frame(), self.asked);
        let worker = Worker {
            rt,
            alloc: self.alloc,
            post: self.post,
            asked: self.asked,
        };
        let span = match self.asked.case {
            Case::Chain | Case::MakeChain | Case::MakeChainNear | Case::Wide => {
                worker.measures_one(mutator.frame())
            }
            _ => worker.measures(mutator.frame()),
        };
        match span {
            Ok(span) => Ok(Some(span)),
            Err(error) => Err(error),
        }
    }
}
