//! Threads of the machine, each with a `Shared` of its own.

ghost use Rattle.std.specs.Prelude.{◌≡◌};
ghost use Rattle.brc_heap.specs.Words.{IsUnlocked, Keeps};

use crate::globals::{New, puts_each, puts_new, writes_to};
use crate::shared::client::Client;
use brc_count::Frame;
use brc_heap::Shared;
use std::alloc::Global;
use std::sync::Wait;
use std::thread;
use std::thread::Threads;

/// How many threads of the machine there are.
const CREW: u32 = 8;

/// How many lives each has, one after the other.
const LIVES: u32 = 50;

/// What one thread of the machine begins with.
#[derive(Drop)]
struct Job {
    shared: Shared,
    key: u32,
}

/// What became of lives.
#[derive(Clone, Copy)]
pub(crate) struct Lived {
    /// How many had all that they asked for.
    pub(crate) whole: u32,
    /// The numbers of their registrations, added up.
    pub(crate) numbers: u32,
}

impl Lived {
    /// Nobody has lived.
    const NOTHING: Lived = Lived {
        whole: 0,
        numbers: 0,
    };

    /// What became of both.
    fn and(self, later: Lived) -> Lived {
        Lived {
            whole: self.whole.saturating_add(later.whole),
            numbers: self.numbers.saturating_add(later.numbers),
        }
    }
}

/// A thread opens its session, and writes to its neighbour's: whether it could.
fn works(rt: &impl Wait, alloc: Global, frame: &mut Frame<Shared, Global>, key: u32) -> bool
    requires unlocked { IsUnlocked frame.old }
    ensures keeps { Keeps frame.old frame.new }
    ensures unlocked { IsUnlocked frame.new }
{
    let Ok(globals) = frame.globals() else {
        return false;
    };
    let neighbour = (key % CREW + 1) % CREW;
    let opened = puts_new(rt, alloc, frame, &globals, i64::from(key), New::List);
    let asked = writes_to(rt, alloc, frame, &globals, i64::from(neighbour), 1_000);
    frame.release(globals);
    opened.is_some() && asked.is_some()
}

/// A session is opened for each: whether all are.
fn opens_first(rt: &impl Wait, alloc: Global, frame: &mut Frame<Shared, Global>) -> bool
    requires unlocked { IsUnlocked frame.old }
    ensures keeps { Keeps frame.old frame.new }
    ensures unlocked { IsUnlocked frame.new }
{
    let Ok(globals) = frame.globals() else {
        return false;
    };
    let opened = puts_each(rt, alloc, frame, &globals, 0, CREW, New::List);
    frame.release(globals);
    opened
}

/// A thread of its own opens a session for each, so that every later one finds its neighbour's: whether it could.
pub(crate) fn opens_all(rt: &impl Wait, alloc: Global, shared: &Shared) -> bool {
    let Ok(desk) = shared.again() else {
        return false;
    };
    let Ok(mut client) = Client::register(rt, alloc, desk) else {
        return false;
    };
    let opened = opens_first(rt, alloc, client.mutator.frame());
    let _counts = client.end(rt);
    opened
}

/// One life: it is registered, works, leaves and is gathered.
fn lives(rt: &impl Wait, alloc: Global, job: &Job) -> Lived {
    let Ok(desk) = job.shared.again() else {
        return Lived::NOTHING;
    };
    let Ok(mut client) = Client::register(rt, alloc, desk) else {
        return Lived::NOTHING;
    };
    let is_whole = works(rt, alloc, client.mutator.frame(), job.key);
    let number = client.number;
    let _counts = client.end(rt);
    Lived {
        whole: is_whole as u32,
        numbers: number,
    }
}

/// All lives of one thread of the machine.
fn lives_all(rt: &impl Wait, alloc: Global, job: Job) -> Lived {
    let mut lived = Lived::NOTHING;
    for _ in 0..LIVES {
        lived = lived.and(lives(rt, alloc, &job));
    }
    lived
}

/// The jobs of all threads of the machine; those before one that can't be had.
fn jobs(alloc: Global, shared: &Shared) -> Vec<Job> {
    let mut jobs = Vec::new(alloc);
    for key in 0..CREW {
        match shared.again() {
            Ok(shared) => {
                let _pushed = jobs.push(Job { shared, key });
            }
            Err(_) => {}
        }
    }
    jobs
}

/// All live, each on a thread of the machine: what became of them together.
pub(crate) fn all_live<R: Threads + Wait + Sync>(rt: &R, alloc: Global, shared: &Shared) -> Lived {
    let jobs = jobs(alloc, shared);
    let Ok(all) = thread::map_vec(rt, jobs, &|job| lives_all(rt, alloc, job)) else {
        return Lived::NOTHING;
    };
    let mut lived = Lived::NOTHING;
    for one in all {
        lived = lived.and(one);
    }
    lived
}
