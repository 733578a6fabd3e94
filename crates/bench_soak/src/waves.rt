//! A heap whose threads live in waves, each on a thread of the machine, and leave what they shared to the next ones.

ghost use Rattle.std.specs.Prelude.{◌≡◌};
ghost use Rattle.brc_heap.specs.Words.{IsUnlocked, Keeps, Owns};

use crate::coming::Coming;
use crate::shared::{clears, finds, puts, takes};
use brc_heap::{Frame, Handle, Heap, Mutator, Root};
use brc_loops::{Ended, Life, Nothing, end_all, gather_all, rest_more, run_all};
use rand::RngExt;
use rand_core::{Rng, SeedableRng};
use rand_pcg::Pcg32;
use std::alloc::Global;
use std::sync::Wait;
use std::thread::Threads;

/// One list is shared; then another one is taken out of the globals, or found there, or the thread looks what it was
/// asked for. The answer is whether the list is shared.
fn plays<G: Rng>(
    rt: &impl Wait,
    alloc: Global,
    frame: &mut Frame,
    globals: &Handle,
    keys: u32,
    rng: &mut G,
) -> bool
    requires owned { Owns frame.old globals.now }
    requires unlocked { IsUnlocked frame.old }
    ensures keeps { Keeps frame.old frame.new }
    ensures unlocked { IsUnlocked frame.new }
{
    let keys = keys.max(1);
    let key = rng.random_range(0u32..keys) as i64;
    let other = rng.random_range(0u32..keys) as i64;
    let shared = puts(rt, alloc, frame, globals, key);
    match rng.random_range(0u32..4) {
        0 => takes(rt, frame, globals, other),
        1 => finds(rt, frame, globals, other),
        2 => {
            frame.poll();
        }
        _ => {}
    }
    shared
}

/// So many times: whether all lists were shared.
fn plays_all<G: Rng>(
    rt: &impl Wait,
    alloc: Global,
    frame: &mut Frame,
    globals: &Handle,
    coming: &Coming,
    rng: &mut G,
) -> bool
    requires owned { Owns frame.old globals.now }
    requires unlocked { IsUnlocked frame.old }
    ensures keeps { Keeps frame.old frame.new }
    ensures unlocked { IsUnlocked frame.new }
{
    let mut whole = true;
    for _ in 0..coming.lists {
        whole &= plays(rt, alloc, frame, globals, coming.keys, rng);
    }
    whole
}

/// A thread of this wave.
#[derive(Drop)]
struct Playing {
    alloc: Global,
    coming: Coming,
    wave: u32,
}

impl<R: Wait> Life<R> for Playing {
    /// Whether it shared all that it should.
    type Answer = bool;

    fn live(&self, rt: &R, mutator: &mut Mutator) -> bool {
        let turn = u64::from(self.wave) * 64 + u64::from(mutator.thread());
        let mut rng = Pcg32::seed_from_u64(self.coming.seed.wrapping_add(turn));
        let Ok(globals) = mutator.globals() else {
            return false;
        };
        let frame = mutator.frame();
        let whole = plays_all(rt, self.alloc, frame, &globals, &self.coming, &mut rng);
        frame.release(globals);
        whole
    }
}

/// Whether all have answered so.
fn are_whole(all: &[Ended<bool>]) -> bool {
    for one in all {
        if !one.answer {
            return false;
        }
    }
    true
}

/// So many threads live, and are gathered: whether all were there, and did what they should.
fn lives<R>(
    rt: &R,
    alloc: Global,
    heap: &Heap,
    root: &mut Root,
    playing: &Playing,
    threads: u32,
) -> bool
where
    R: Threads + Wait + Sync,
    requires root { root.old.table ≡ heap.now.table }
    ensures root { root.new.table ≡ root.old.table }
{
    let mut all = Vec::new(alloc);
    let threads = u64::from(threads);
    let there = rest_more(rt, alloc, heap, root, &Nothing, threads, &mut all);
    match run_all(rt, heap, playing, all) {
        Ok(ended) => {
            let whole = are_whole(ended.as_slice());
            gather_all(root, heap, ended);
            whole && there.is_some()
        }
        Err(all) => {
            end_all(rt, root, heap, all);
            false
        }
    }
}

/// All waves of so many threads together.
fn all_live<R>(
    rt: &R,
    alloc: Global,
    heap: &Heap,
    root: &mut Root,
    coming: Coming,
    threads: u32,
) -> bool
where
    R: Threads + Wait + Sync,
    requires root { root.old.table ≡ heap.now.table }
    ensures root { root.new.table ≡ root.old.table }
{
    let workers = coming.workers.max(1);
    let mut left = threads;
    for wave in 0..threads.div_ceil(workers) {
        let playing = Playing {
            alloc,
            coming,
            wave,
        };
        if !lives(rt, alloc, heap, root, &playing, left.min(workers)) {
            return false;
        }
        left = left.saturating_sub(workers);
    }
    true
}

/// Runs a heap so: whether all came to what it should.
pub fn runs_waves<R>(rt: &R, alloc: Global, coming: Coming) -> bool
where
    R: Threads + Wait + Sync,
{
    let Ok((heap, mut root)) = Heap::new(alloc, coming.options()) else {
        return false;
    };
    // One more clears the globals.
    let threads = coming.registered.saturating_sub(1);
    let lived = all_live(rt, alloc, &heap, &mut root, coming, threads);
    let cleared = clears(rt, alloc, &heap, &mut root);
    coming.ends(alloc, heap, root, threads) && lived && cleared
}
