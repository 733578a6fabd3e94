//! Heaps whose threads come and go, one after the other.

use crate::coming::Coming;
use crate::two::runs_two;
use crate::waves::runs_waves;
use rand_core::SeedableRng;
use rand_pcg::Pcg32;
use std::alloc::Global;
use std::io;
use std::io::Write;
use std::sync::Wait;
use std::thread::Threads;

/// How threads come and go.
#[derive(Clone, Copy)]
pub enum Way {
    /// Some at a time, and all of them leave before the next ones come.
    Waves,
    /// Two at a time, of which one stays.
    Two,
}

/// What came of all heaps.
#[derive(Clone, Copy)]
pub enum Passed {
    Balanced,
    /// This one wasn't as it should be.
    Unlike(Coming),
}

/// Runs so many heaps, of so many threads each, or until one isn't as it should be.
pub fn pass<R: Threads + Wait + Sync, W: Write>(
    rt: &R,
    alloc: Global,
    progress: &mut W,
    way: Way,
    heaps: u32,
    registered: u32,
    seed: u64,
) -> io::Result<Passed> {
    let mut rng = Pcg32::seed_from_u64(seed);
    let mut threads: u64 = 0;
    let mut births: u64 = 0;
    for heap in 0..heaps {
        let coming = Coming::drawn(&mut rng, registered);
        let whole = match way {
            Way::Waves => runs_waves(rt, alloc, coming),
            Way::Two => runs_two(rt, alloc, coming),
        };
        if !whole {
            return Ok(Passed::Unlike(coming));
        }
        threads = threads.wrapping_add(u64::from(registered));
        let makers = match way {
            Way::Waves => registered.saturating_sub(1),
            Way::Two => registered.saturating_sub(3),
        };
        births = births.wrapping_add(coming.births(makers));
        let heaps = u64::from(heap) + 1;
        writeln!(
            progress,
            "{heaps} heaps, {threads} threads, {births} objects, all freed"
        )?;
    }
    Ok(Passed::Balanced)
}
