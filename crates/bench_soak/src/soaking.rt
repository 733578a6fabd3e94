//! Runs one after the other, for so long.

use crate::checking::is_as_planned;
use crate::plan::Plan;
use crate::script::script_of;
use brc_run::{Gate, run_script};
use rand_core::SeedableRng;
use rand_pcg::Pcg32;
use std::alloc::Global;
use std::io;
use std::io::Write;
use std::rt::Clock;
use std::sync::Wait;
use std::thread::Threads;
use std::time::{Duration, Instant};

/// What came of all runs.
#[derive(Clone, Copy)]
pub enum Soaked {
    Balanced,
    /// This one wasn't as planned.
    Unlike(Plan),
}

/// What was done so far.
#[derive(Clone, Copy)]
struct Done {
    heaps: u64,
    threads: u64,
    births: u64,
    remains: u64,
}

impl Done {
    /// This plan too. Of its threads one is the program's, which clears the globals.
    fn and(self, plan: &Plan) -> Done {
        Done {
            heaps: self.heaps.wrapping_add(1),
            threads: self.threads.wrapping_add(u64::from(plan.players) + 2),
            births: self.births.wrapping_add(plan.births()),
            remains: self.remains.wrapping_add(plan.remains()),
        }
    }
}

/// Lets each instruction start at once.
#[derive(Drop)]
struct Open;

impl Gate for Open {
    ghost may_refuse = { λ _ _ _. ⊥ };

    fn at<R: Wait>(&self, _rt: &R, _section: u32, _line: u32) -> bool {
        true
    }
}

/// Runs the plan's script, and answers whether it came to what it should.
fn holds<R: Threads + Wait + Sync>(rt: &R, alloc: Global, plan: &Plan) -> io::Result<bool> {
    let script = script_of(alloc, plan)?;
    let mut output = Vec::new(alloc);
    let input = script.as_str().as_bytes();
    match run_script(rt, alloc, plan.options(), input, &mut output, &Open) {
        Ok(ended) => Ok(is_as_planned(alloc, plan, ended, output.as_slice())?),
        Err(_fault) => Ok(false),
    }
}

/// Tells what was done so far.
fn tell<W: Write>(progress: &mut W, done: Done) -> io::Result<()> {
    let (heaps, threads, births, remains) = (done.heaps, done.threads, done.births, done.remains);
    writeln!(
        progress,
        "{heaps} heaps, {threads} threads, {births} objects, {remains} left on purpose"
    )
}

/// Runs plans for so many seconds, or until one isn't as it should be.
pub fn soak<R: Threads + Wait + Clock + Sync, W: Write>(
    rt: &R,
    alloc: Global,
    progress: &mut W,
    seconds: u64,
    seed: u64,
) -> io::Result<Soaked> {
    let mut rng = Pcg32::seed_from_u64(seed);
    let mut done = Done {
        heaps: 0,
        threads: 0,
        births: 0,
        remains: 0,
    };
    let began = Instant::now(rt)?;
    let mut told: u64 = 0;
    for _ in rt.forever() {
        let plan = Plan::drawn(&mut rng);
        if !holds(rt, alloc, &plan)? {
            return Ok(Soaked::Unlike(plan));
        }
        done = done.and(&plan);
        let passed = Instant::now(rt)?.duration_since(began);
        if passed.as_secs() > told {
            told = passed.as_secs();
            tell(progress, done)?;
        }
        if passed >= Duration::from_secs(seconds) {
            return Ok(Soaked::Balanced);
        }
    }
    unreachable!()
}
