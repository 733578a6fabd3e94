//! Jobs that are done, each on a thread of the machine where one can be had.
//!
//! `thread::map_vec` drops jobs where memory runs out between two of them. Here all memory is had before the first job
//! is begun, so a run that is refused hands all of them back. What takes no memory is `thread::for_each_mut`: each job
//! stands in a place that its answer comes to.

ghost use Rattle.std.specs.Prelude.{◌≡◌, ◌<◌, ◌≤◌, ℕ, [], Some, IfOk, IfErr, length, slice_index_or, vec_len, vec_capacity};
ghost use Rattle.std.specs.Fork.{AcceptsJobs, GivesJobs};
ghost use Rattle.brc_loops.specs.Errands.{AreDone, InReverse, Answers};

use std::thread;
use std::thread::Threads;

/// A job that is to be done, and then what came of it.
#[derive(Drop)]
struct Errand<J, X> {
    job: Option<J>,
    answer: Option<X>,
}

/// Each job becomes an errand, the last one first.
fn laid_out<J: Drop, X: Drop>(jobs: Vec<J>, room: Vec<Errand<J, X>>) -> Vec<Errand<J, X>>
    requires none { room.items ≡ [] }
    requires room { vec_len jobs ≤ vec_capacity room }
    ensures { InReverse (λ job errand. errand.job ≡ Some job) jobs.items result.items }
{
    let mut jobs = jobs;
    let mut errands = room;
    while let Some(job) = jobs.pop() {
        errands.push_reserved(Errand {
            job: Some(job),
            answer: None,
        });
    }
    errands
}

/// The errand's job is done.
fn do_one<J, X: Drop, F: Fn(J) -> X>(f: &F, errand: &mut Errand<J, X>)
    requires { (job : J) → errand.old.job ≡ Some job → F.pre f.now job }
    ensures { (job : J) → errand.old.job ≡ Some job → Answers F.Fn f.now job errand.new }
{
    if let Some(job) = errand.job.take() {
        errand.answer = Some(f(job));
    }
}

/// Each errand is done, on a thread of the machine of its own where one can be had. Where none can, those that stand
/// behind it are done first.
fn do_each<R: Threads + Sync, J: Send + Drop, X: Send + Drop, F: Fn(J) -> X + Sync>(
    rt: &R,
    f: &F,
    errands: &mut [Errand<J, X>],
)
    requires { (place : ℕ) (errand : _) (job : J) → place < length errands.old
        → (slice_index_or errands.old place errand).job ≡ Some job → F.pre f.now job }
    ensures { (place : ℕ) (errand : _) (job : J) → place < length errands.old
        → (slice_index_or errands.old place errand).job ≡ Some job
        → Answers F.Fn f.now job (slice_index_or errands.new place errand) }
{
    let most = errands.len().max(1);
    thread::for_each_mut(
        rt,
        errands,
        most,
        &|_place, errand: &mut Errand<J, X>|
            requires { (job : J) → errand.now.job ≡ Some job → F.pre f.now job }
            ensures { (job : J) → errand.entry.now.job ≡ Some job → Answers F.Fn f.entry.now job errand.exit.now }
        { do_one(f, errand) },
    );
}

/// Their answers, that of the last errand first.
fn answered<J: Drop, X: Drop>(errands: Vec<Errand<J, X>>, room: Vec<X>) -> Vec<X>
    requires none { room.items ≡ [] }
    requires room { vec_len errands ≤ vec_capacity room }
    requires done { AreDone errands.items }
    ensures { InReverse (λ errand answer. errand.answer ≡ Some answer) errands.items result.items }
{
    let mut errands = errands;
    let mut answers = room;
    while let Some(errand) = errands.pop() {
        let Errand { job: _job, answer } = errand;
        match answer {
            Some(answer) => answers.push_reserved(answer),
            None => unreachable!(),
        }
    }
    answers
}

/// Each job is done, on a thread of the machine of its own where one can be had; the answers are in the order of the
/// jobs. Where the machine has no thread for a job, those before it are done first: so a job may wait for an earlier
/// one, and not for a later one. All memory is had before the first is begun: if it is missing, all jobs come back, and
/// none is begun.
pub(crate) fn do_all<R: Threads + Sync, J: Send + Drop, X: Send + Drop, F: Fn(J) -> X + Sync>(
    rt: &R,
    jobs: Vec<J>,
    f: &F,
) -> Result<Vec<X>, Vec<J>>
    requires { AcceptsJobs F.Fn f.now jobs.items }
    ensures len { IfOk result (λ answers. length answers.items ≡ length jobs.items) }
    ensures each { IfOk result (λ answers. GivesJobs F.Fn f.now jobs.items answers.items) }
    ensures back { IfErr result (λ same. same ≡ jobs) }
{
    let alloc = *jobs.allocator();
    let Ok(room) = Vec::with_capacity(alloc, jobs.len()) else {
        return Err(jobs);
    };
    let Ok(answers) = Vec::with_capacity(alloc, jobs.len()) else {
        return Err(jobs);
    };
    // The last job stands first, since of two halves it is the first that goes to a new thread, or is done last where
    // there is none (`thread::join_mut`).
    let mut errands = laid_out(jobs, room);
    do_each(rt, f, errands.as_mut_slice());
    Ok(answered(errands, answers))
}
