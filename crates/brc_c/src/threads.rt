//! Threads: registered, counted, at work, and on their way out.

ghost use Rattle.std.specs.Prelude.{◌≡◌, ◌≢◌};
ghost use Rattle.brc_client.specs.Answers.{Polls, TakesApart, CountsReferences, LetsAllGo};
ghost use Rattle.brc_client.specs.Ends.{open_at, seen_by, SameOwner, desk_of, seen_at, SameStage};
ghost use Rattle.brc_c.specs.Calls.{ClaimsAt};
ghost use Rattle.brc_c.specs.Ends.{RegistersThread, FillsRoom, Leaves, TellsLedger, WritesLedger};
ghost use Rattle.brc_c.specs.Exports.{Carries, CarriesOut, OnClient, Always, WritesNothing, code_of};

use crate::held::Held;
use crate::outs::{gone, says_yes, status_of};
use crate::parts::Parts;
use crate::slots::{CHeap, CThread, ThreadRoom};
use brc_client::{Status, Thread};
use brc_words::Fault;
use std::alloc::Global;

// In both calls that register a thread, the room that C's variable leads to is had first. A thread that is registered and
// then can't be handed out would have to leave, and it couldn't while another call has the heap's root.

#[unsafe(no_mangle)]
pub extern "C" fn brc_thread_new(alloc: Global, heap: &mut CHeap, at: &mut ThreadRoom) -> u32
    ensures kept { result ≢ 0 → at.new ≡ at.old }
    ensures carries { Carries (RegistersThread open_at seen_by SameOwner) heap.old.value heap.new.value result
        (FillsRoom at.new.value) }
{
    match Box::new(alloc, Held::empty()) {
        Ok(room) => hand_out(room, heap.as_mut().register(alloc), at),
        Err(_) => Status::Fault(Fault::OutOfMemory).number(),
    }
}

#[unsafe(no_mangle)]
pub extern "C" fn brc_thread_fork(alloc: Global, thread: &mut CThread, at: &mut ThreadRoom) -> u32
    ensures kept { result ≢ 0 → at.new ≡ at.old }
    ensures carries { Carries (RegistersThread desk_of seen_at SameStage) thread.old.value.thread thread.new.value.thread
        result (FillsRoom at.new.value) }
{
    match Box::new(alloc, Held::empty()) {
        Ok(room) => hand_out(room, thread.as_mut().fork(alloc), at),
        Err(_) => Status::Fault(Fault::OutOfMemory).number(),
    }
}

/// The thread goes into the room, and the room to C.
fn hand_out(room: Box<Held, Global>, made: Result<Thread, Status>, at: &mut ThreadRoom) -> u32
    ensures code { result ≡ code_of made }
    ensures kept { result ≢ 0 → at.new ≡ at.old }
    ensures filled { FillsRoom at.new.value made }
{
    match made {
        Ok(thread) => {
            let mut room = room;
            room.fill(thread);
            *at = CThread::of_parts(Parts::of(room)).into_room();
            0
        }
        Err(status) => status.number(),
    }
}

#[unsafe(no_mangle)]
pub extern "C" fn brc_thread_leave(thread: &mut CThread) -> u32
    ensures carries { Carries Leaves thread.old.value.thread thread.new.value.thread result WritesNothing }
{
    status_of(thread.as_mut().leave())
}

#[unsafe(no_mangle)]
pub extern "C" fn brc_thread_drop(thread: CThread) {
    drop(thread.into_parts().into_box());
}

#[unsafe(no_mangle)]
pub extern "C" fn brc_ledger(thread: &mut CThread, allocs: &mut u64, frees: &mut u64) -> u32
    ensures kept { result ≢ 0 → (allocs.new ≡ allocs.old) × (frees.new ≡ frees.old) }
    ensures carries { Carries TellsLedger thread.old.value.thread thread.new.value.thread result
        (WritesLedger allocs.old allocs.new frees.old frees.new) }
{
    match thread.as_mut().ledger() {
        Ok(ledger) => {
            *allocs = ledger.allocs;
            *frees = ledger.frees;
            0
        }
        Err(status) => status.number(),
    }
}

#[unsafe(no_mangle)]
pub extern "C" fn brc_poll(thread: &mut CThread) -> u64
    ensures carries { OnClient (λ was is. Polls was is result) (result ≡ 0)
        thread.old.value.thread thread.new.value.thread }
{
    match thread.as_mut().client() {
        Some(client) => client.poll(),
        None => 0,
    }
}

#[unsafe(no_mangle)]
pub extern "C" fn brc_work(thread: &mut CThread, turns: usize) -> usize
    ensures carries { OnClient (λ was is. TakesApart turns was is result) (result ≡ turns)
        thread.old.value.thread thread.new.value.thread }
{
    match thread.as_mut().client() {
        Some(client) => client.work(turns),
        None => turns,
    }
}

#[unsafe(no_mangle)]
pub extern "C" fn brc_count(thread: &mut CThread) -> usize
    ensures carries { OnClient (λ was is. CountsReferences was is result) (result ≡ 0)
        thread.old.value.thread thread.new.value.thread }
{
    match thread.as_mut().client() {
        Some(client) => client.count(),
        None => 0,
    }
}

#[unsafe(no_mangle)]
pub extern "C" fn brc_release_all(thread: &mut CThread) -> u32
    ensures does { CarriesOut (Always LetsAllGo) thread.old.value thread.new.value result WritesNothing }
{
    match thread.as_mut().client() {
        Some(client) => {
            client.release_all();
            0
        }
        None => gone(),
    }
}

#[unsafe(no_mangle)]
pub extern "C" fn brc_claim(thread: &mut CThread, cell: u32, near_last: u32) -> u32
    ensures does { CarriesOut (Always (ClaimsAt cell near_last)) thread.old.value thread.new.value result
        WritesNothing }
{
    match thread.as_mut().client() {
        Some(client) => {
            client.claim(cell, says_yes(near_last));
            0
        }
        None => gone(),
    }
}
