//! The player: it takes the steps of a case, one after the other, each the way that the row says.

ghost use Rattle.std.specs.Prelude.{◌≡◌};
ghost use Rattle.brc_count.specs.Frames.{IsUnlocked};
ghost use Rattle.test_heap.specs.Calls.{OwnsAll, Stays};

use crate::tests::calls::{Call, OnThread};
use crate::tests::came::Came;
use crate::tests::comparing::same;
use crate::tests::frames::on_frame;
use crate::tests::leaving::{leaves, stays};
use crate::tests::objects::on_object;
use crate::tests::places::on_places;
use crate::tests::playing::{Playing, Seen};
use crate::tests::steps::{Asked, Growths, How, Step};
use crate::tests::valued::on_value;
use brc_count::Frame;
use brc_count::biased::HasTable;
use brc_count::block::Payload;
use brc_handles::Handles;
use brc_lock::try_lock;
use brc_places::try_len_at;
use brc_thread::{Heap, Mutator, Root};
use linked_list_allocator::LocalHeap;
use std::alloc::Allocator;
use std::mem;
use std::process::Abort;
use std::sync::Wait;

/// How many entries the objects of all places have, as one number that tells them apart.
fn entries<H: HasTable<A>, A: Allocator>(frame: &mut Frame<H, A>, handles: &Handles<A>) -> usize
    requires { OwnsAll frame.old handles.now }
    ensures all { OwnsAll frame.new handles.now }
    ensures heap { frame.new.heap ≡ frame.old.heap }
{
    let mut entries = 0usize;
    for place in 0..handles.len() {
        if let Ok(len) = try_len_at(frame, handles, place) {
            entries = entries.wrapping_mul(31).wrapping_add(len);
        }
    }
    entries
}

/// What is seen of the thread.
fn look_over<H: HasTable<A>, A: Allocator>(frame: &mut Frame<H, A>, handles: &Handles<A>) -> Seen
    requires { OwnsAll frame.old handles.now }
    ensures all { OwnsAll frame.new handles.now }
    ensures heap { frame.new.heap ≡ frame.old.heap }
{
    let entries = entries(frame, handles);
    let ledger = frame.ledger();
    Seen {
        handles: frame.len(),
        places: handles.len(),
        births: ledger.allocs,
        frees: ledger.frees,
        entries,
    }
}

/// A call that no thread makes on itself: what comes of it.
pub(super) fn calls<R: Abort + Wait, H: HasTable<A>, A: Allocator + Copy>(
    rt: &R,
    asked: &Asked<'_, A>,
    frame: &mut Frame<H, A>,
    handles: &mut Handles<A>,
    call: Call,
) -> Came
    requires { OwnsAll frame.old handles.old }
    ensures all { OwnsAll frame.new handles.new }
    ensures heap { frame.new.heap ≡ frame.old.heap }
{
    match call {
        Call::Frame(call) => on_frame(rt, frame, call, asked.given),
        Call::Places(call) => on_places(rt, asked, frame, handles, call),
        Call::Object(call) => {
            let place = asked.given.object(rt);
            let object = handles.get(place).expect(rt, "no object is there");
            on_object(rt, asked, frame, object, call)
        }
        Call::Value(call) => {
            let place = asked.given.object(rt);
            let object = handles.get(place).expect(rt, "no object is there");
            on_value(rt, asked, frame, object, call)
        }
        Call::Thread(_) => panic!(rt; "no other thread's call"),
    }
}

/// While the holder has the object in its place locked, with room and a place, the other thread makes the call: what
/// comes of it.
pub(super) fn calls_meanwhile<R: Abort + Wait, H: HasTable<A>, A: Allocator + Copy>(
    rt: &R,
    asked: &Asked<'_, A>,
    holder: &mut Frame<H, A>,
    held: &Handles<A>,
    place: usize,
    frame: &mut Frame<H, A>,
    handles: &mut Handles<A>,
    call: Call,
) -> Came
    requires holds { OwnsAll holder.old held.now }
    requires all { OwnsAll frame.old handles.old }
    ensures holds { OwnsAll holder.new held.now }
    ensures holders_heap { holder.new.heap ≡ holder.old.heap }
    ensures all { OwnsAll frame.new handles.new }
    ensures heap { frame.new.heap ≡ frame.old.heap }
{
    let object = held.get(place).expect(rt, "nothing is there to be locked");
    match try_lock(holder, object) {
        Err(_) => panic!(rt; "somebody else has locked it"),
        Ok(locked) => {
            let mut locked = locked;
            let Payload::Dict(_) = locked.payload() else {
                panic!(rt; "it is no dictionary")
            };
            assert!(rt; locked.room().is_ok());
            assert!(rt; locked.place().is_ok());
            let came = calls(rt, asked, frame, handles, call);
            locked.unlock();
            came
        }
    }
}

/// A call of a thread on itself, or on its memory: what comes of it.
pub(super) fn on_thread<'h, R: Abort + Wait, H: HasTable<&'h LocalHeap>>(
    rt: &R,
    playing: &mut Playing<'h>,
    thread: &mut Mutator<H, &'h LocalHeap>,
    call: OnThread,
) -> Came
    requires unlocked { IsUnlocked thread.old }
    ensures { Stays thread.old thread.new }
{
    match call {
        OnThread::Settle => {
            thread.settle(rt);
            Came::Passed
        }
        OnThread::ClearGlobals => Came::of(thread.clear_globals()),
        OnThread::Globals => match thread.globals() {
            Ok(globals) => {
                thread.frame().release(globals);
                Came::Passed
            }
            Err(fault) => Came::Refused(fault),
        },
        OnThread::Starve => {
            playing.starve(rt);
            Came::Passed
        }
        OnThread::Feed => {
            let _taken = mem::replace(&mut playing.taken, Vec::new(playing.alloc));
            Came::Passed
        }
        OnThread::Stay | OnThread::LeaveAfter => panic!(rt;
            "a thread leaves once, and no other way"
        ),
    }
}

/// The step's call once: what comes of it.
fn once<'h, R: Abort + Wait, H: HasTable<&'h LocalHeap>>(
    rt: &R,
    playing: &mut Playing<'h>,
    thread: &mut Mutator<H, &'h LocalHeap>,
    handles: &mut Handles<&'h LocalHeap>,
    step: Step<'_>,
) -> Came
    requires { OwnsAll thread.old handles.old }
    ensures all { OwnsAll thread.new handles.new }
    ensures heap { thread.new.heap ≡ thread.old.heap }
{
    match step.call {
        Call::Thread(call) => on_thread(rt, playing, thread, call),
        _ => {
            let asked = playing.asked(step);
            calls(rt, &asked, thread.frame(), handles, step.call)
        }
    }
}

/// After a refusal nothing is dead, and what is seen is as it was.
fn stands<'h, H: HasTable<&'h LocalHeap>>(
    rt: &impl Abort,
    playing: &Playing<'h>,
    thread: &mut Mutator<H, &'h LocalHeap>,
    handles: &Handles<&'h LocalHeap>,
    step: Step<'_>,
    before: Seen,
)
    requires { OwnsAll thread.old handles.now }
    ensures all { OwnsAll thread.new handles.now }
    ensures heap { thread.new.heap ≡ thread.old.heap }
{
    same(rt, thread.work(8), 8);
    let after = look_over(thread.frame(), handles);
    playing.stands(rt, step, before, after);
}

/// The step with a piece of memory more after each refusal, until it passes.
fn fed<'h, R: Abort + Wait, H: HasTable<&'h LocalHeap>>(
    rt: &R,
    playing: &mut Playing<'h>,
    thread: &mut Mutator<H, &'h LocalHeap>,
    handles: &mut Handles<&'h LocalHeap>,
    step: Step<'_>,
    growths: Growths,
)
    requires { OwnsAll thread.old handles.old }
    ensures all { OwnsAll thread.new handles.new }
    ensures heap { thread.new.heap ≡ thread.old.heap }
{
    let before = look_over(thread.frame(), handles);
    let (mut refusals, mut refused) = (0u32, 0u32);
    // A growth that was had stays had, and so what is in use tells which one was refused.
    let mut used = usize::MAX;
    for _ in 0..1_000 {
        match once(rt, playing, thread, handles, step) {
            Came::Refused(fault) => {
                playing.wants(rt, step, Came::Refused(fault));
                stands(rt, playing, thread, handles, step, before);
                refusals = refusals.wrapping_add(1);
                if playing.used() != used {
                    used = playing.used();
                    refused = refused.wrapping_add(1);
                }
                playing.give_one(rt);
            }
            came => {
                playing.says(rt, step, came);
                playing.is_enough(rt, step, growths, refusals, refused);
                return;
            }
        }
    }
    panic!(rt; "the call never passes")
}

/// The step until no memory is left for it; then `n` is how often it passed.
fn until_refused<'h, R: Abort + Wait, H: HasTable<&'h LocalHeap>>(
    rt: &R,
    playing: &mut Playing<'h>,
    thread: &mut Mutator<H, &'h LocalHeap>,
    handles: &mut Handles<&'h LocalHeap>,
    step: Step<'_>,
)
    requires { OwnsAll thread.old handles.old }
    ensures all { OwnsAll thread.new handles.new }
    ensures heap { thread.new.heap ≡ thread.old.heap }
{
    for passed in 0..1_000u32 {
        playing.count = passed;
        let before = look_over(thread.frame(), handles);
        match once(rt, playing, thread, handles, step) {
            Came::Refused(fault) => {
                playing.wants(rt, step, Came::Refused(fault));
                stands(rt, playing, thread, handles, step, before);
                return;
            }
            came => playing.says(rt, step, came),
        }
    }
    panic!(rt; "memory that is never missing")
}

/// The step as long as the frame names its next place.
fn while_ready<'h, R: Abort + Wait, H: HasTable<&'h LocalHeap>>(
    rt: &R,
    playing: &mut Playing<'h>,
    thread: &mut Mutator<H, &'h LocalHeap>,
    handles: &mut Handles<&'h LocalHeap>,
    step: Step<'_>,
)
    requires { OwnsAll thread.old handles.old }
    ensures all { OwnsAll thread.new handles.new }
    ensures heap { thread.new.heap ≡ thread.old.heap }
{
    for _ in 0..1_000 {
        if thread.spare_place().is_none() {
            return;
        }
        let came = once(rt, playing, thread, handles, step);
        playing.says(rt, step, came);
    }
    panic!(rt; "a place is always ready")
}

/// The step so many times, each of them starved or not.
fn times<'h, R: Abort + Wait, H: HasTable<&'h LocalHeap>>(
    rt: &R,
    playing: &mut Playing<'h>,
    thread: &mut Mutator<H, &'h LocalHeap>,
    handles: &mut Handles<&'h LocalHeap>,
    step: Step<'_>,
)
    requires { OwnsAll thread.old handles.old }
    ensures all { OwnsAll thread.new handles.new }
    ensures heap { thread.new.heap ≡ thread.old.heap }
{
    for taken in 0..step.times {
        if step.times > 1 {
            playing.count = taken;
        }
        if let How::Starved = step.how {
            playing.starve(rt);
        }
        let came = once(rt, playing, thread, handles, step);
        playing.says(rt, step, came);
    }
    if step.times > 1 {
        playing.count = step.times;
    }
}

/// The step, by the thread that takes it.
pub(super) fn plays<'h, 'm, R: Abort + Wait>(
    rt: &R,
    playing: &mut Playing<'m>,
    heap: &'h Heap<&'m LocalHeap>,
    root: &mut Root<&'m LocalHeap>,
    thread: &mut Mutator<&'h Heap<&'m LocalHeap>, &'m LocalHeap>,
    handles: &mut Handles<&'m LocalHeap>,
    step: Step<'_>,
)
    requires all { OwnsAll thread.old handles.old }
    requires heap { thread.old.heap ≡ heap.now }
    requires root { root.old.table ≡ heap.now.table }
    ensures all { OwnsAll thread.new handles.new }
    ensures heap { thread.new.heap ≡ heap.now }
    ensures root { root.new.table ≡ root.old.table }
{
    match step.how {
        How::Fed(growths) => fed(rt, playing, thread, handles, step, growths),
        How::UntilRefused => until_refused(rt, playing, thread, handles, step),
        How::WhileReady => while_ready(rt, playing, thread, handles, step),
        How::WhileHeld(_) => panic!(rt; "the first thread holds nothing"),
        How::Plain | How::Starved => match step.call {
            Call::Thread(OnThread::LeaveAfter) => {
                leaves(rt, playing, heap, root, thread, handles, step);
            }
            Call::Thread(OnThread::Stay) => stays(rt, playing, heap, root, thread),
            _ => times(rt, playing, thread, handles, step),
        },
    }
}
