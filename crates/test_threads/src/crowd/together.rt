//! All threads: how they are registered, live at the same time, and are gathered.

ghost use Rattle.std.specs.Prelude.{◌≡◌, ◌≤◌, [], IfOk, vec_capacity};
ghost use Rattle.test_threads.specs.Crowd.{AreReady, HaveLived};

use crate::crowd::counted::{Counted, Want};
use crate::crowd::crew::{OTHERS, gather_all, live_beside, register_all};
use crate::crowd::finding::shares_list;
use crate::crowd::first::{ends, rests};
use crate::crowd::gate::Gate;
use crate::crowd::lives::Done;
use brc_heap::{Heap, Resting, Root};
use std::alloc::{AllocError, Global};
use std::sync::Wait;
use std::thread;
use std::thread::{Scope, Threads};

/// What is kept of the other threads; all memory for it is asked for before the first is registered.
#[derive(Drop)]
struct Room {
    crew: Vec<Resting>,
    done: Vec<Done>,
}

/// Room for all of them.
fn room_for_all(alloc: Global) -> Result<Room, AllocError>
    ensures crew { IfOk result (λ room. (room.crew.items ≡ []) × (OTHERS ≤ vec_capacity room.crew)) }
    ensures done { IfOk result (λ room. (room.done.items ≡ []) × (OTHERS ≤ vec_capacity room.done)) }
{
    Ok(Room {
        crew: Vec::with_capacity(alloc, OTHERS)?,
        done: Vec::with_capacity(alloc, OTHERS)?,
    })
}

/// What comes back once all have found the list: the first, and the ends of the others.
#[derive(Drop)]
struct Lived {
    first: Resting,
    counted: Counted,
    done: Vec<Done>,
}

/// The first thread puts the list into the globals, and then all find it.
fn live_in<'s, E: 's, R: Threads + Wait + Sync>(
    rt: &'s R,
    scope: &Scope<'s, E>,
    alloc: Global,
    heap: &'s Heap,
    first: Resting,
    room: Room,
    gate: &'s Gate,
) -> Lived
    requires ready { AreReady heap.now first room }
    ensures lived { HaveLived heap.now result }
{
    let Room { crew, mut done } = room;
    let mut first = first.wake(heap);
    let shared = shares_list(rt, alloc, &mut first);
    let found = live_beside(
        rt,
        scope,
        heap,
        &mut first,
        crew.into_iter(),
        gate,
        &mut done,
    );
    Lived {
        first: rests(rt, first),
        counted: shared.and(found),
        done,
    }
}

/// All threads live, at the same time.
fn live<R: Threads + Wait + Sync>(
    rt: &R,
    alloc: Global,
    heap: &Heap,
    first: Resting,
    room: Room,
) -> Lived
    requires ready { AreReady heap.now first room }
    ensures lived { HaveLived heap.now result }
{
    let gate = Gate::closed();
    let gate = &gate;
    thread::scope(
        thread::scope_env(),
        rt,
        |scope| -> Lived
            requires ready { AreReady heap.now first room }
            ensures lived { HaveLived heap.entry.now result }
        { live_in(rt, scope, alloc, heap, first, room, gate) },
    )
}

/// All threads are registered, live, and are gathered, the first of them last: what they counted.
pub(crate) fn all_live<R>(rt: &R, alloc: Global, heap: &Heap, root: &mut Root) -> Counted
where
    R: Threads + Wait + Sync,
    requires root { root.old.table ≡ heap.now.table }
    ensures root { root.new.table ≡ root.old.table }
{
    let Ok(mut room) = room_for_all(alloc) else {
        return Counted::wanting(Want::Memory);
    };
    let Ok(first) = root.register(alloc, heap) else {
        return Counted::wanting(Want::Mutator);
    };
    let registered = register_all(alloc, heap, root, &mut room.crew);
    let lived = live(rt, alloc, heap, first.rest(), room);
    let others = gather_all(heap, root, lived.done);
    let last = ends(rt, heap, root, lived.first);
    registered.and(lived.counted).and(others).and(last)
}
