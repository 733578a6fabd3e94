//! A case: its heap, of which memory the things of it are, who takes its steps, and what is left of it.

ghost use Rattle.std.specs.Prelude.{◌≡◌};
ghost use Rattle.brc_count.specs.Frames.{IsUnlocked};
ghost use Rattle.test_heap.specs.Calls.{OwnsAll};

use crate::tests::came::Came;
use crate::tests::leaving::ends;
use crate::tests::player::{calls_meanwhile, plays};
use crate::tests::playing::Playing;
use crate::tests::steps::{How, Step, Who, taker};
use crate::{Heaps, Memories};
use brc_handles::Handles;
use brc_thread::{Heap, Mutator, Options, Root, take_apart};
use linked_list_allocator::LocalHeap;
use std::alloc::Global;
use std::process::Abort;
use std::sync::Wait;

/// Of which memory something is: of one that is enough for all, or of the one that steps take away and give back.
#[derive(Clone, Copy)]
pub(super) enum Memory {
    Ample,
    Scarce,
}

impl Memory {
    /// That memory.
    pub(super) fn of<'h>(self, memories: Memories<&'h LocalHeap>) -> &'h LocalHeap {
        match self {
            Memory::Ample => memories.ample,
            Memory::Scarce => memories.scarce,
        }
    }
}

/// The sizes of a heap, the bytes of its memories, and of which of them the heap is, and the frames, the places and the
/// objects of its three threads. What is begun with comes before the steps of each case.
#[derive(Clone, Copy)]
pub(super) struct World {
    pub(super) cells: u32,
    pub(super) local_limit: u32,
    pub(super) ample: usize,
    pub(super) scarce: usize,
    pub(super) heap: Memory,
    pub(super) frames: Memory,
    pub(super) places: Memory,
    pub(super) objects: Memory,
    pub(super) begins: &'static str,
}

/// 512 cells, whose owners count up to ten references; memory is enough for all.
pub(super) const SMALL: World = World {
    cells: 512,
    local_limit: 10,
    ample: 1 << 20,
    scarce: 64,
    heap: Memory::Ample,
    frames: Memory::Ample,
    places: Memory::Ample,
    objects: Memory::Ample,
    begins: "",
};

/// The same, where owners count as many references as can be.
pub(super) const WIDE: World = World {
    local_limit: 4_294_967_294,
    ..SMALL
};

/// The same, where objects are of scarce memory.
pub(super) const OBJECTS: World = World {
    scarce: 1 << 14,
    objects: Memory::Scarce,
    ..WIDE
};

/// The same, where frames are so too.
pub(super) const FRAMES: World = World {
    scarce: 1 << 16,
    frames: Memory::Scarce,
    ..OBJECTS
};

/// The same, where places are so too.
pub(super) const PLACES: World = World {
    places: Memory::Scarce,
    ..FRAMES
};

/// The same, where all is of scarce memory.
pub(super) const ALL: World = World {
    scarce: 1 << 18,
    heap: Memory::Scarce,
    ..PLACES
};

/// A case: its name, where it is, and its steps (`steps.rt`).
#[derive(Clone, Copy)]
pub(super) struct Case {
    pub(super) name: &'static str,
    pub(super) on: World,
    pub(super) steps: &'static str,
}

/// All steps are taken, each by its thread.
fn takes_all<'h, 'm, R: Abort + Wait>(
    rt: &R,
    playing: &mut Playing<'m>,
    heap: &'h Heap<&'m LocalHeap>,
    root: &mut Root<&'m LocalHeap>,
    one: &mut Mutator<&'h Heap<&'m LocalHeap>, &'m LocalHeap>,
    ones: &mut Handles<&'m LocalHeap>,
    two: &mut Mutator<&'h Heap<&'m LocalHeap>, &'m LocalHeap>,
    twos: &mut Handles<&'m LocalHeap>,
    three: &mut Mutator<&'h Heap<&'m LocalHeap>, &'m LocalHeap>,
    threes: &mut Handles<&'m LocalHeap>,
    steps: &str,
)
    requires one { OwnsAll one.old ones.old }
    requires ones_heap { one.old.heap ≡ heap.now }
    requires two { OwnsAll two.old twos.old }
    requires twos_heap { two.old.heap ≡ heap.now }
    requires three { OwnsAll three.old threes.old }
    requires threes_heap { three.old.heap ≡ heap.now }
    requires root { root.old.table ≡ heap.now.table }
    ensures one { OwnsAll one.new ones.new }
    ensures ones_heap { one.new.heap ≡ heap.now }
    ensures two { OwnsAll two.new twos.new }
    ensures twos_heap { two.new.heap ≡ heap.now }
    ensures three { OwnsAll three.new threes.new }
    ensures threes_heap { three.new.heap ≡ heap.now }
    ensures root { root.new.table ≡ root.old.table }
{
    let mut who = Who::One;
    for text in steps.split(';') {
        if text.trim().is_empty() {
            continue;
        }
        playing.number = playing.number.wrapping_add(1);
        let (taker, text) = taker(text);
        who = taker.unwrap_or(who);
        let step = Step::read(rt, text);
        match (who, step.how) {
            (Who::Two, How::WhileHeld(place)) => {
                let asked = playing.asked(step);
                let (held, call) = (&*ones, step.call);
                let came = calls_meanwhile(
                    rt,
                    &asked,
                    one.frame(),
                    held,
                    place,
                    two.frame(),
                    twos,
                    call,
                );
                playing.says(rt, step, came);
            }
            (Who::One, _) => plays(rt, playing, heap, root, one, ones, step),
            (Who::Two, _) => plays(rt, playing, heap, root, two, twos, step),
            (Who::Three, _) => plays(rt, playing, heap, root, three, threes, step),
        }
    }
}

/// A thread lets go what it keeps and leaves, with no turn of work left to it.
fn leaves<'h, 'm>(
    rt: &impl Abort,
    name: &str,
    heap: &'h Heap<&'m LocalHeap>,
    root: &mut Root<&'m LocalHeap>,
    thread: Mutator<&'h Heap<&'m LocalHeap>, &'m LocalHeap>,
    handles: Handles<&'m LocalHeap>,
)
    requires all { OwnsAll thread handles }
    requires heap { thread.heap ≡ heap.now }
    requires root { root.old.table ≡ heap.now.table }
    ensures root { root.new.table ≡ root.old.table }
{
    let mut thread = thread;
    handles.release_all(thread.frame());
    match ends(rt, name, heap, root, thread, 0) {
        Came::Ledger(_, _) => {}
        _ => panic!(rt; "{name}: a thread has work left at its end"),
    }
}

/// The next thread.
fn enters<'h, 'm>(
    rt: &impl Abort,
    memory: &'m LocalHeap,
    heap: &'h Heap<&'m LocalHeap>,
    root: &mut Root<&'m LocalHeap>,
) -> Mutator<&'h Heap<&'m LocalHeap>, &'m LocalHeap>
    requires root { root.old.table ≡ heap.now.table }
    ensures bare { result.len ≡ 0 }
    ensures unlocked { IsUnlocked result }
    ensures heap { result.heap ≡ heap.now }
    ensures root { root.new.table ≡ root.old.table }
{
    root.register(memory, heap)
        .expect(rt, "a thread is refused")
}

/// The case with these memories. Of what its heap leaves only the immortals have blocks: cells 0 to 265.
fn on_a_heap<R: Abort + Wait>(rt: &R, alloc: Global, memories: Memories<&LocalHeap>, case: &Case) {
    let (name, on) = (case.name, case.on);
    let options = Options {
        cells: on.cells,
        local_limit: on.local_limit,
    };
    let (heap, mut root) = Heap::new(on.heap.of(memories), options).expect(rt, "no heap is had");
    let (frames, places) = (on.frames.of(memories), on.places.of(memories));
    let mut one = enters(rt, frames, &heap, &mut root);
    let mut two = enters(rt, frames, &heap, &mut root);
    let mut three = enters(rt, frames, &heap, &mut root);
    let mut ones = Handles::new(places);
    let mut twos = Handles::new(places);
    let mut threes = Handles::new(places);
    let mut playing = Playing {
        case: name,
        number: 0,
        count: 0,
        alloc,
        memories,
        objects: on.objects.of(memories),
        taken: Vec::new(alloc),
    };
    takes_all(
        rt,
        &mut playing,
        &heap,
        &mut root,
        &mut one,
        &mut ones,
        &mut two,
        &mut twos,
        &mut three,
        &mut threes,
        on.begins,
    );
    takes_all(
        rt,
        &mut playing,
        &heap,
        &mut root,
        &mut one,
        &mut ones,
        &mut two,
        &mut twos,
        &mut three,
        &mut threes,
        case.steps,
    );
    leaves(rt, name, &heap, &mut root, one, ones);
    leaves(rt, name, &heap, &mut root, two, twos);
    leaves(rt, name, &heap, &mut root, three, threes);
    playing.is_empty(rt, take_apart(heap, root));
}

/// Each case on a heap of its own, which leaves nothing of its memory in use.
pub(super) fn plays_all<R: Abort + Wait>(rt: &R, alloc: Global, cases: &[Case]) {
    for case in cases {
        let (name, on) = (case.name, case.on);
        let heaps = Heaps::new(alloc, on.ample, on.scarce).expect(rt, "memory");
        on_a_heap(rt, alloc, heaps.memories(), case);
        let used = heaps.used();
        assert!(rt; used == (0, 0), "{name}: {used:?} bytes are in use");
    }
}
