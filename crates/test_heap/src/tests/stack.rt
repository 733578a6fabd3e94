//! Calls of a stack, each growth refused in turn: the call answers OutOfMemory, the stack and the frame have as many
//! handles as before and the lists as many entries, and nothing is dead; with memory it then passes. A push hands its
//! handle back. The steps are those of `steps.rt`, on a stack in the place of numbered places: `retain 2` is `load`,
//! `duplicate` and `drop` are of the top, and a container on top gives, or takes what is above it.

ghost use Rattle.std.specs.Prelude.{◌≡◌};
ghost use Rattle.test_heap.specs.Calls.{EndsBare, IsBare, OwnsAll};

use crate::tests::calls::{Call, OnPlaces};
use crate::tests::came::Came;
use crate::tests::comparing::same;
use crate::tests::frames::on_frame;
use crate::tests::leaving::ends;
use crate::tests::player::on_thread;
use crate::tests::playing::{Playing, Seen};
use crate::tests::steps::{Asked, Growths, How, Step, make_of};
use crate::tests::worlds::{Case, Memory, OBJECTS, PLACES, World};
use crate::{Heaps, Memories};
use brc_count::biased::HasTable;
use brc_count::{Frame, HandedBack};
use brc_places::{GiveBy, Stack, TakeBy};
use brc_things::{none, try_len_of};
use brc_thread::{Heap, Mutator, Options, take_apart};
use linked_list_allocator::LocalHeap;
use std::alloc::{Allocator, Global};
use std::process::Abort;
use std::sync::Wait;

/// None goes on top; a refusal hands it back.
fn pushes<H: HasTable<A>, A: Allocator>(
    rt: &impl Abort,
    frame: &mut Frame<H, A>,
    stack: &mut Stack<A>,
) -> Came
    requires { OwnsAll frame.old stack.old }
    ensures all { OwnsAll frame.new stack.new }
    ensures heap { frame.new.heap ≡ frame.old.heap }
{
    let handle = none(frame).expect(rt, "no None is had");
    match stack.push(frame, handle) {
        Ok(()) => Came::Passed,
        Err(HandedBack { fault, value: back }) => {
            frame.release(back);
            Came::Refused(fault)
        }
    }
}

/// How many entries the object in this place has; none, if it is no container.
fn len_at<H: HasTable<A>, A: Allocator>(
    frame: &mut Frame<H, A>,
    stack: &Stack<A>,
    place: usize,
) -> usize
    requires { OwnsAll frame.old stack.now }
    ensures all { OwnsAll frame.new stack.now }
    ensures heap { frame.new.heap ≡ frame.old.heap }
{
    match stack.get(place) {
        Some(object) => try_len_of(frame, object).unwrap_or(0),
        None => 0,
    }
}

/// The call, and what is seen then.
fn on_stack<R: Abort + Wait, H: HasTable<A>, A: Allocator + Copy>(
    rt: &R,
    asked: &Asked<'_, A>,
    frame: &mut Frame<H, A>,
    stack: &mut Stack<A>,
    call: OnPlaces,
) -> Came
    requires { OwnsAll frame.old stack.old }
    ensures all { OwnsAll frame.new stack.new }
    ensures heap { frame.new.heap ≡ frame.old.heap }
{
    let (alloc, given) = (asked.objects, asked.given);
    match call {
        OnPlaces::Make => Came::of(stack.make(alloc, frame, make_of(rt, given.what))),
        OnPlaces::Retain => Came::of(stack.load(frame, given.place(rt))),
        OnPlaces::Duplicate => Came::of(stack.duplicate(frame)),
        OnPlaces::Drop => Came::of(stack.release(frame)),
        OnPlaces::ListPush => Came::of(stack.take(rt, alloc, frame, TakeBy::Push)),
        OnPlaces::ListPop => Came::of(stack.give(rt, frame, GiveBy::Pop)),
        OnPlaces::ListGet => Came::of(stack.give(rt, frame, GiveBy::Get(given.index(rt)))),
        OnPlaces::ListTake => Came::of(stack.give(rt, frame, GiveBy::Take(given.index(rt)))),
        OnPlaces::LenOf => Came::Count(len_at(frame, stack, given.place(rt)) as u64),
        OnPlaces::PushNone => pushes(rt, frame, stack),
        _ => panic!(rt; "no call of a stack"),
    }
}

/// The step's call once: what comes of it.
fn once<'h, R: Abort + Wait, H: HasTable<&'h LocalHeap>>(
    rt: &R,
    playing: &mut Playing<'h>,
    thread: &mut Mutator<H, &'h LocalHeap>,
    stack: &mut Stack<&'h LocalHeap>,
    step: Step<'_>,
) -> Came
    requires { OwnsAll thread.old stack.old }
    ensures all { OwnsAll thread.new stack.new }
    ensures heap { thread.new.heap ≡ thread.old.heap }
{
    match step.call {
        Call::Thread(call) => on_thread(rt, playing, thread, call),
        Call::Frame(call) => on_frame(rt, thread.frame(), call, step.given),
        Call::Places(call) => {
            let asked = playing.asked(step);
            on_stack(rt, &asked, thread.frame(), stack, call)
        }
        Call::Object(_) | Call::Value(_) => panic!(rt; "no call of a stack"),
    }
}

/// What is seen of frame and stack.
fn look_over<H: HasTable<A>, A: Allocator>(frame: &mut Frame<H, A>, stack: &Stack<A>) -> Seen
    requires { OwnsAll frame.old stack.now }
    ensures all { OwnsAll frame.new stack.now }
    ensures heap { frame.new.heap ≡ frame.old.heap }
{
    let mut entries = 0usize;
    for place in 0..stack.len() {
        let len = len_at(frame, stack, place);
        entries = entries.wrapping_mul(31).wrapping_add(len);
    }
    let ledger = frame.ledger();
    Seen {
        handles: frame.len(),
        places: stack.len(),
        births: ledger.allocs,
        frees: ledger.frees,
        entries,
    }
}

/// The step until it is refused, or, with a piece of memory more after each refusal, until it passes. A refusal leaves
/// nothing dead, and what is seen as it was.
fn until<'h, R: Abort + Wait, H: HasTable<&'h LocalHeap>>(
    rt: &R,
    playing: &mut Playing<'h>,
    thread: &mut Mutator<H, &'h LocalHeap>,
    stack: &mut Stack<&'h LocalHeap>,
    step: Step<'_>,
    is_fed: bool,
)
    requires { OwnsAll thread.old stack.old }
    ensures all { OwnsAll thread.new stack.new }
    ensures heap { thread.new.heap ≡ thread.old.heap }
{
    for refusals in 0..1_000 {
        let before = look_over(thread.frame(), stack);
        match once(rt, playing, thread, stack, step) {
            Came::Refused(fault) => {
                playing.wants(rt, step, Came::Refused(fault));
                same(rt, thread.work(8), 8);
                let after = look_over(thread.frame(), stack);
                playing.stands(rt, step, before, after);
                if !is_fed {
                    return;
                }
                playing.give_one(rt);
            }
            came => {
                playing.says(rt, step, came);
                if is_fed {
                    playing.is_enough(rt, step, Growths::Some, refusals, refusals);
                    return;
                }
            }
        }
    }
    panic!(rt; "it never ends so")
}

/// All steps are taken.
fn takes<'h, R: Abort + Wait, H: HasTable<&'h LocalHeap>>(
    rt: &R,
    playing: &mut Playing<'h>,
    thread: &mut Mutator<H, &'h LocalHeap>,
    stack: &mut Stack<&'h LocalHeap>,
    steps: &str,
)
    requires { OwnsAll thread.old stack.old }
    ensures all { OwnsAll thread.new stack.new }
    ensures heap { thread.new.heap ≡ thread.old.heap }
{
    for text in steps.split(';') {
        if text.trim().is_empty() {
            continue;
        }
        playing.number = playing.number.wrapping_add(1);
        let step = Step::read(rt, text.trim());
        match step.how {
            How::Plain => {
                let came = once(rt, playing, thread, stack, step);
                playing.says(rt, step, came);
            }
            How::Fed(_) => until(rt, playing, thread, stack, step, true),
            How::UntilRefused => until(rt, playing, thread, stack, step, false),
            _ => panic!(rt; "no step of a stack"),
        }
    }
}

/// All steps of a case are taken, those that it begins with first, and what is on the stack then goes.
fn takes_all<'h, R: Abort + Wait, H: HasTable<&'h LocalHeap>>(
    rt: &R,
    playing: &mut Playing<'h>,
    scarce: &'h LocalHeap,
    thread: &mut Mutator<H, &'h LocalHeap>,
    begins: &str,
    steps: &str,
)
    requires { IsBare thread.old }
    ensures { EndsBare thread.old thread.new }
{
    let mut stack = Stack::new(scarce);
    takes(rt, playing, thread, &mut stack, begins);
    takes(rt, playing, thread, &mut stack, steps);
    stack.release_all(thread.frame());
}

/// The case, by a thread on a heap of its own.
fn on_a_heap<R: Abort + Wait>(rt: &R, alloc: Global, memories: Memories<&LocalHeap>, case: &Case) {
    let options = Options {
        cells: case.on.cells,
        local_limit: case.on.local_limit,
    };
    let (heap, mut root) = Heap::new(memories.ample, options).expect(rt, "no heap is had");
    let thread = root.register(case.on.frames.of(memories), &heap);
    let mut thread = thread.expect(rt, "a thread is refused");
    let mut playing = Playing {
        case: case.name,
        number: 0,
        count: 0,
        alloc,
        memories,
        objects: memories.scarce,
        taken: Vec::new(alloc),
    };
    takes_all(
        rt,
        &mut playing,
        memories.scarce,
        &mut thread,
        case.on.begins,
        case.steps,
    );
    thread.settle(rt);
    let ended = ends(rt, case.name, &heap, &mut root, thread, 0);
    playing.is_balanced(rt, ended);
    playing.is_empty(rt, take_apart(heap, root));
}

/// A list with None, a list that never had an entry, and None; above them two references to the first list, and no
/// memory or place.
const LISTS: World = World {
    begins: "make list; make none; list_push; make list; make none; len_of 0 = 1; len_of 1 = 0;
        retain 0; retain 0; starve; until refused: retain 0; drop; retain 0",
    ..PLACES
};

/// The same, with references to the second list below, and to None on top.
const NEW_LISTS: World = World {
    begins: "make list; make none; list_push; make list; make none; len_of 0 = 1; len_of 1 = 0;
        retain 1; retain 1; starve; until refused: retain 1; drop; retain 2",
    ..PLACES
};

/// A stack that never had a handle, of scarce memory.
const NEW_STACK: World = World {
    places: Memory::Scarce,
    ..OBJECTS
};

const CASES: &[Case] = &[
    Case {
        name: "load: a refused place changes nothing",
        on: LISTS,
        steps: "growths refused: retain 2",
    },
    Case {
        name: "duplicate: a refused place changes nothing",
        on: LISTS,
        steps: "growths refused: duplicate",
    },
    Case {
        name: "make: a refused integer changes nothing",
        on: LISTS,
        steps: "growths refused: make int 1000",
    },
    Case {
        name: "make: a refused text changes nothing",
        on: LISTS,
        steps: "growths refused: make text a text of more than sixteen bytes",
    },
    Case {
        name: "give by pop: a refused place changes nothing",
        on: LISTS,
        steps: "growths refused: list_pop",
    },
    Case {
        name: "give by get: a refused place changes nothing",
        on: LISTS,
        steps: "growths refused: list_get top at 0",
    },
    Case {
        name: "give by take: a refused place changes nothing",
        on: LISTS,
        steps: "growths refused: list_take top at 0",
    },
    Case {
        name: "take by push: a refused entry changes nothing",
        on: NEW_LISTS,
        steps: "growths refused: list_push",
    },
    Case {
        name: "push: a refusal hands the handle back, and with memory it passes",
        on: NEW_STACK,
        steps: "starve; push_none = OutOfMemory; handles = 0; feed; push_none; handles = 1",
    },
];

#[test]
fn a_refused_call_of_a_stack_changes_nothing(rt: HostRuntime) {
    for case in CASES {
        let (name, on) = (case.name, case.on);
        let heaps = Heaps::new(rt.alloc(), on.ample, on.scarce).expect(&rt, "memory");
        on_a_heap(&rt, rt.alloc(), heaps.memories(), case);
        let used = heaps.used();
        assert!(rt; used == (0, 0), "{name}: {used:?} bytes are in use");
    }
}
