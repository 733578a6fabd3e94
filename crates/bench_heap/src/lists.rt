//! A list, pushed to and popped from while it is timed.

ghost use Rattle.std.specs.Prelude.{◌≡◌, ◌≢◌};
ghost use Rattle.brc_count.specs.Frames.{Owns};

use crate::operations::Operation;
use brc_count::biased::HasTable;
use brc_count::{Frame, Handle};
use brc_loops::{Passing, pass_on};
use brc_things::{list_pop, list_push, new_int};
use std::alloc::Allocator;
use std::sync::Wait;

/// A value, which is pushed to the list at each turn, and the list's last entry popped.
struct PushingAndPopping<'h, R, A: Allocator> {
    rt: &'h R,
    list: &'h Handle<A>,
    value: Handle<A>,
}

impl<'h, R: Wait, H: HasTable<A>, A: Allocator> Passing<H, A> for PushingAndPopping<'h, R, A> {
    ghost held = { λ it. it.value };

    ghost ready = { λ it frame. Owns frame it.list.now × (it.value.place ≢ it.list.now.place) };

    #[inline(always)]
    fn pass(self, frame: &mut Frame<H, A>, _before: u64) -> Option<Self> {
        let PushingAndPopping { rt, list, value } = self;
        if let Err(handed) = list_push(rt, frame, list, value) {
            frame.release(handed.value);
            return None;
        }
        let value = list_pop(rt, frame, list).ok()?;
        Some(PushingAndPopping { rt, list, value })
    }
}

/// So many pushes, each with a pop: first of an integer of the thread's own, then of what came out before.
#[derive(Drop)]
pub struct PushesAndPops<'r, R, A> {
    pub rt: &'r R,
    pub alloc: A,
    pub n: u64,
}

impl<'r, R: Wait, H: HasTable<A>, A: Allocator + Copy> Operation<H, A> for PushesAndPops<'r, R, A> {
    #[inline(never)]
    fn run_on(&self, frame: &mut Frame<H, A>, list: &Handle<A>, _before: u64) -> Option<()> {
        let rt = self.rt;
        let value = new_int(self.alloc, frame, 1_000).ok()?;
        let turning = PushingAndPopping { rt, list, value };
        let PushingAndPopping {
            rt: _rt,
            list: _list,
            value,
        } = pass_on(turning, frame, self.n)?;
        frame.release(value);
        Some(())
    }
}
