//! A mailbox: two threads send integers, and a third receives them.

ghost use Rattle.std.specs.Prelude.{⊤};
ghost use Rattle.brc_count.specs.Frames.{IsUnlocked, Owns};
ghost use Rattle.brc_count.specs.Owned.{Keeps};

use crate::operations::{Integers, Operation};
use brc_count::biased::HasTable;
use brc_count::{Frame, Handle};
use brc_loops::{Awaited, Look, Source, wait_for};
use brc_things::{recv, send};
use brc_words::Fault;
use std::alloc::Allocator;
use std::sync::Wait;
use std::sync::atomic::{AtomicBool, AtomicU64, Ordering};
use std::thread;

/// How many threads send; one more receives.
pub const SENDERS: u32 = 2;

/// How many letters may be under way.
const UNDER_WAY: u64 = 1_024;

/// What the threads tell each other beside the heap.
#[derive(Drop)]
pub struct Post {
    /// How often threads were ready to begin.
    pub ready: AtomicU64,
    /// How many letters have been received, as of the last 64th.
    pub received: AtomicU64,
    /// Whether a thread gave up, so that the others needn't wait for it.
    pub is_given_up: AtomicBool,
}

impl Post {
    /// No thread is ready, and nothing has been received.
    pub fn new() -> Post {
        Post {
            ready: AtomicU64::new(0),
            received: AtomicU64::new(0),
            is_given_up: AtomicBool::new(false),
        }
    }

    /// Waits until so many threads are ready to begin, as this one is, for the first time or the second.
    pub fn begin_together(&self, rt: &impl Wait, threads: u32, time: u64) {
        self.ready.fetch_add(1, Ordering::Relaxed);
        for _ in rt.forever() {
            if self.ready.load(Ordering::Relaxed) >= u64::from(threads).saturating_mul(time) {
                return;
            }
            thread::yield_now();
        }
        unreachable!()
    }

    /// So many letters have been received; each 64th is told.
    #[inline(always)]
    pub fn tell(&self, received: u64) {
        if received % 64 == 0 {
            self.received.store(received, Ordering::Relaxed);
        }
    }

    /// This thread gives up.
    pub fn give_up(&self) {
        self.is_given_up.store(true, Ordering::Relaxed);
    }
}

/// So many letters have been received; meanwhile the thread deals with its own. They won't be where another thread gave
/// up.
#[derive(Drop)]
struct Received<'p> {
    post: &'p Post,
    count: u64,
}

impl<'p, H: HasTable<A>, A: Allocator> Awaited<H, A> for Received<'p> {
    ghost ready = { λ _ _. ⊤ };

    ghost stays = { λ _ _ _ _ ready. ready };

    #[inline(always)]
    fn look(&self, frame: &mut Frame<H, A>) -> Look {
        if self.count <= self.post.received.load(Ordering::Relaxed) {
            return Look::Done;
        }
        if self.post.is_given_up.load(Ordering::Relaxed) {
            return Look::GivenUp;
        }
        frame.poll();
        frame.work(64);
        Look::NotYet
    }
}

/// Not too many letters are under way, after this thread has sent so many. None will be where another thread gave up.
#[inline(always)]
pub fn wait_for_room<R: Wait, H: HasTable<A>, A: Allocator>(
    rt: &R,
    frame: &mut Frame<H, A>,
    post: &Post,
    before: u64,
) -> Option<()>
    requires unlocked { IsUnlocked frame.old }
    ensures keeps { Keeps frame.old frame.new }
    ensures unlocked { IsUnlocked frame.new }
{
    let sent = before.saturating_mul(SENDERS as u64);
    let received = Received {
        post,
        count: sent.saturating_sub(UNDER_WAY),
    };
    wait_for(rt, &received, frame)
}

/// A new integer is sent; it fails where it can't be had or is refused, or another thread gave up.
#[derive(Drop)]
pub struct SendOne<'r, R, A> {
    pub rt: &'r R,
    pub alloc: A,
    pub post: &'r Post,
}

impl<'r, R: Wait, H: HasTable<A>, A: Allocator + Copy> Operation<H, A> for SendOne<'r, R, A> {
    #[inline(always)]
    fn run_on(&self, frame: &mut Frame<H, A>, mailbox: &Handle<A>, before: u64) -> Option<()> {
        wait_for_room(self.rt, frame, self.post, before)?;
        let letter = Integers { alloc: self.alloc }.next(frame, before)?;
        if let Err(handed) = send(self.rt, frame, mailbox, letter) {
            frame.release(handed.value);
            return None;
        }
        frame.poll();
        frame.work(8);
        Some(())
    }
}

/// A letter is there, is received and released. None will be where a call is refused, or another thread gave up.
#[derive(Drop)]
struct Letter<'h, R, A: Allocator> {
    rt: &'h R,
    mailbox: &'h Handle<A>,
    post: &'h Post,
}

impl<'h, R: Wait, H: HasTable<A>, A: Allocator> Awaited<H, A> for Letter<'h, R, A> {
    ghost ready = { λ letter frame. Owns frame letter.mailbox.now };

    ghost stays = { λ letter old new keeps owned. keeps.owns letter.mailbox.now owned };

    #[inline(always)]
    fn look(&self, frame: &mut Frame<H, A>) -> Look {
        match recv(self.rt, frame, self.mailbox) {
            Ok(letter) => {
                frame.release(letter);
                frame.work(8);
                Look::Done
            }
            Err(Fault::NoSuchPlace) => {
                if self.post.is_given_up.load(Ordering::Relaxed) {
                    return Look::GivenUp;
                }
                Look::NotYet
            }
            Err(_) => Look::GivenUp,
        }
    }
}

/// A letter is received, once one is there.
#[derive(Drop)]
pub struct ReceiveOne<'r, R> {
    pub rt: &'r R,
    pub post: &'r Post,
}

impl<'r, R: Wait, H: HasTable<A>, A: Allocator> Operation<H, A> for ReceiveOne<'r, R> {
    #[inline(always)]
    fn run_on(&self, frame: &mut Frame<H, A>, mailbox: &Handle<A>, before: u64) -> Option<()> {
        self.post.tell(before);
        let letter = Letter {
            rt: self.rt,
            mailbox,
            post: self.post,
        };
        wait_for(self.rt, &letter, frame)
    }
}
