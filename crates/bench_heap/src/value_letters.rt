//! A mailbox by value: two threads send scalars, and a third receives them.

ghost use Rattle.std.specs.Prelude.{◌≢◌};
ghost use Rattle.brc_count.specs.Frames.{Owns};

use crate::letters::{Post, wait_for_room};
use crate::operations::Operation;
use crate::values::{let_go, noted};
use brc_count::biased::HasTable;
use brc_count::{Frame, Handle};
use brc_loops::{Awaited, Look, Task, repeat, wait_for};
use brc_things::{Value, none, recv_value, send_value};
use brc_words::Fault;
use std::alloc::Allocator;
use std::sync::Wait;
use std::sync::atomic::Ordering;

/// A scalar is sent; it fails where it is refused, or another thread gave up.
#[derive(Drop)]
struct SendOne<'h, R, A: Allocator> {
    rt: &'h R,
    post: &'h Post,
    mailbox: &'h Handle<A>,
    none: &'h Handle<A>,
}

impl<'h, R: Wait, H: HasTable<A>, A: Allocator> Task<H, A> for SendOne<'h, R, A> {
    ghost ready = { λ it frame. Owns frame it.mailbox.now × Owns frame it.none.now
        × (it.mailbox.now.place ≢ it.none.now.place) };

    ghost stays = { λ it old new keeps owned.
        (keeps.owns it.mailbox.now owned.0, keeps.owns it.none.now owned.1, owned.2) };

    #[inline(always)]
    fn run(&self, frame: &mut Frame<H, A>, before: u64) -> Option<()> {
        wait_for_room(self.rt, frame, self.post, before)?;
        if frame.cell(self.none) != 0 {
            return None;
        }
        let letter = Value::Scalar(noted(before));
        if let Err(handed) = send_value(self.rt, frame, self.none, self.mailbox, letter) {
            let_go(frame, handed.value);
            return None;
        }
        frame.poll();
        frame.work(8);
        Some(())
    }
}

/// So many scalars are sent.
#[derive(Drop)]
pub struct SendValues<'r, R> {
    pub rt: &'r R,
    pub post: &'r Post,
    pub n: u64,
}

impl<'r, R: Wait, H: HasTable<A>, A: Allocator> Operation<H, A> for SendValues<'r, R> {
    fn run_on(&self, frame: &mut Frame<H, A>, mailbox: &Handle<A>, _before: u64) -> Option<()> {
        let none = none(frame).ok()?;
        let task = SendOne {
            rt: self.rt,
            post: self.post,
            mailbox,
            none: &none,
        };
        let sent = repeat(&task, frame, self.n);
        frame.release(none);
        sent
    }
}

/// A letter is there, is received and let go of. None will be where a call is refused, or another thread gave up.
#[derive(Drop)]
struct Letter<'h, R, A: Allocator> {
    rt: &'h R,
    mailbox: &'h Handle<A>,
    post: &'h Post,
}

impl<'h, R: Wait, H: HasTable<A>, A: Allocator> Awaited<H, A> for Letter<'h, R, A> {
    ghost ready = { λ letter frame. Owns frame letter.mailbox.now };

    ghost stays = { λ letter old new keeps owned. keeps.owns letter.mailbox.now owned };

    #[inline(always)]
    fn look(&self, frame: &mut Frame<H, A>) -> Look {
        match recv_value(self.rt, frame, self.mailbox) {
            Ok(letter) => {
                let_go(frame, letter);
                frame.work(8);
                Look::Done
            }
            Err(Fault::NoSuchPlace) => {
                if self.post.is_given_up.load(Ordering::Relaxed) {
                    return Look::GivenUp;
                }
                Look::NotYet
            }
            Err(_) => Look::GivenUp,
        }
    }
}

/// A letter is received by value, once one is there.
#[derive(Drop)]
pub struct ReceiveValue<'r, R> {
    pub rt: &'r R,
    pub post: &'r Post,
}

impl<'r, R: Wait, H: HasTable<A>, A: Allocator> Operation<H, A> for ReceiveValue<'r, R> {
    #[inline(always)]
    fn run_on(&self, frame: &mut Frame<H, A>, mailbox: &Handle<A>, before: u64) -> Option<()> {
        self.post.tell(before);
        let letter = Letter {
            rt: self.rt,
            mailbox,
            post: self.post,
        };
        wait_for(self.rt, &letter, frame)
    }
}
