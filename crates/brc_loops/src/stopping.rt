//! Waits for a letter, or for a value beside a key, that end once they are stopped.
//!
//! Each turn asks first whether to stop, and tries then. So whoever puts something there before it says so is heard: the
//! last try came after. Between two tries the thread polls and works, since what others dropped meanwhile may be its own
//! to free.

ghost use Rattle.std.specs.Prelude.{◌≢◌, IsTrue};
ghost use Rattle.brc_words.specs.declared.fault.Fault.TheVariants as faults;
ghost use Rattle.brc_count.specs.block.Lent_Keys.{key_lent};
ghost use Rattle.brc_count.specs.Frames.{FrameSeen, HandleSeen, IsUnlocked, Owns};
ghost use Rattle.brc_count.specs.Owned.{Keeps, Gains};
ghost use Rattle.brc_things.specs.List_Calls.{MailboxReceive};
ghost use Rattle.brc_things.specs.Dict_Calls.{DictFind};
ghost use Rattle.brc_loops.specs.Stopping.{IfGot, UnlessGot, IfStopped, IfRefused, LastTry};

use brc_count::biased::HasTable;
use brc_count::block::KeyRef;
use brc_count::{Frame, Handle};
use brc_things::{try_dict_find_by, try_recv};
use brc_words::Fault;
use std::alloc::Allocator;
use std::sync::Wait;
use std::thread;

/// What ends a wait in which nothing comes.
pub trait Stop {
    // that it may say so
    ghost may_stop: { Self → Type 0 };

    /// Whether the wait is to end if nothing is there. A wait asks before each of its tries.
    fn asked(&self) -> bool
        ensures { IsTrue result → may_stop self.now };
}

/// Nothing ends the wait.
#[derive(Clone, Copy, Debug, PartialEq, Eq)]
pub struct Never;

impl Stop for Never {
    ghost may_stop = { λ _. ⊥ };

    fn asked(&self) -> bool {
        false
    }
}

/// What a wait came to.
pub enum Waited<A: Allocator> {
    /// It was there: a handle to it.
    Got(Handle<A>),
    /// The wait was stopped, and the last try after that had found nothing.
    Stopped,
    /// The call was refused, and another try would be.
    Refused(Fault),
}

/// Between two tries: what others asked of this thread is dealt with, dead blocks are taken apart, at most so many
/// turns, and other threads run.
fn pauses<H: HasTable<A>, A: Allocator>(frame: &mut Frame<H, A>, budget: usize)
    requires unlocked { IsUnlocked frame.old }
    ensures keeps { Keeps frame.old frame.new }
    ensures unlocked { IsUnlocked frame.new }
{
    let _told = frame.poll();
    let _left = frame.work(budget);
    thread::yield_now();
}

/// The first letter of the mailbox, once one is there. Stopped if the stop had said so and the try after that found no
/// letter. Refused by WrongKind, FrameFull or OutOfMemory, in this order. While another thread has the mailbox locked
/// it tries again. Between two tries it makes at most so many turns of work.
pub fn recv_until<S: Stop, R: Wait, H: HasTable<A>, A: Allocator>(
    rt: &R,
    frame: &mut Frame<H, A>,
    mailbox: &Handle<A>,
    stop: &S,
    budget: usize,
) -> Waited<A>
    requires owned { Owns frame.old mailbox.now }
    requires unlocked { IsUnlocked frame.old }

    ensures received { LastTry (λ from to. MailboxReceive from to mailbox.now.place) faults.NoSuchPlace frame.old
        frame.new result }
    ensures gains { IfGot result (Gains frame.old frame.new) }
    ensures stopped { IfStopped result (S.may_stop stop.now) }
    ensures keeps { UnlessGot result (Keeps frame.old frame.new) }
    ensures unlocked { IsUnlocked frame.new }

    // what is tried again is no refusal
    ensures waited { IfRefused result (λ fault. fault ≢ faults.Busy) }
    ensures missing { IfRefused result (λ fault. fault ≢ faults.NoSuchPlace) }
{
    for _ in rt.forever() {
        let asked = stop.asked();
        match try_recv(frame, mailbox) {
            Ok(letter) => return Waited::Got(letter),
            Err(Fault::Busy) => pauses(frame, budget),
            Err(Fault::NoSuchPlace) => {
                if asked {
                    return Waited::Stopped;
                }
                pauses(frame, budget);
            }
            Err(fault) => return Waited::Refused(fault),
        }
    }
    unreachable!()
}

/// The value beside the key, which is lent, in a dictionary, in the globals for one, once the key is there; the pair
/// stays. Stopped if the stop had said so and the try after that found no such key. Refused by WrongKind, FrameFull or
/// OutOfMemory, in this order. While another thread has the dictionary locked it tries again. Between two tries it makes
/// at most so many turns of work.
pub fn fetch_until<S: Stop, R: Wait, H: HasTable<A>, A: Allocator>(
    rt: &R,
    frame: &mut Frame<H, A>,
    dict: &Handle<A>,
    key: KeyRef<'_>,
    stop: &S,
    budget: usize,
) -> Waited<A>
    requires owned { Owns frame.old dict.now }
    requires unlocked { IsUnlocked frame.old }

    ensures found { LastTry (λ from to. DictFind from to dict.now.place (key_lent key.entry)) faults.NoSuchKey
        frame.old frame.new result }
    ensures gains { IfGot result (Gains frame.old frame.new) }
    ensures stopped { IfStopped result (S.may_stop stop.now) }
    ensures keeps { UnlessGot result (Keeps frame.old frame.new) }
    ensures unlocked { IsUnlocked frame.new }

    // what is tried again is no refusal
    ensures waited { IfRefused result (λ fault. fault ≢ faults.Busy) }
    ensures missing { IfRefused result (λ fault. fault ≢ faults.NoSuchKey) }
{
    for _ in rt.forever() {
        let asked = stop.asked();
        match try_dict_find_by(frame, dict, key) {
            Ok(value) => return Waited::Got(value),
            Err(Fault::Busy) => pauses(frame, budget),
            Err(Fault::NoSuchKey) => {
                if asked {
                    return Waited::Stopped;
                }
                pauses(frame, budget);
            }
            Err(fault) => return Waited::Refused(fault),
        }
    }
    unreachable!()
}
