//! The events: each is one operation on one word of the heap's table, with what it hands over.

use brc_words::Kind;

/// Where a thread finds the cell that it counts up.
#[derive(Clone, Copy, Debug, PartialEq, Eq)]
pub enum Source {
    /// A place of its frame.
    Frame(u32),
    /// An entry of the object that it has locked.
    Entry(u32),
    /// An immortal cell.
    Immortal(u32),
}

/// The reference that a release gives up.
#[derive(Clone, Copy, Debug, PartialEq, Eq)]
pub enum Dropped {
    /// A place of the thread's frame.
    Frame(u32),
    /// The last entry of this cell, which is on the thread's worklist.
    Work(u32),
}

/// The reference that goes when the shared word alone counts down: one that a release gives up, or one that went
/// through a merge queue.
#[derive(Clone, Copy, Debug, PartialEq, Eq)]
pub enum LastDropped {
    /// A frame place, or the last entry of a dead block.
    Dropped(Dropped),
    /// The popped bit of this cell.
    Popped(u32),
    /// The one in the thread's hand.
    Hand,
}

/// What an unlock changes in the object that was locked.
#[derive(Clone, Copy, Debug, PartialEq, Eq)]
pub enum Change {
    /// Nothing.
    Keep,
    /// The cell of this place of the frame moves to the end of the entries.
    Put(u32),
    /// An entry moves to a vacant place of the frame, and later entries close up.
    Take { index: u32, place: u32 },
    /// An entry and the cell of a place of the frame are exchanged.
    Swap { index: u32, place: u32 },
}

/// One atomic step, without its thread.
#[derive(Clone, Copy, Debug, PartialEq, Eq)]
pub enum Step {
    // Birth.
    /// A free cell becomes the thread's, for an object to be made in.
    Claim(u32),
    /// The local word of the new object is set to 1.
    InitLocal(u32),
    /// Its shared word is set to 0, default.
    InitShared(u32),
    /// The object is there, and its first reference is in a place of the frame.
    Birth { cell: u32, kind: Kind, place: u32 },

    // The owner's counting, and the quick path to the end.
    /// The owner counts up on the local word (PEP 703); of an immortal nothing changes.
    LocalUp { source: Source, place: u32 },
    /// The owner counts down on the local word (PEP 703); of an immortal nothing changes.
    LocalDown(Dropped),
    /// After its local count reached 0 the owner looks at the shared word: all 0 is the quick path to the end.
    SeeZero(u32),
    /// A dead block without entries is given back.
    Free(u32),

    // Merging, and everyone else's counting.
    /// The owner word becomes nobody's, before the counts are merged.
    Untie(u32),
    /// At local count 0 the state becomes merged.
    MergeZero(u32),
    /// Another thread counts up on the shared word; the owner does so at its local limit.
    SharedUp { source: Source, place: u32 },
    /// Another thread counts down on the shared word, while nobody has asked and the count is above 0.
    SharedDown(Dropped),
    /// Another thread asks for a merge: the state becomes queued, and its reference goes into its hand.
    Ask(Dropped),
    /// Once asked for or merged the shared word counts a reference down; at merged and 0 the block is taken.
    LastDown(LastDropped),

    // The merge queue.
    /// The reference in the hand goes into the merge queue of the thread that bore the object.
    Enqueue(u32),
    /// A thread takes the bits of one word of its merge queue.
    Drain(u32),
    /// The local count is added to the shared word, and the state becomes merged.
    MergeAdd(u32),
    /// A leaving thread closes one word of its merge queue, and takes its bits.
    Close(u32),
    /// A thread is told which words of its merge queue to drain.
    Nudge { thread: u32, word: u32 },
    /// A thread takes what it was told.
    Wake,

    // Handing over.
    /// The owner turns the state of its object to queued, to hand it over before it leaves.
    Offer(u32),
    /// A thread whose number was used before opens one word of its merge queue again.
    Reopen(u32),

    // Locks.
    /// The object in a place of the frame is locked.
    Lock(u32),
    /// The locked object is changed and unlocked.
    Unlock(Change),

    // The root's steps.
    /// The root registers the thread with this number.
    Register(u32),
    /// The root gathers the thread with this number, which has left and holds nothing.
    Gather(u32),
}

/// A step and the thread that makes it. The root is thread 0.
#[derive(Clone, Copy, Debug, PartialEq, Eq)]
pub struct Event {
    pub thread: u32,
    pub step: Step,
}
