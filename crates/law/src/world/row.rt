//! What one thread's own row says: how far its life is, what is in its hand, and its ledger.

ghost use Rattle.std.specs.Prelude.{◌≡◌};
ghost use Rattle.law.specs.world.Phases.{role_of};

/// How far a thread's life is. That it is gathered is known by the root.
#[derive(Clone, Copy, Debug, PartialEq, Eq)]
pub enum Stage {
    /// It runs.
    Active,
    /// It has closed this many of its queue words, and not yet all.
    Closing(u32),
    /// All its queue words are closed.
    Left,
    /// Its number was used before. It has opened this many of its queue words again, and not yet all.
    Opening(u32),
}

/// What a thread carries between two steps of one call.
#[derive(Clone, Copy, Debug, PartialEq, Eq)]
pub enum Hand {
    /// Nothing.
    Free,
    /// This cell, in this phase.
    Busy(Phase, u32),
}

/// How far the work on the cell in hand is.
#[derive(Clone, Copy, Debug, PartialEq, Eq)]
pub enum Phase {
    // A birth.
    Claimed,
    Counted,
    Ready,

    // A merge at zero.
    Zero,
    Over,
    Untied,

    // A reference of the thread's own, on its way to the merge queue or back from a closed one.
    Asked,
    Shut,
    Taking,
    Held,

    // A popped entry, which counts itself.
    Popping,

    // An object that its owner hands over before it leaves.
    Offered,
    Yielding,
}

/// What a thread does with the cell in its hand.
#[derive(Clone, Copy, Debug, PartialEq, Eq)]
pub enum Role {
    /// It bears the object, or ends or merges its own at local count 0. Only an active thread does.
    Owns,
    /// It has a reference on its way to a merge queue, or back from a closed one.
    Carries,
    /// It has such a reference, and merges the object in place of an owner that has left.
    Adopts,
    /// It merges its own object for a popped entry.
    Pops,
    /// It is about to hand its own object over. Only an active thread does.
    Offers,
}

impl Phase {
    /// What a thread does with a cell that is in its hand in this phase.
    pub fn role(self) -> Role
        ensures { result ≡ role_of self }
    {
        match self {
            Phase::Claimed | Phase::Counted | Phase::Ready => Role::Owns,
            Phase::Zero | Phase::Over | Phase::Untied | Phase::Yielding => Role::Owns,
            Phase::Asked | Phase::Shut | Phase::Held => Role::Carries,
            Phase::Taking => Role::Adopts,
            Phase::Popping => Role::Pops,
            Phase::Offered => Role::Offers,
        }
    }
}

/// A thread's row.
#[derive(Clone, Copy, Debug, PartialEq, Eq)]
// The widest fields first, since fields lie in the order of the source.
pub struct Row {
    /// How many objects it has made.
    pub allocs: u64,
    /// How many blocks it has given back.
    pub frees: u64,
    pub hand: Hand,
    pub stage: Stage,
    /// The place of its frame whose object it has locked.
    pub locked: Option<u32>,
}
