//! Why the one cell that a step means isn't as the step needs it.

ghost use Rattle.std.specs.Prelude.{◌≡◌};
ghost use Rattle.law.specs.world.Steps.{is_free as holds_nothing, is_nobody as has_no_owner, is_active as runs};
ghost use Rattle.law.specs.world.Steps.{is_default as nobody_asked, is_queued as is_asked_for, is_merged as was_merged};
ghost use Rattle.law.specs.world.Steps.{is_positive as is_above_zero, is_mine as counts_here, is_keep as keeps};
ghost use Rattle.law.specs.world.Steps.{counts_up_locally as counts_up};
ghost use Rattle.brc_trace.specs.CellReasons.{claim_reason as claim_of, owner_reason as owner_of};
ghost use Rattle.brc_trace.specs.CellReasons.{up_reason as up_of, down_reason as down_of, untie_reason as untie_of};
ghost use Rattle.brc_trace.specs.CellReasons.{shup_reason as shup_of, others_reason as others_of};
ghost use Rattle.brc_trace.specs.CellReasons.{shdown_reason as shdown_of, ends_reason as ends_of, last_reason as last_of};
ghost use Rattle.brc_trace.specs.CellReasons.{unlock_reason as unlock_of, cell_reason as cell_reason_of};
ghost use Rattle.brc_trace.specs.CellReasons.{cell_reason_at as at_cell};

use crate::lowest::is_owned_by;
use brc_core::{Cell, Change, Hand, LastDropped, Phase, Step, World};
use brc_words::{FIRST_MORTAL, Owner, State, is_container_kind};
use law::world::{Row, Stage, is_immortal};
use std::alloc::Allocator;

/// What of its cell isn't as a step needs it.
#[derive(Clone, Copy, Debug, PartialEq, Eq)]
pub enum CellReason {
    /// It is immortal.
    Immortal,
    /// An object is in it or is being made in it.
    NotFree,
    /// The thread doesn't own it.
    NotItsOwn,
    /// The thread owns it and isn't active.
    OwnerInactive,
    /// The thread owns it and is active.
    ItsOwn,
    /// Its local count has reached the limit.
    AtLimit,
    /// The thread owns it, is active, and its local count is below the limit.
    BelowLimit,
    /// Nobody has asked for a merge, or the merge is made.
    NotQueued,
    /// It isn't merged.
    NotMerged,
    /// It is queued or merged.
    NotDefault,
    /// It is neither queued nor merged.
    InDefault,
    /// Its shared count isn't above 0.
    NotAboveZero,
    /// It has no owner.
    NoOwner,
    /// It still has an owner.
    HasOwner,
    /// No reference to it is in the hand.
    HandFree,
    /// This thread has it locked.
    LockedBy(u32),
    /// It is no container.
    NoContainer,
}

// ---- an owner, a state, a count

/// Whether an object is there that no thread owns.
fn is_nobody(owner: Owner) -> bool
    ensures { result ≡ has_no_owner owner }
{
    match owner {
        Owner::Nobody => true,
        Owner::Thread(_) => false,
        Owner::Claimed(_) => false,
        Owner::Free => false,
    }
}

/// Whether no object is there and none is being made.
fn is_free(owner: Owner) -> bool
    ensures { result ≡ holds_nothing owner }
{
    match owner {
        Owner::Nobody => false,
        Owner::Thread(_) => false,
        Owner::Claimed(_) => false,
        Owner::Free => true,
    }
}

/// Whether nobody has asked for the object's counts.
fn is_default(state: State) -> bool
    ensures { result ≡ nobody_asked state }
{
    match state {
        State::Default => true,
        State::Queued => false,
        State::Merged => false,
    }
}

/// Whether a merge was asked for and not made.
fn is_queued(state: State) -> bool
    ensures { result ≡ is_asked_for state }
{
    match state {
        State::Default => false,
        State::Queued => true,
        State::Merged => false,
    }
}

/// Whether the shared word alone counts the object.
fn is_merged(state: State) -> bool
    ensures { result ≡ was_merged state }
{
    match state {
        State::Default => false,
        State::Queued => false,
        State::Merged => true,
    }
}

/// Whether the shared count is above 0.
fn is_positive(count: i64) -> bool
    ensures { result ≡ is_above_zero count }
{
    0 < count
}

/// Whether the thread runs.
fn is_active(stage: Stage) -> bool
    ensures { result ≡ runs stage }
{
    match stage {
        Stage::Active => true,
        Stage::Closing(_) => false,
        Stage::Left => false,
        Stage::Opening(_) => false,
    }
}

/// Whether the thread counts on the cell's local word.
fn is_mine(thread: u32, stage: Stage, found: Cell) -> bool
    ensures { result ≡ counts_here thread stage found }
{
    is_owned_by(thread, found.owner) && is_active(stage)
}

/// Whether the thread may count up on the cell's local word.
fn counts_up_locally(limit: u32, thread: u32, stage: Stage, found: Cell) -> bool
    ensures { result ≡ counts_up limit thread stage found }
{
    is_mine(thread, stage, found) && found.local < limit
}

/// Whether an unlock leaves the entries as they are.
fn is_keep(change: Change) -> bool
    ensures { result ≡ keeps change }
{
    match change {
        Change::Keep => true,
        Change::Put(_) => false,
        Change::Take { .. } => false,
        Change::Swap { .. } => false,
    }
}

// ---- kinds of steps

fn claim_reason(cell: u32, found: Cell) -> Option<CellReason>
    ensures { result ≡ claim_of cell found }
{
    if cell < FIRST_MORTAL {
        Some(CellReason::Immortal)
    } else if !is_free(found.owner) {
        Some(CellReason::NotFree)
    } else {
        None
    }
}

/// Why the thread doesn't count on the local word; else this.
fn owner_reason(
    thread: u32,
    stage: Stage,
    found: Cell,
    next: Option<CellReason>,
) -> Option<CellReason>
    ensures { result ≡ owner_of thread stage found next }
{
    if !is_owned_by(thread, found.owner) {
        Some(CellReason::NotItsOwn)
    } else if !is_active(stage) {
        Some(CellReason::OwnerInactive)
    } else {
        next
    }
}

fn up_reason(limit: u32, thread: u32, stage: Stage, cell: u32, found: Cell) -> Option<CellReason>
    ensures { result ≡ up_of limit thread stage cell found }
{
    if is_immortal(cell) {
        return None;
    }
    let at_limit = if found.local < limit {
        None
    } else {
        Some(CellReason::AtLimit)
    };
    owner_reason(thread, stage, found, at_limit)
}

fn down_reason(thread: u32, stage: Stage, cell: u32, found: Cell) -> Option<CellReason>
    ensures { result ≡ down_of thread stage cell found }
{
    if is_immortal(cell) {
        None
    } else {
        owner_reason(thread, stage, found, None)
    }
}

/// Why the owner word can't become nobody's: the owner's own, or in place of an owner that left.
fn untie_reason(thread: u32, hand: Hand, found: Cell) -> Option<CellReason>
    ensures { result ≡ untie_of thread hand found }
{
    match hand {
        Hand::Free => {
            if !is_owned_by(thread, found.owner) {
                Some(CellReason::NotItsOwn)
            } else if !is_queued(found.state) {
                Some(CellReason::NotQueued)
            } else {
                None
            }
        }
        Hand::Busy(Phase::Shut, _) => {
            if is_nobody(found.owner) {
                Some(CellReason::NoOwner)
            } else {
                None
            }
        }
        Hand::Busy(_, _) => None,
    }
}

fn shup_reason(limit: u32, thread: u32, stage: Stage, cell: u32, found: Cell) -> Option<CellReason>
    ensures { result ≡ shup_of limit thread stage cell found }
{
    if is_immortal(cell) {
        Some(CellReason::Immortal)
    } else if counts_up_locally(limit, thread, stage, found) {
        Some(CellReason::BelowLimit)
    } else {
        None
    }
}

/// Why the thread doesn't count on the shared word; else this.
fn others_reason(
    thread: u32,
    stage: Stage,
    cell: u32,
    found: Cell,
    next: Option<CellReason>,
) -> Option<CellReason>
    ensures { result ≡ others_of thread stage cell found next }
{
    if is_immortal(cell) {
        Some(CellReason::Immortal)
    } else if is_mine(thread, stage, found) {
        Some(CellReason::ItsOwn)
    } else {
        next
    }
}

fn shdown_reason(thread: u32, stage: Stage, cell: u32, found: Cell) -> Option<CellReason>
    ensures { result ≡ shdown_of thread stage cell found }
{
    let next = if !is_default(found.state) {
        Some(CellReason::NotDefault)
    } else if !is_positive(found.count) {
        Some(CellReason::NotAboveZero)
    } else {
        None
    };
    others_reason(thread, stage, cell, found, next)
}

/// Why the reference in the hand can't be counted down.
fn ends_reason(hand: Hand, found: Cell) -> Option<CellReason>
    ensures { result ≡ ends_of hand found }
{
    match hand {
        Hand::Free => Some(CellReason::HandFree),
        Hand::Busy(Phase::Held, _) => None,
        Hand::Busy(_, _) => {
            if is_nobody(found.owner) {
                None
            } else {
                Some(CellReason::HasOwner)
            }
        }
    }
}

/// Why the shared word alone can't count this reference down.
fn last_reason(
    thread: u32,
    row: Row,
    last: LastDropped,
    cell: u32,
    found: Cell,
) -> Option<CellReason>
    ensures { result ≡ last_of thread row last cell found }
{
    match last {
        LastDropped::Dropped(_) => others_reason(thread, row.stage, cell, found, None),
        LastDropped::Popped(_) => {
            if is_merged(found.state) {
                None
            } else {
                Some(CellReason::NotMerged)
            }
        }
        LastDropped::Hand => ends_reason(row.hand, found),
    }
}

fn unlock_reason(change: Change, found: Cell) -> Option<CellReason>
    ensures { result ≡ unlock_of change found }
{
    if is_keep(change) || is_container_kind(found.kind) {
        None
    } else {
        Some(CellReason::NoContainer)
    }
}

// ---- any step

/// Why the one cell that the step means isn't as it must be; none where it is.
fn cell_reason(
    limit: u32,
    thread: u32,
    row: Row,
    step: Step,
    cell: u32,
    found: Cell,
) -> Option<CellReason>
    ensures { result ≡ cell_reason_of limit thread row step cell found }
{
    match step {
        Step::Claim(_) => claim_reason(cell, found),
        Step::LocalUp { .. } => up_reason(limit, thread, row.stage, cell, found),
        Step::LocalDown(_) => down_reason(thread, row.stage, cell, found),
        Step::Untie(_) => untie_reason(thread, row.hand, found),
        Step::SharedUp { .. } => shup_reason(limit, thread, row.stage, cell, found),
        Step::SharedDown(_) => shdown_reason(thread, row.stage, cell, found),
        Step::Ask(_) => others_reason(thread, row.stage, cell, found, None),
        Step::LastDown(last) => {
            if is_default(found.state) {
                Some(CellReason::InDefault)
            } else {
                last_reason(thread, row, last, cell, found)
            }
        }
        Step::Lock(_) => {
            if found.mutex == 0 {
                None
            } else {
                Some(CellReason::LockedBy(found.mutex))
            }
        }
        Step::Unlock(change) => unlock_reason(change, found),
        Step::Offer(_) => {
            if is_owned_by(thread, found.owner) {
                None
            } else {
                Some(CellReason::NotItsOwn)
            }
        }
        _ => None,
    }
}

/// The same of the cell that the step means in the world, if it means one.
pub(crate) fn cell_reason_at<A: Allocator + Copy>(
    world: &World<A>,
    thread: u32,
    step: Step,
    means: Option<u32>,
) -> Option<CellReason>
    ensures { result ≡ at_cell world.now thread step means }
{
    match means {
        Some(cell) => cell_reason(
            world.local_limit(),
            thread,
            world.row(thread),
            step,
            cell,
            world.cell(cell),
        ),
        None => None,
    }
}
