//! When a step is enabled: what the one cell that it means must be.

ghost use Rattle.std.specs.Prelude.{◌≡◌};
ghost use Rattle.law.specs.world.Steps.{is_owned_by, is_nobody, is_free, is_default, is_queued, is_merged, is_zero};
ghost use Rattle.law.specs.world.Steps.{is_positive, is_mine, counts_up_locally, is_others, untied_ok, ends_ok};
ghost use Rattle.law.specs.world.Steps.{last_ok, is_keep, cell_ok};

use crate::conditions::is_active;
use brc_words::{FIRST_MORTAL, Owner, State, is_container_kind};
use law::world::{Cell, Change, Hand, LastDropped, Phase, Row, Stage, Step, is_immortal};

/// Whether the thread owns what has this owner.
#[inline(always)]
pub(crate) fn is_owned_by(thread: u32, owner: Owner) -> bool
    ensures { result ≡ is_owned_by thread owner }
{
    match owner {
        Owner::Nobody => false,
        Owner::Thread(there) => there == thread,
        Owner::Claimed(_) => false,
        Owner::Free => false,
    }
}

/// Whether an object is there that no thread owns.
fn is_nobody(owner: Owner) -> bool
    ensures { result ≡ is_nobody owner }
{
    match owner {
        Owner::Nobody => true,
        Owner::Thread(_) => false,
        Owner::Claimed(_) => false,
        Owner::Free => false,
    }
}

/// Whether no object is there and none is being made.
fn is_free(owner: Owner) -> bool
    ensures { result ≡ is_free owner }
{
    match owner {
        Owner::Nobody => false,
        Owner::Thread(_) => false,
        Owner::Claimed(_) => false,
        Owner::Free => true,
    }
}

/// Whether nobody has asked for the object's counts.
pub(crate) fn is_default(state: State) -> bool
    ensures { result ≡ is_default state }
{
    match state {
        State::Default => true,
        State::Queued => false,
        State::Merged => false,
    }
}

/// Whether a merge was asked for and not made.
fn is_queued(state: State) -> bool
    ensures { result ≡ is_queued state }
{
    match state {
        State::Default => false,
        State::Queued => true,
        State::Merged => false,
    }
}

/// Whether the shared word alone counts the object.
pub(crate) fn is_merged(state: State) -> bool
    ensures { result ≡ is_merged state }
{
    match state {
        State::Default => false,
        State::Queued => false,
        State::Merged => true,
    }
}

/// Whether the shared count is 0.
pub(crate) fn is_zero(count: i64) -> bool
    ensures { result ≡ is_zero count }
{
    count == 0
}

/// Whether the shared count is above 0.
fn is_positive(count: i64) -> bool
    ensures { result ≡ is_positive count }
{
    0 < count
}

/// Whether the thread counts on the cell's local word.
#[inline(always)]
fn is_mine(thread: u32, stage: Stage, found: Cell) -> bool
    ensures { result ≡ is_mine thread stage found }
{
    is_owned_by(thread, found.owner) && is_active(stage)
}

/// Whether the thread may count up on the cell's local word.
#[inline(always)]
fn counts_up_locally(limit: u32, thread: u32, stage: Stage, found: Cell) -> bool
    ensures { result ≡ counts_up_locally limit thread stage found }
{
    is_mine(thread, stage, found) && found.local < limit
}

/// Whether the cell is mortal and the thread counts on its shared word.
#[inline(always)]
fn is_others(thread: u32, stage: Stage, cell: u32, found: Cell) -> bool
    ensures { result ≡ is_others thread stage cell found }
{
    !is_immortal(cell) && !is_mine(thread, stage, found)
}

/// Whether the owner word may become nobody's: the owner's own, or in place of an owner that left.
#[inline(always)]
fn untied_ok(thread: u32, hand: Hand, found: Cell) -> bool
    ensures { result ≡ untied_ok thread hand found }
{
    match hand {
        Hand::Free => is_owned_by(thread, found.owner) && is_queued(found.state),
        Hand::Busy(Phase::Shut, _) => !is_nobody(found.owner),
        Hand::Busy(_, _) => true,
    }
}

/// Whether the reference in the hand may be counted down.
#[inline(always)]
fn ends_ok(hand: Hand, found: Cell) -> bool
    ensures { result ≡ ends_ok hand found }
{
    match hand {
        Hand::Free => false,
        Hand::Busy(Phase::Held, _) => true,
        Hand::Busy(_, _) => is_nobody(found.owner),
    }
}

/// Whether the shared word alone may count this reference down.
#[inline(always)]
fn last_ok(thread: u32, row: Row, last: LastDropped, cell: u32, found: Cell) -> bool
    ensures { result ≡ last_ok thread row last cell found }
{
    match last {
        LastDropped::Dropped(_) => is_others(thread, row.stage, cell, found),
        LastDropped::Popped(_) => is_merged(found.state),
        LastDropped::Hand => ends_ok(row.hand, found),
    }
}

/// Whether an unlock leaves the entries as they are.
fn is_keep(change: Change) -> bool
    ensures { result ≡ is_keep change }
{
    match change {
        Change::Keep => true,
        Change::Put(_) => false,
        Change::Take { .. } => false,
        Change::Swap { .. } => false,
    }
}

/// Whether the one cell that the step means is as it must be.
#[inline(always)]
pub(crate) fn cell_ok(limit: u32, thread: u32, row: Row, step: Step, cell: u32, found: Cell) -> bool
    ensures { result ≡ cell_ok limit thread row step cell found }
{
    match step {
        Step::Claim(_) => FIRST_MORTAL <= cell && is_free(found.owner),
        Step::LocalUp { .. } => {
            is_immortal(cell) || counts_up_locally(limit, thread, row.stage, found)
        }
        Step::LocalDown(_) => is_immortal(cell) || is_mine(thread, row.stage, found),
        Step::Untie(_) => untied_ok(thread, row.hand, found),
        Step::SharedUp { .. } => {
            !is_immortal(cell) && !counts_up_locally(limit, thread, row.stage, found)
        }
        Step::SharedDown(_) => {
            is_others(thread, row.stage, cell, found)
                && is_default(found.state)
                && is_positive(found.count)
        }
        Step::Ask(_) => is_others(thread, row.stage, cell, found),
        Step::LastDown(last) => {
            !is_default(found.state) && last_ok(thread, row, last, cell, found)
        }
        Step::Lock(_) => found.mutex == 0,
        Step::Unlock(change) => is_keep(change) || is_container_kind(found.kind),
        Step::Offer(_) => is_owned_by(thread, found.owner),
        _ => true,
    }
}
