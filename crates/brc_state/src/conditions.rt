//! When a step is enabled: what its thread's stage, lock and hand must be.

ghost use Rattle.std.specs.Prelude.{◌≡◌};
ghost use Rattle.law.specs.world.Phases.{is_ending};
ghost use Rattle.law.specs.world.Steps.{needs_lock, lock_ok, is_close, is_open, may_after_leaving, stage_ok};
ghost use Rattle.law.specs.world.Steps.{phase_number, is_free_hand, is_at, is_ending_hand, hand_ok, is_active, is_left};
ghost use Rattle.law.specs.world.Steps.{is_closed, closes_next, opens_next, is_shut_hand, edition_ok};

use law::world::{Edition, Hand, LastDropped, Phase, Role, Row, Source, Stage, Step};

/// Whether the step is one of those that are made while an object is locked.
#[inline(always)]
fn needs_lock(step: Step) -> bool
    ensures { result ≡ needs_lock step }
{
    match step {
        Step::LocalUp {
            source: Source::Entry(_),
            ..
        } => true,
        Step::SharedUp {
            source: Source::Entry(_),
            ..
        } => true,
        Step::Unlock(_) => true,
        _ => false,
    }
}

/// Whether the step fits the lock that the thread has.
#[inline(always)]
pub(crate) fn lock_ok(locked: Option<u32>, step: Step) -> bool
    ensures { result ≡ lock_ok locked step }
{
    match locked {
        None => !needs_lock(step),
        Some(_) => needs_lock(step),
    }
}

/// Whether the step closes a queue word.
#[inline(always)]
fn is_close(step: Step) -> bool
    ensures { result ≡ is_close step }
{
    matches!(step, Step::Close(_))
}

/// Whether the step opens a queue word again.
#[inline(always)]
fn is_open(step: Step) -> bool
    ensures { result ≡ is_open step }
{
    matches!(step, Step::Reopen(_))
}

/// Whether a thread that has left may still make the step.
#[inline(always)]
fn may_after_leaving(step: Step) -> bool
    ensures { result ≡ may_after_leaving step }
{
    matches!(
        step,
        Step::LocalDown(_)
            | Step::SharedDown(_)
            | Step::Ask(_)
            | Step::LastDown(_)
            | Step::Enqueue(_)
            | Step::Untie(_)
            | Step::MergeAdd(_)
            | Step::Free(_)
            | Step::Nudge { .. }
    )
}

/// Whether the step fits how far the thread's life is.
#[inline(always)]
pub(crate) fn stage_ok(stage: Stage, step: Step) -> bool
    ensures { result ≡ stage_ok stage step }
{
    match stage {
        Stage::Active => true,
        Stage::Closing(_) => is_close(step),
        Stage::Left => may_after_leaving(step),
        Stage::Opening(_) => is_open(step),
    }
}

/// The phases by number, to compare them.
#[inline(always)]
fn phase_number(phase: Phase) -> u8
    ensures { result ≡ phase_number phase }
{
    match phase {
        Phase::Claimed => 0,
        Phase::Counted => 1,
        Phase::Ready => 2,
        Phase::Zero => 3,
        Phase::Over => 4,
        Phase::Untied => 5,
        Phase::Asked => 6,
        Phase::Shut => 7,
        Phase::Taking => 8,
        Phase::Held => 9,
        Phase::Popping => 10,
        Phase::Offered => 11,
        Phase::Yielding => 12,
    }
}

/// Whether the hand has nothing.
#[inline(always)]
pub(crate) fn is_free_hand(hand: Hand) -> bool
    ensures { result ≡ is_free_hand hand }
{
    match hand {
        Hand::Free => true,
        Hand::Busy(_, _) => false,
    }
}

/// Whether the hand has this cell in this phase.
#[inline(always)]
fn is_at(wanted: Phase, cell: u32, hand: Hand) -> bool
    ensures { result ≡ is_at wanted cell hand }
{
    match hand {
        Hand::Free => false,
        Hand::Busy(phase, there) => phase_number(phase) == phase_number(wanted) && there == cell,
    }
}

/// Whether the shared word may count down the reference in a hand of this phase.
fn is_ending(phase: Phase) -> bool
    ensures { result ≡ is_ending phase }
{
    matches!(phase.role(), Role::Carries)
}

/// Whether the hand has a reference that the shared word may count down.
#[inline(always)]
fn is_ending_hand(hand: Hand) -> bool
    ensures { result ≡ is_ending_hand hand }
{
    match hand {
        Hand::Free => false,
        Hand::Busy(phase, _) => is_ending(phase),
    }
}

/// Whether the cell may be untied with this hand.
// Apart, since it is long and seldom asked: what a step's copy has of it would be too much for all of a step to be
// copied.
#[inline(never)]
fn is_untying_hand(cell: u32, hand: Hand) -> bool
    ensures { result ≡ hand_ok hand (Step.Untie cell) }
{
    is_at(Phase::Over, cell, hand)
        || is_at(Phase::Shut, cell, hand)
        || is_at(Phase::Offered, cell, hand)
        || is_free_hand(hand)
}

/// Whether the cell's local count may be added with this hand.
#[inline(never)]
fn is_adding_hand(cell: u32, hand: Hand) -> bool
    ensures { result ≡ hand_ok hand (Step.MergeAdd cell) }
{
    is_at(Phase::Taking, cell, hand)
        || is_at(Phase::Popping, cell, hand)
        || is_at(Phase::Yielding, cell, hand)
}

/// Whether the step fits what the thread carries.
#[inline(always)]
pub(crate) fn hand_ok(hand: Hand, step: Step) -> bool
    ensures { result ≡ hand_ok hand step }
{
    match step {
        Step::Claim(_) => is_free_hand(hand),
        Step::InitLocal(cell) => is_at(Phase::Claimed, cell, hand),
        Step::InitShared(cell) => is_at(Phase::Counted, cell, hand),
        Step::Birth { cell, .. } => is_at(Phase::Ready, cell, hand),
        Step::LocalUp { .. } => is_free_hand(hand),
        Step::LocalDown(_) => is_free_hand(hand),
        Step::SeeZero(cell) => is_at(Phase::Zero, cell, hand),
        Step::Free(_) => is_free_hand(hand),
        Step::Untie(cell) => is_untying_hand(cell, hand),
        Step::MergeZero(cell) => is_at(Phase::Untied, cell, hand),
        Step::SharedUp { .. } => is_free_hand(hand),
        Step::SharedDown(_) => is_free_hand(hand),
        Step::Ask(_) => is_free_hand(hand),
        Step::LastDown(LastDropped::Dropped(_)) => is_free_hand(hand),
        Step::LastDown(LastDropped::Popped(_)) => is_free_hand(hand),
        Step::LastDown(LastDropped::Hand) => is_ending_hand(hand),
        Step::Enqueue(cell) => is_at(Phase::Asked, cell, hand),
        Step::Drain(_) => is_free_hand(hand),
        Step::MergeAdd(cell) => is_adding_hand(cell, hand),
        Step::Close(_) => is_free_hand(hand),
        Step::Nudge { .. } => is_free_hand(hand),
        Step::Wake => is_free_hand(hand),
        Step::Lock(_) => is_free_hand(hand),
        Step::Unlock(_) => is_free_hand(hand),
        Step::Register(_) => false,
        Step::Gather(_) => false,
        Step::Offer(_) => is_free_hand(hand),
        Step::Reopen(_) => is_free_hand(hand),
    }
}

/// Whether the thread runs.
pub(crate) fn is_active(stage: Stage) -> bool
    ensures { result ≡ is_active stage }
{
    match stage {
        Stage::Active => true,
        Stage::Closing(_) => false,
        Stage::Left => false,
        Stage::Opening(_) => false,
    }
}

/// Whether the thread has closed all its queue words.
pub(crate) fn is_left(stage: Stage) -> bool
    ensures { result ≡ is_left stage }
{
    match stage {
        Stage::Active => false,
        Stage::Closing(_) => false,
        Stage::Left => true,
        Stage::Opening(_) => false,
    }
}

/// Whether the queue word is one of those that the thread has closed.
pub(crate) fn is_closed(stage: Stage, word: u32) -> bool
    ensures { result ≡ is_closed stage word }
{
    match stage {
        Stage::Active => false,
        Stage::Closing(closed) => word < closed,
        Stage::Left => true,
        Stage::Opening(opened) => opened <= word,
    }
}

/// Whether the queue word is the next that the thread closes.
pub(crate) fn closes_next(stage: Stage, word: u32) -> bool
    ensures { result ≡ closes_next stage word }
{
    match stage {
        Stage::Active => word == 0,
        Stage::Closing(closed) => word == closed,
        Stage::Left => false,
        Stage::Opening(_) => false,
    }
}

/// Whether the queue word is the next that the thread opens again.
pub(crate) fn opens_next(stage: Stage, word: u32) -> bool
    ensures { result ≡ opens_next stage word }
{
    match stage {
        Stage::Active => false,
        Stage::Closing(_) => false,
        Stage::Left => false,
        Stage::Opening(opened) => word == opened,
    }
}

/// Whether a queue word was closed to the reference in the hand.
fn is_shut_hand(hand: Hand) -> bool
    ensures { result ≡ is_shut_hand hand }
{
    match hand {
        Hand::Free => false,
        Hand::Busy(phase, _) => phase_number(phase) == 7,
    }
}

/// Whether the step is one of the edition.
#[inline(always)]
pub(crate) fn edition_ok(edition: Edition, row: Row, step: Step) -> bool
    ensures { result ≡ edition_ok edition row step }
{
    match edition {
        Edition::One => match step {
            Step::Offer(_) => false,
            Step::Reopen(_) => false,
            _ => true,
        },
        Edition::Two => match step {
            Step::Untie(_) => is_active(row.stage) && !is_shut_hand(row.hand),
            Step::MergeAdd(_) => is_active(row.stage),
            _ => true,
        },
    }
}
