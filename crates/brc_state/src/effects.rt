//! What a step does to its one cell and to its thread's row, and which reference, block or mark goes or comes with it.

ghost use Rattle.std.specs.Prelude.{◌≡◌, ◌+◌, ◌<◌, ◌^◌, true};
ghost use Rattle.law.specs.world.Steps.{cell_ok, cell_after, row_after, untied_hand, added_hand, is_untouched};
ghost use Rattle.law.specs.world.Steps.{filled_place, born_cell, settled_cell, takes_block, gone, is_enqueue};
ghost use Rattle.law.specs.world.Steps.{is_free_step};
ghost use Rattle.brc_words.specs.Shared.{CountFits};

use crate::cell_conditions::{is_default, is_merged, is_zero};
use brc_words::{Owner, State};
use law::world::{Cell, Dropped, Hand, LastDropped, Phase, Row, Step, is_immortal};

/// Whether the shared word is in default at count 0.
fn is_untouched(found: Cell) -> bool
    ensures { result ≡ is_untouched found }
{
    is_zero(found.count) && is_default(found.state)
}

/// What the thread carries after the owner word became nobody's.
fn untied_hand(cell: u32, hand: Hand) -> Hand
    ensures { result ≡ untied_hand cell hand }
{
    match hand {
        Hand::Free => Hand::Busy(Phase::Popping, cell),
        Hand::Busy(Phase::Shut, _) => Hand::Busy(Phase::Taking, cell),
        Hand::Busy(Phase::Offered, _) => Hand::Busy(Phase::Yielding, cell),
        Hand::Busy(_, _) => Hand::Busy(Phase::Untied, cell),
    }
}

/// What the thread carries after the counts were added.
fn added_hand(cell: u32, hand: Hand) -> Hand
    ensures { result ≡ added_hand cell hand }
{
    match hand {
        Hand::Free => Hand::Free,
        Hand::Busy(Phase::Taking, _) => Hand::Busy(Phase::Held, cell),
        Hand::Busy(_, _) => Hand::Free,
    }
}

/// What the step does to its cell and to the row of its thread. `shut` says that the queue word into which the cell
/// would go is closed.
#[inline(always)]
pub(crate) fn write_cell_and_row(
    found: &mut Cell,
    row: &mut Row,
    limit: u32,
    thread: u32,
    step: Step,
    cell: u32,
    shut: bool,
)
    requires ok { cell_ok limit thread row.old step cell found.old ≡ true }
    requires count { CountFits found.old.count }
    requires allocs { row.old.allocs + 1 < 2 ^ 64 }
    requires frees { row.old.frees + 1 < 2 ^ 64 }

    ensures cell { found.new ≡ cell_after thread step cell found.old }
    ensures row { row.new ≡ row_after step cell found.old shut row.old }
{
    match step {
        Step::Claim(_) => {
            found.owner = Owner::Claimed(thread);
            row.hand = Hand::Busy(Phase::Claimed, cell);
        }
        Step::InitLocal(_) => {
            found.local = 1;
            row.hand = Hand::Busy(Phase::Counted, cell);
        }
        Step::InitShared(_) => {
            found.count = 0;
            found.state = State::Default;
            row.hand = Hand::Busy(Phase::Ready, cell);
        }
        Step::Birth { kind, .. } => {
            found.owner = Owner::Thread(thread);
            found.bearer = thread;
            found.kind = kind;
            row.hand = Hand::Free;
            row.allocs += 1;
        }
        Step::LocalUp { .. } => {
            if !is_immortal(cell) {
                found.local += 1;
            }
        }
        Step::LocalDown(_) => {
            if !is_immortal(cell) {
                if found.local == 1 {
                    row.hand = Hand::Busy(Phase::Zero, cell);
                }
                found.local = found.local.saturating_sub(1);
            }
        }
        Step::SeeZero(_) => {
            row.hand = if is_untouched(*found) {
                Hand::Free
            } else {
                Hand::Busy(Phase::Over, cell)
            };
        }
        Step::Free(_) => {
            found.owner = Owner::Free;
            row.frees += 1;
        }
        Step::Untie(_) => {
            found.owner = Owner::Nobody;
            row.hand = untied_hand(cell, row.hand);
        }
        Step::MergeZero(_) => {
            found.state = State::Merged;
            row.hand = Hand::Free;
        }
        Step::SharedUp { .. } => {
            found.count += 1;
        }
        Step::SharedDown(_) => {
            found.count -= 1;
        }
        Step::Ask(_) => {
            if is_default(found.state) {
                found.state = State::Queued;
                row.hand = Hand::Busy(Phase::Asked, cell);
            }
        }
        Step::LastDown(last) => {
            found.count -= 1;
            if let LastDropped::Hand = last {
                row.hand = Hand::Free;
            }
        }
        Step::Enqueue(_) => {
            row.hand = if shut {
                Hand::Busy(Phase::Shut, cell)
            } else {
                Hand::Free
            };
        }
        Step::MergeAdd(_) => {
            found.count += found.local as i64;
            found.state = State::Merged;
            row.hand = added_hand(cell, row.hand);
        }
        Step::Offer(_) => {
            found.state = State::Queued;
            row.hand = Hand::Busy(Phase::Offered, cell);
        }
        Step::Lock(place) => {
            found.mutex = thread;
            row.locked = Some(place);
        }
        Step::Unlock(_) => {
            found.mutex = 0;
            row.locked = None;
        }
        _ => {}
    }
}

/// Whether the object is dead with this step.
#[inline(always)]
pub(crate) fn takes_block(step: Step, found: Cell) -> bool
    requires { CountFits found.count }

    ensures { result ≡ takes_block step found }
{
    match step {
        Step::SeeZero(_) => is_untouched(found),
        Step::MergeZero(_) => is_zero(found.count),
        Step::LastDown(_) => is_merged(found.state) && is_zero(found.count - 1),
        Step::MergeAdd(_) => is_zero(found.count + found.local as i64),
        _ => false,
    }
}

/// The reference that goes from a place or from entries.
#[inline(always)]
pub(crate) fn gone(step: Step, found: Cell) -> Option<Dropped>
    ensures { result ≡ gone step found }
{
    match step {
        Step::LocalDown(dropped) => Some(dropped),
        Step::SharedDown(dropped) => Some(dropped),
        Step::Ask(dropped) => {
            if is_default(found.state) {
                Some(dropped)
            } else {
                None
            }
        }
        Step::LastDown(LastDropped::Dropped(dropped)) => Some(dropped),
        _ => None,
    }
}

/// The place that is filled.
#[inline(always)]
pub(crate) fn filled_place(step: Step) -> Option<u32>
    ensures { result ≡ filled_place step }
{
    match step {
        Step::Birth { place, .. } => Some(place),
        Step::LocalUp { place, .. } => Some(place),
        Step::SharedUp { place, .. } => Some(place),
        _ => None,
    }
}

/// The cell whose object is born.
#[inline(always)]
pub(crate) fn born_cell(step: Step) -> Option<u32>
    ensures { result ≡ born_cell step }
{
    match step {
        Step::Birth { cell, .. } => Some(cell),
        _ => None,
    }
}

/// The popped entry that is dealt with.
#[inline(always)]
pub(crate) fn settled_cell(step: Step) -> Option<u32>
    ensures { result ≡ settled_cell step }
{
    match step {
        Step::LastDown(LastDropped::Popped(cell)) => Some(cell),
        _ => None,
    }
}

/// Whether the cell goes into a merge queue.
#[inline(always)]
pub(crate) fn is_enqueue(step: Step) -> bool
    ensures { result ≡ is_enqueue step }
{
    matches!(step, Step::Enqueue(_))
}

/// Whether a block is given back.
#[inline(always)]
pub(crate) fn is_free_step(step: Step) -> bool
    ensures { result ≡ is_free_step step }
{
    matches!(step, Step::Free(_))
}
