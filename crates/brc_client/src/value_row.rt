//! Values in a row, and whether the numbers among them may be given: each names something, and none stands twice.

ghost use Rattle.std.specs.Prelude.{◌≡◌, ◌<◌, ◌≤◌, List, Some, IfErr, IfOk, OnOk, IsFalse, length, slice_get};
ghost use Rattle.brc_client.specs.Value_Row.{AllNamed, FirstNameless, AreSpelled, StandsTwice, NoneTwice, AreMarked};
ghost use Rattle.brc_client.specs.Value_Row.{Restores};
ghost use Rattle.brc_client.specs.declared.data.Datum.{Datum as DatumSeen};
ghost use Rattle.brc_client.specs.declared.status.Status.TheVariants as statuses;

use crate::client::find;
use crate::data::Datum;
use crate::numbers::Numbers;
use crate::reach::Reach;
use crate::status::Status;
use brc_handles::Handles;
use std::alloc::Global;

/// Values in a row, each by its index. They lie where the caller has them.
pub trait ValueRow {
    // which they are
    ghost items: { Self → List DatumSeen };

    /// How many there are.
    fn len(&self) -> usize
        ensures { result ≡ length (items self.now) };

    /// One of them.
    fn item(&self, at: usize) -> Datum
        requires inside { at < length (items self.now) }
        ensures { slice_get (items self.now) at ≡ Some result };
}

/// Whether each object's number names something: Foreign or Stale of the first that doesn't. The answer is whether one may
/// stand twice: a place lies between those before it. Objects that were made one after the other mostly have rising places.
#[inline(always)]
pub(crate) fn are_named<S: ValueRow>(
    handles: &Handles<Global>,
    numbers: &Numbers,
    values: &S,
) -> Result<bool, Status>
    requires places { length handles.now ≡ 65536 }
    ensures named { OnOk result (AllNamed handles.now numbers.now (S.items values.now)) }
    ensures apart { IfOk result (λ unsure. IsFalse unsure → NoneTwice (S.items values.now)) }
    ensures refused { IfErr result (FirstNameless handles.now numbers.now (S.items values.now)) }
{
    let mut met = Reach::new();
    let mut unsure = false;
    for at in 0..values.len() {
        if let Datum::Object(number, _note) = values.item(at) {
            let _handle = find(handles, numbers, number)?;
            if !met.widen((number % 65_536) as usize) {
                unsure = true;
            }
        }
    }
    Ok(unsure)
}

/// Each number is taken for spent, up to one that stands a second time: that is spelled otherwise then. The answer is its
/// index, or how many values there are.
#[inline(always)]
fn mark_each<S: ValueRow>(numbers: &mut Numbers, values: &S) -> usize
    requires spelled { AreSpelled numbers.old (S.items values.now) }
    ensures inside { result ≤ length (S.items values.now) }
    ensures marks { AreMarked (S.items values.now) result numbers.old numbers.new }
    ensures again { result < length (S.items values.now) → StandsTwice (S.items values.now) }
{
    for at in 0..values.len() {
        if let Datum::Object(number, _note) = values.item(at) {
            let place = (number % 65_536) as usize;
            if numbers.number(place) != number {
                return at;
            }
            numbers.spend(place);
        }
    }
    values.len()
}

/// The places of the numbers below the index are again as these numbers say.
#[inline(always)]
fn restore_each<S: ValueRow>(numbers: &mut Numbers, values: &S, below: usize)
    requires inside { below ≤ length (S.items values.now) }
    ensures restores { Restores (S.items values.now) below numbers.old numbers.new }
{
    for at in 0..below {
        if let Datum::Object(number, _note) = values.item(at) {
            numbers.restore(number);
        }
    }
}

/// Whether no number stands twice: Same. It takes two walks, however many objects there are.
#[inline(always)]
pub(crate) fn none_twice<S: ValueRow>(numbers: &mut Numbers, values: &S) -> Result<(), Status>
    requires spelled { AreSpelled numbers.old (S.items values.now) }
    ensures apart { OnOk result (NoneTwice (S.items values.now)) }
    ensures twice { IfErr result (λ status. (status ≡ statuses.Same) × StandsTwice (S.items values.now)) }
    ensures same { numbers.new ≡ numbers.old }
{
    let reached = mark_each(numbers, values);
    restore_each(numbers, values, reached);
    if reached == values.len() {
        Ok(())
    } else {
        Err(Status::Same)
    }
}
