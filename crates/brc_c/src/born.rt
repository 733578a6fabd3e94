//! A list that is made with its values, which C has in a row.

ghost use Rattle.std.specs.Prelude.{◌≡◌, ◌≢◌, OnOk, IfErr, map};
ghost use Rattle.brc_client.specs.Born.{MakesListOf};
ghost use Rattle.brc_client.specs.declared.status.Status.TheVariants as statuses;
ghost use Rattle.brc_c.specs.Exports.{CarriesOut, Writes, itself};
ghost use Rattle.brc_c.specs.Given_Values.{datum_in, AreValues, HasNoValue, OrNotValues};

use crate::outs::{gone, write};
use crate::slots::CThread;
use crate::values::{CValue, REFERENCE};
use brc_client::{Datum, Status, ValueRow};
use brc_words::Note;
use std::alloc::Global;

/// Values that C gives, each a scalar or a reference.
#[derive(Drop)]
struct CValues<'v> {
    values: &'v [CValue],
}

impl<'v> ValueRow for CValues<'v> {
    ghost items = { λ g. map datum_in g.values.now };

    #[inline(always)]
    fn len(&self) -> usize {
        self.values.len()
    }

    #[inline(always)]
    fn item(&self, at: usize) -> Datum {
        let value = &self.values[at];
        let label = value.label;
        if value.holds == REFERENCE {
            Datum::Object(value.bits, Note { label, bits: 0 })
        } else {
            Datum::Scalar(Note {
                label,
                bits: value.bits,
            })
        }
    }
}

/// Whether each holds what a value can hold: NotValue.
#[inline(always)]
fn are_values(values: &[CValue]) -> Result<(), Status>
    ensures all { OnOk result (AreValues values.now) }
    ensures refused { IfErr result (λ status. (status ≡ statuses.NotValue) × HasNoValue values.now) }
{
    for value in values {
        if value.holds > REFERENCE {
            return Err(Status::NotValue);
        }
    }
    Ok(())
}

#[unsafe(no_mangle)]
pub extern "C" fn brc_new_list_of(
    alloc: Global,
    thread: &mut CThread,
    values: &[CValue],
    made: &mut u64,
) -> u32
    ensures kept { result ≢ 0 → made.new ≡ made.old }
    ensures does { CarriesOut (OrNotValues values.now MakesListOf) thread.old.value thread.new.value result
        (Writes itself made.old made.new) }
{
    match thread.as_mut().client() {
        Some(client) => match are_values(values) {
            Ok(()) => write(client.new_list_of(alloc, &CValues { values }), made),
            Err(status) => status.number(),
        },
        None => gone(),
    }
}
