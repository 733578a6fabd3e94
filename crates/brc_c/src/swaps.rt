//! A value goes into a container, if what stands there is still what C expects.

ghost use Rattle.std.specs.Prelude.{◌≡◌, ◌≢◌};
ghost use Rattle.brc_count.specs.block.declared.key_ref.KeyRef.TheVariants as lent;
ghost use Rattle.brc_client.specs.Swap_If.{SwapsDatumIf, SwapsIfAt};
ghost use Rattle.brc_client.specs.declared.conditional.SwapIfAt.TheVariants as swapping;
ghost use Rattle.brc_c.specs.Calls.{OfTwoValues, SwapsIfByText, WritesSwap};
ghost use Rattle.brc_c.specs.Exports.{Carries, CarriesOut, OrNotText};

use crate::outs::gone;
use crate::slots::CThread;
use crate::values::{CValue, datum_of};
use brc_client::{
    Client, Conditional, SwapTold, SwappingAt, SwappingByInt, SwappingByText, text_of,
};

/// The call on a client's values: `value` goes in, and is then what came.
#[inline(always)]
fn swap_if_by<B: Conditional>(
    client: &mut Client,
    container: u64,
    by: B,
    bits: u64,
    noted: u64,
    value: &mut CValue,
    swapped: &mut u32,
) -> u32
    ensures kept { result ≢ 0 → (value.new ≡ value.old) × (swapped.new ≡ swapped.old) }
    ensures does { Carries (OfTwoValues bits noted value.old (SwapsDatumIf (SwapsIfAt (B.call by)) container)) client.old client.new
        result (WritesSwap value.old value.new swapped.old swapped.new) }
{
    let expected = match datum_of(bits, noted) {
        Ok(expected) => expected,
        Err(status) => return status.number(),
    };
    let datum = match datum_of(value.bits, value.packed()) {
        Ok(datum) => datum,
        Err(status) => return status.number(),
    };
    match client.swap_if(container, by, expected, datum) {
        Ok(
            SwapTold {
                swapped: done,
                came,
            },
        ) => {
            value.write(came);
            *swapped = u32::from(done);
            0
        }
        Err(status) => status.number(),
    }
}

#[unsafe(no_mangle)]
pub extern "C" fn brc_list_swap_if(
    thread: &mut CThread,
    list: u64,
    index: u32,
    bits: u64,
    noted: u64,
    value: &mut CValue,
    swapped: &mut u32,
) -> u32
    ensures kept { result ≢ 0 → (value.new ≡ value.old) × (swapped.new ≡ swapped.old) }
    ensures does { CarriesOut (OfTwoValues bits noted value.old (SwapsDatumIf (SwapsIfAt (swapping.Index index)) list))
        thread.old.value thread.new.value result (WritesSwap value.old value.new swapped.old swapped.new) }
{
    match thread.as_mut().client() {
        Some(client) => swap_if_by(client, list, SwappingAt(index), bits, noted, value, swapped),
        None => gone(),
    }
}

#[unsafe(no_mangle)]
pub extern "C" fn brc_dict_swap_if_int(
    thread: &mut CThread,
    dict: u64,
    key: i64,
    bits: u64,
    noted: u64,
    value: &mut CValue,
    swapped: &mut u32,
) -> u32
    ensures kept { result ≢ 0 → (value.new ≡ value.old) × (swapped.new ≡ swapped.old) }
    ensures does { CarriesOut (OfTwoValues bits noted value.old (SwapsDatumIf (SwapsIfAt (swapping.Beside (lent.Int key))) dict))
        thread.old.value thread.new.value result (WritesSwap value.old value.new swapped.old swapped.new) }
{
    match thread.as_mut().client() {
        Some(client) => swap_if_by(
            client,
            dict,
            SwappingByInt(key),
            bits,
            noted,
            value,
            swapped,
        ),
        None => gone(),
    }
}

#[unsafe(no_mangle)]
pub extern "C" fn brc_dict_swap_if_text(
    thread: &mut CThread,
    dict: u64,
    key: &[u8],
    bits: u64,
    noted: u64,
    value: &mut CValue,
    swapped: &mut u32,
) -> u32
    ensures kept { result ≢ 0 → (value.new ≡ value.old) × (swapped.new ≡ swapped.old) }
    ensures does { CarriesOut (OrNotText key.now (OfTwoValues bits noted value.old (SwapsDatumIf (SwapsIfByText key.now) dict)))
        thread.old.value thread.new.value result (WritesSwap value.old value.new swapped.old swapped.new) }
{
    match thread.as_mut().client() {
        Some(client) => match text_of(key) {
            Ok(_text) => swap_if_by(
                client,
                dict,
                SwappingByText(key),
                bits,
                noted,
                value,
                swapped,
            ),
            Err(status) => status.number(),
        },
        None => gone(),
    }
}
