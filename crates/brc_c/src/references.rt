//! References: one more, one fewer, and whether two lead to one object.

ghost use Rattle.std.specs.Prelude.{◌≡◌, ◌≢◌};
ghost use Rattle.brc_client.specs.Answers.{Gives, RetainsOne, LetsGo, FindsSame};
ghost use Rattle.brc_c.specs.Exports.{Carries, CarriesOut, Writes, WritesNothing, itself, truth_number};

use crate::outs::{gone, status_of, write, write_truth};
use crate::slots::CThread;
use brc_client::Client;

#[unsafe(no_mangle)]
pub extern "C" fn brc_retain(thread: &mut CThread, held: u64, more: &mut u64) -> u32
    ensures kept { result ≢ 0 → more.new ≡ more.old }
    ensures does { CarriesOut (Gives RetainsOne held) thread.old.value thread.new.value result
        (Writes itself more.old more.new) }
{
    match thread.as_mut().client() {
        Some(client) => {
            if client.is_ready() {
                write(client.retain(held), more)
            } else {
                retain_late(client, held, more)
            }
        }
        None => gone(),
    }
}

/// As `brc_retain`, where a call may make more places: where one is ready no register is saved for it.
#[cold]
#[inline(never)]
fn retain_late(client: &mut Client, held: u64, more: &mut u64) -> u32
    ensures kept { result ≢ 0 → more.new ≡ more.old }
    ensures does { Carries (Gives RetainsOne held) client.old client.new result (Writes itself more.old more.new) }
{
    write(client.retain(held), more)
}

#[unsafe(no_mangle)]
pub extern "C" fn brc_release(thread: &mut CThread, held: u64) -> u32
    ensures does { CarriesOut (LetsGo held) thread.old.value thread.new.value result WritesNothing }
{
    match thread.as_mut().client() {
        Some(client) => status_of(client.release(held)),
        None => gone(),
    }
}

#[unsafe(no_mangle)]
pub extern "C" fn brc_same(thread: &mut CThread, one: u64, other: u64, same: &mut u32) -> u32
    ensures kept { result ≢ 0 → same.new ≡ same.old }
    ensures does { CarriesOut (FindsSame one other) thread.old.value thread.new.value result
        (Writes truth_number same.old same.new) }
{
    match thread.as_mut().client() {
        Some(client) => write_truth(client.same_object(one, other), same),
        None => gone(),
    }
}
