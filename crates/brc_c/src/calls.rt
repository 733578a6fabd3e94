//! The calls that several exports make, each on the client of a thread. A thread that has left has none: Gone.

ghost use Rattle.std.specs.Prelude.{◌≡◌, ◌≢◌};
ghost use Rattle.brc_places.specs.Calls.{MadeBy, GaveBy, TookBy};
ghost use Rattle.brc_client.specs.Answers.{Makes, Gives, Takes};
ghost use Rattle.brc_c.specs.Exports.{CarriesOut, Writes, WritesNothing, itself, old_number};

use crate::outs::{gone, status_of_taking, write, write_old};
use crate::slots::CThread;
use brc_client::{Make, Outward, TakeBy};
use std::alloc::Global;

/// What is made has a number, which is written.
#[inline(always)]
pub(crate) fn make_by(alloc: Global, thread: &mut CThread, by: Make<'_>, made: &mut u64) -> u32
    ensures kept { result ≢ 0 → made.new ≡ made.old }
    ensures does { CarriesOut (Makes (MadeBy by.entry)) thread.old.value thread.new.value result
        (Writes itself made.old made.new) }
{
    match thread.as_mut().client() {
        Some(client) => write(client.make(alloc, by), made),
        None => gone(),
    }
}

/// What a container gives has a number, which is written.
#[inline(always)]
pub(crate) fn give_by<B: Outward>(
    thread: &mut CThread,
    container: u64,
    by: B,
    given: &mut u64,
) -> u32
    ensures kept { result ≢ 0 → given.new ≡ given.old }
    ensures does { CarriesOut (Gives (GaveBy (B.call by)) container) thread.old.value thread.new.value result
        (Writes itself given.old given.new) }
{
    match thread.as_mut().client() {
        Some(client) => write(client.give(container, by), given),
        None => gone(),
    }
}

/// A value goes into a container, and nothing comes out for it.
#[inline(always)]
pub(crate) fn put_by(
    alloc: Global,
    thread: &mut CThread,
    container: u64,
    by: TakeBy<'_>,
    value: u64,
) -> u32
    ensures does { CarriesOut (Takes (TookBy by.entry) container value) thread.old.value thread.new.value result
        WritesNothing }
{
    match thread.as_mut().client() {
        Some(client) => status_of_taking(client.take(alloc, container, by, value)),
        None => gone(),
    }
}

/// A value goes into a container. The number of what came out for it is written, or 0.
#[inline(always)]
pub(crate) fn exchange_by(
    alloc: Global,
    thread: &mut CThread,
    container: u64,
    by: TakeBy<'_>,
    value: u64,
    old: &mut u64,
) -> u32
    ensures kept { result ≢ 0 → old.new ≡ old.old }
    ensures does { CarriesOut (Takes (TookBy by.entry) container value) thread.old.value thread.new.value result
        (Writes old_number old.old old.new) }
{
    match thread.as_mut().client() {
        Some(client) => write_old(client.take(alloc, container, by, value), old),
        None => gone(),
    }
}
