//! Numbers for the places of a frame.

ghost use Rattle.std.specs.Prelude.{◌≡◌, ◌≢◌, ◌<◌, ℕ, get_or, length, replicate, slice_set, IfOk, IfErr, OnOk};
ghost use Rattle.brc_client.specs.Numbers.{number_at, place_in, stamp_in, uses_in, once_more, MisSpelt, IsStamped};

use crate::status::Status;
use brc_heap::Registration;
use std::alloc::{AllocError, Global};
use std::marker::Model;

/// How many places a frame has at most.
pub(crate) const PLACES: usize = 65_536;

/// Which registration a thread's numbers are of: its heap's, and its place among them.
#[derive(Drop)]
pub(crate) struct Stamp {
    /// What the stamps of its heap's registrations begin with.
    pub(crate) first: u32,
    pub(crate) registration: Registration,
}

impl Model for Stamp {
    ghost use Rattle.brc_client.specs.Numbers.{StampSeen};

    ghost Value = { StampSeen };

    ghost view = { λ s. record { first = s.first; registration = s.registration } };
}

/// The stamp of a registration, and how often each place of its frame was vacated. With these a number is made for a
/// reference, and looked at when it comes back.
#[derive(Drop)]
pub struct Numbers {
    /// 1 to 65,535.
    stamp: u64,
    /// What each number begins with: the stamp, where a number has it.
    base: u64,
    uses: Vec<u32, Global>,
    of: Stamp,
}

impl Model for Numbers {
    ghost use Rattle.std.specs.Prelude.{◌≡◌, ◌<◌, ◌*◌, length};
    ghost use Rattle.brc_client.specs.Numbers.{NumbersSeen, IsStamped};

    ghost Value = { NumbersSeen };

    ghost view = { λ n. record { stamp = n.stamp; of = n.of; uses = n.uses.items } };

    ghost invariant = { λ n. (0 < n.stamp) × (n.stamp < 65536) × (n.base ≡ n.stamp * 281474976710656)
        × (length n.uses.items ≡ 65536) × IsStamped n.stamp n.of };
}

impl Numbers {
    /// The numbers of a registration; no place was vacated yet. Two stamps of a heap are equal only if 65,535
    /// registrations are between them.
    pub(crate) fn stamped(uses: Vec<u32, Global>, of: Stamp) -> Numbers
        requires places { length uses.items ≡ 65536 }
        ensures of { result.of ≡ of }
        ensures stamp { IsStamped result.stamp of }
        ensures uses { result.uses ≡ uses.items }
    {
        let before = of.registration.before();
        let stamp = (u64::from(of.first) + u64::from(before)) % 65_535 + 1;
        Numbers {
            stamp,
            base: stamp * 281_474_976_710_656,
            uses,
            of,
        }
    }

    /// What the stamps of its heap's registrations begin with.
    pub(crate) fn first(&self) -> u32
        ensures { result ≡ self.now.of.first }
    {
        self.of.first
    }

    /// The number of the reference in this place.
    #[inline(always)]
    pub(crate) fn number(&self, place: usize) -> u64
        requires inside { place < 65536 }
        ensures number { result ≡ number_at self.now place }
        ensures stamp { stamp_in result ≡ self.now.stamp }
        ensures uses { uses_in result ≡ get_or self.now.uses place 0 }
    {
        self.base + u64::from(self.uses[place]) * 65_536 + place as u64
    }

    /// The place of a number, whose spelling is the one that the place has now. Foreign if the number is of another
    /// registration; then Stale, if its place was vacated another number of times.
    #[inline(always)]
    pub(crate) fn place(&self, number: u64) -> Result<usize, Status>
        ensures place { IfOk result (λ place. place ≡ place_in number) }
        ensures spelled { IfOk result (λ place. number ≡ number_at self.now place) }
        ensures stamp { OnOk result (stamp_in number ≡ self.now.stamp) }
        ensures refused { IfErr result (MisSpelt self.now number) }
    {
        // Most numbers are right, so it is looked at last why one is not.
        let place = (number % 65_536) as usize;
        if number == self.number(place) {
            return Ok(place);
        }
        if number / 281_474_976_710_656 != self.stamp {
            Err(Status::Foreign)
        } else {
            Err(Status::Stale)
        }
    }

    /// The place is vacated: what its number was no place has now.
    #[inline(always)]
    pub(crate) fn spend(&mut self, place: usize)
        requires inside { place < 65536 }
        ensures stamp { self.new.stamp ≡ self.old.stamp }
        ensures of { self.new.of ≡ self.old.of }
        ensures uses { self.new.uses ≡ slice_set self.old.uses place (once_more (get_or self.old.uses place 0)) }
        ensures counted { get_or self.new.uses place 0 ≡ once_more (get_or self.old.uses place 0) }
        ensures spent { number_at self.new place ≢ number_at self.old place }
        ensures others { (k : ℕ) → k ≢ place → number_at self.new k ≡ number_at self.old k }
    {
        let uses = self.uses[place];
        self.uses[place] = uses.wrapping_add(1);
    }

    /// The number's place was vacated as often as the number says.
    #[inline(always)]
    pub(crate) fn restore(&mut self, number: u64)
        ensures stamp { self.new.stamp ≡ self.old.stamp }
        ensures of { self.new.of ≡ self.old.of }
        ensures uses { self.new.uses ≡ slice_set self.old.uses (place_in number) (uses_in number) }
        ensures counted { get_or self.new.uses (place_in number) 0 ≡ uses_in number }
    {
        let place = (number % 65_536) as usize;
        self.uses[place] = (number / 65_536 % 4_294_967_296) as u32;
    }
}

/// No place was vacated yet.
pub(crate) fn no_uses(alloc: Global) -> Result<Vec<u32, Global>, AllocError>
    ensures uses { IfOk result (λ made. made.items ≡ replicate 65536 0) }
    ensures places { IfOk result (λ made. length made.items ≡ 65536) }
{
    let uses = Vec::from_elem(alloc, 0u32, PLACES)?;
    Ok(uses)
}
