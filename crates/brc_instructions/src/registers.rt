//! The sixteen registers of a section.

ghost use Rattle.std.specs.Prelude.{◌≡◌, ◌<◌, ◌≤◌, ◌+◌, None, Some, IfOk, IfErr, IfSome, IfNone, slice_set, length};
ghost use Rattle.std.specs.Option.{option_copied};
ghost use Rattle.brc_words.specs.declared.fault.Fault.TheVariants.{OutOfMemory};
ghost use Rattle.brc_count.specs.Frames.{IsUnlocked};
ghost use Rattle.brc_count.specs.law.living.Quiet.{Quietly};
ghost use Rattle.brc_handles.specs.Handles.{slot, filled, IsApart, IsBare, OwnsEach, ComesIn, ComesOut, Exchanges};

use brc_count::biased::HasTable;
use brc_count::{Frame, Handle};
use brc_handles::Handles;
use brc_script::{REGISTERS, Register};
use brc_words::Fault;
use std::alloc::Allocator;
use std::marker::Model;

/// What each register has, by its number: a handle, or nothing. They must be spent, by `release_all`.
pub struct Registers<A: Allocator> {
    handles: Handles<A>,
}

impl<A: Allocator> Model for Registers<A> {
    ghost use Rattle.std.specs.Prelude.{◌≡◌, List, Option, length};
    ghost use Rattle.brc_count.specs.Frames.{HandleSeen};
    ghost use Rattle.brc_script.specs.declared.limits.TheConstants.{REGISTERS};

    ghost Value = { List (Option HandleSeen) };

    ghost view = { λ r. r.handles };

    ghost invariant = { λ r. length r.handles ≡ REGISTERS };
}

impl<A: Allocator> Registers<A> {
    /// All empty, as a section starts.
    pub fn empty(alloc: A) -> Result<Registers<A>, Fault>
        ensures bare { IfOk result IsBare }
        ensures size { IfOk result (λ registers. length registers ≡ 16) }
        ensures refused { IfErr result (λ fault. fault ≡ OutOfMemory) }
    {
        match Handles::with_places(alloc, REGISTERS as usize) {
            Ok(handles) => Ok(Registers { handles }),
            Err(_refused) => Err(Fault::OutOfMemory),
        }
    }

    /// The handle that the register has; None where it is empty.
    #[inline(always)]
    pub fn get(&self, register: Register) -> Option<&Handle<A>>
        ensures { option_copied result ≡ slot self.now register }
    {
        self.handles.get(register.number() as usize)
    }

    /// The handle out of the register, which is empty then.
    #[inline(always)]
    pub fn take(&mut self, register: Register) -> Option<Handle<A>>
        ensures taken { result ≡ slot self.old register }
        ensures set { self.new ≡ slice_set self.old register None }
        ensures comes { IfSome result (ComesOut self.old self.new register) }
        ensures unchanged { IfNone result (self.new ≡ self.old) }
    {
        self.handles.take(register.number() as usize)
    }

    /// The handle into the register. The answer is the one that it had.
    #[inline(always)]
    pub fn put(&mut self, register: Register, handle: Handle<A>) -> Option<Handle<A>>
        requires apart { IsApart handle self.old }
        ensures taken { result ≡ slot self.old register }
        ensures set { self.new ≡ slice_set self.old register (Some handle) }
        ensures comes { IfNone result (ComesIn self.old self.new handle) }
        ensures exchanges { IfSome result (Exchanges self.old self.new register handle) }
        ensures below { register < REGISTERS }
    {
        self.handles.put(register.number() as usize, handle)
    }

    /// All that they have is released, from r0 to r15.
    pub fn release_all<H: HasTable<A>>(self, frame: &mut Frame<H, A>)
        requires each { OwnsEach frame.old self }
        requires unlocked { IsUnlocked frame.old }
        ensures count { frame.new.len + filled self ≡ frame.old.len }
        ensures few { filled self ≤ 16 }
        ensures heap { frame.new.heap ≡ frame.old.heap }
        ensures quiet { Quietly frame.old.seat.log frame.new.seat.log }
        ensures unlocked { IsUnlocked frame.new }
    {
        let Registers { handles } = self;
        handles.release_all(frame);
    }
}
