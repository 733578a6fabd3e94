//! Whether and where a dictionary has a key.

ghost use Rattle.std.specs.Prelude.{◌≡◌};
ghost use Rattle.brc_count.specs.block.Lent_Keys.{key_lent};
ghost use Rattle.brc_count.specs.Frames.{IsUnlocked, Owns};
ghost use Rattle.brc_count.specs.Owned.{Keeps};
ghost use Rattle.brc_client.specs.Clients.{KeepsNumbers};
ghost use Rattle.brc_client.specs.Calls.{Looks};
ghost use Rattle.brc_client.specs.Keyed.{PlaceOf, HasKey};

use crate::client::{Client, find};
use crate::status::Status;
use brc_count::biased::HasTable;
use brc_count::block::KeyRef;
use brc_count::{Frame, Handle};
use brc_things::try_dict_key_by;
use brc_words::Fault;
use std::alloc::Global;

/// Whether the dictionary has the key: that it hasn't is an answer here.
#[inline(always)]
fn key_there<H: HasTable<Global>>(
    frame: &mut Frame<H, Global>,
    dict: &Handle<Global>,
    key: KeyRef<'_>,
) -> Result<bool, Fault>
    requires owned { Owns frame.old dict.now }
    requires unlocked { IsUnlocked frame.old }
    ensures looked { HasKey (key_lent key.entry) frame.old frame.new dict.now.place result }
    ensures keeps { Keeps frame.old frame.new }
    ensures unlocked { IsUnlocked frame.new }
{
    match try_dict_key_by(frame, dict, key) {
        Ok(_place) => Ok(true),
        Err(Fault::NoSuchKey) => Ok(false),
        Err(fault) => Err(fault),
    }
}

impl Client {
    /// At which place of the dictionary the key stands, which is so until a key is deleted. Foreign, Stale; then Busy,
    /// WrongKind if it is no dictionary, and NoSuchKey. It makes no reference.
    #[tactic(auto, using(crate::proofs::Placed::keeps))]
    pub fn place(&mut self, dict: u64, key: KeyRef<'_>) -> Result<u32, Status>
        ensures looked { Looks (PlaceOf (key_lent key.entry) self.old.frame self.new.frame) self.old self.new dict result }
        ensures keeps { KeepsNumbers self.old self.new }
    {
        let at = self.place_of(dict)?;
        let Some(object) = self.handles.get(at) else {
            unreachable!()
        };
        match try_dict_key_by(self.mutator.frame(), object, key) {
            Ok(place) => Ok(place),
            Err(fault) => Err(Status::Fault(fault)),
        }
    }

    /// Whether the dictionary has the key. Foreign, Stale; then Busy, and WrongKind if it is no dictionary. It makes no
    /// reference.
    #[tactic(auto, using(crate::proofs::Placed::keeps))]
    pub fn has(&mut self, dict: u64, key: KeyRef<'_>) -> Result<bool, Status>
        ensures looked { Looks (HasKey (key_lent key.entry) self.old.frame self.new.frame) self.old self.new dict result }
        ensures keeps { KeepsNumbers self.old self.new }
    {
        let object = find(&self.handles, &self.numbers, dict)?;
        match key_there(self.mutator.frame(), object, key) {
            Ok(is_there) => Ok(is_there),
            Err(fault) => Err(Status::Fault(fault)),
        }
    }
}
