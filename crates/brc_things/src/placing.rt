//! At which place a key stands, in the order in which the keys came.

ghost use Rattle.std.specs.Prelude.{◌≡◌, ◌≢◌, Some, IfOk, IfErr};
ghost use Rattle.brc_words.specs.declared.fault.Fault.TheVariants as faults;
ghost use Rattle.brc_count.specs.block.Lent_Keys.{key_lent};
ghost use Rattle.brc_count.specs.table.Shown.{contents_of};
ghost use Rattle.brc_count.specs.Frames.{IsUnlocked, Owns};
ghost use Rattle.brc_count.specs.Locking.{IsLocked, cell_locked, contents_found, KeepsThread, KeepsFrame};
ghost use Rattle.brc_count.specs.Owned.{Keeps};
ghost use Rattle.brc_things.specs.Called.{Late};
ghost use Rattle.brc_things.specs.Changing.{RefusedEntry};
ghost use Rattle.brc_things.specs.Dict_Calls.{DictPlace};
ghost use Rattle.brc_things.specs.Indexing.{ReadsUnlocked};
ghost use Rattle.brc_things.specs.Plain_Dicts.{plain_place};
ghost use Rattle.brc_things.specs.Since.{Since};

use crate::late::begin_late;
use crate::seeking::{Sought, seek};
use brc_count::biased::HasTable;
use brc_count::block::{Block, KeyRef};
use brc_count::{Frame, Handle};
use brc_words::Fault;
use std::alloc::Allocator;
use std::sync::Wait;

/// The place of the key in the dictionary that is locked, and its unlocking.
fn place_locked<H: HasTable<A>, A: Allocator>(
    frame: &mut Frame<H, A>,
    block: Block<A>,
    key: KeyRef<'_>,
) -> Result<u32, Fault>
    requires locked { IsLocked frame.old }
    requires of_cell { cell_locked frame.old ≡ Some block.0 }
    requires found { contents_found frame.old ≡ contents_of block.1 }
    ensures thread { KeepsThread frame.old frame.new }
    ensures frame { KeepsFrame frame.old frame.new }
    ensures unlocked { IsUnlocked frame.new }
    ensures reads { IfOk result (λ place. Since frame.old block
        (λ before k. ReadsUnlocked before frame.new k (plain_place {A = A} (key_lent key.entry)) place)) }
    ensures refused { IfErr result (λ fault. Since frame.old block
        (λ before k. RefusedEntry before frame.new k (plain_place {A = A} (key_lent key.entry)) fault)) }
    ensures waits { IfErr result (λ fault. fault ≢ faults.Busy) }
{
    let sought = seek(block.payload(), key);
    frame.end_keep(block);
    match sought {
        Sought::There { index, .. } => Ok(index as u32),
        Sought::Absent => Err(Fault::NoSuchKey),
        Sought::WrongKind => Err(Fault::WrongKind),
    }
}

/// At which place the key stands, for `dict_key` and `dict_pair`. Busy where another thread has the dictionary locked,
/// then WrongKind where the object is no dictionary, and NoSuchKey. It takes no memory.
pub fn try_dict_key_by<H: HasTable<A>, A: Allocator>(
    frame: &mut Frame<H, A>,
    dict: &Handle<A>,
    key: KeyRef<'_>,
) -> Result<u32, Fault>
    requires owned { Owns frame.old dict.now }
    requires unlocked { IsUnlocked frame.old }
    ensures reads { DictPlace frame.old frame.new dict.now.place (key_lent key.entry) result }
    ensures keeps { Keeps frame.old frame.new }
    ensures unlocked { IsUnlocked frame.new }
{
    let Some(block) = frame.begin(dict) else {
        return Err(Fault::Busy);
    };
    place_locked(frame, block, key)
}

/// At which place the key stands; WrongKind and NoSuchKey as in `try_dict_key_by`. It waits while another thread has the
/// dictionary locked.
pub fn dict_key_by<H: HasTable<A>, A: Allocator>(
    rt: &impl Wait,
    frame: &mut Frame<H, A>,
    dict: &Handle<A>,
    key: KeyRef<'_>,
) -> Result<u32, Fault>
    requires owned { Owns frame.old dict.now }
    requires unlocked { IsUnlocked frame.old }
    ensures reads { Late frame.old dict.now.place
        (λ mid. DictPlace mid frame.new dict.now.place (key_lent key.entry) result) }
    ensures keeps { Keeps frame.old frame.new }
    ensures unlocked { IsUnlocked frame.new }
    ensures waited { IfErr result (λ fault. fault ≢ faults.Busy) }
{
    let block = begin_late(rt, frame, dict);
    place_locked(frame, block, key)
}
