//! What handles tell without a lock: which cell an object is in never changes while a handle to it is held.

ghost use Rattle.std.specs.Prelude.{◌≡◌, ◌≢◌, Some, IsTrue, IsFalse, IfOk, IfErr};
ghost use Rattle.brc_words.specs.declared.fault.Fault.TheVariants as faults;
ghost use Rattle.brc_count.specs.Frames.{Owns};
ghost use Rattle.brc_count.specs.Locking.{cell_in};
ghost use Rattle.brc_things.specs.Makers.{truth_cell};

use brc_count::biased::HasTable;
use brc_count::{Frame, Handle};
use brc_words::Fault;
use std::alloc::Allocator;

/// Whether the two handles are references to one object.
pub fn same_object<H: HasTable<A>, A: Allocator>(
    frame: &Frame<H, A>,
    one: &Handle<A>,
    other: &Handle<A>,
) -> bool
    requires owned { Owns frame.now one.now }
    requires other_owned { Owns frame.now other.now }
    ensures same { IsTrue result → cell_in frame.now one.now.place ≡ cell_in frame.now other.now.place }
    ensures apart { IsFalse result → cell_in frame.now one.now.place ≢ cell_in frame.now other.now.place }
{
    frame.cell(one) == frame.cell(other)
}

/// Whether the object is True or False; WrongKind for any other. There is one of each, an immortal, so nothing is read.
pub fn truth_of<H: HasTable<A>, A: Allocator>(
    frame: &Frame<H, A>,
    handle: &Handle<A>,
) -> Result<bool, Fault>
    requires owned { Owns frame.now handle.now }
    ensures truth { IfOk result (λ is_true. cell_in frame.now handle.now.place ≡ Some (truth_cell is_true)) }
    ensures other { IfErr result (λ fault. (fault ≡ faults.WrongKind)
        × (cell_in frame.now handle.now.place ≢ Some 1) × (cell_in frame.now handle.now.place ≢ Some 2)) }
{
    match frame.cell(handle) {
        1 => Ok(false),
        2 => Ok(true),
        _ => Err(Fault::WrongKind),
    }
}
