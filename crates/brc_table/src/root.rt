//! The root's seat at the table: threads are split off it, and joined to it once they have left.

ghost use Rattle.std.specs.Prelude.{◌≡◌, ◌≤◌, ◌<◌, ◌==◌, ℕ, if◌then◌else◌, true, []};
ghost use Rattle.std.specs.Int.{bit_at};
ghost use Rattle.brc_words.specs.declared.limits.TheConstants.{MOST_THREADS, MOST_REGISTRATIONS};
ghost use Rattle.law.specs.steps.Joining.{next_thread, registrations, registering, starting, gathering, is_again};
ghost use Rattle.law.specs.steps.Joining.{HasLeft};
ghost use Rattle.brc_table.specs.Numbers.{IsLowest};
ghost use Rattle.brc_table.specs.Seated.{view_of};

use crate::machine::Place;
use crate::seats::ThreadSeat;
use crate::table::HeapTable;
use atomic_table::{Join, Split};
use law::rule::View;
use std::alloc::Allocator;
use std::marker::Model;

/// What the root steps with: it registers threads, and gathers those that have left. Bit i of free says that nobody has
/// number i + 1; all numbers below rows were used.
pub struct RootSeat<A: Allocator> {
    pub(crate) place: Place<A>,
    pub(crate) free: u64,
    pub(crate) rows: u32,
}

impl<A: Allocator> Model for RootSeat<A> {
    ghost use Rattle.std.specs.Prelude.{◌≡◌, true, []};
    ghost use Rattle.law.specs.known.Root.{marks_of, rows_of};
    ghost use Rattle.law.specs.rule.Logs.{log_items};
    ghost use Rattle.brc_table.specs.Numbers.{AreFree};
    ghost use Rattle.brc_table.specs.Seated.{RootSeen};

    ghost Value = { RootSeen };

    ghost view = { λ s. record { table = s.place.table_id; id = s.place.id; view = s.place.me.0 } };

    ghost invariant = { λ s. (s.place.me.0.active ≡ true) × (s.place.me.0.thread ≡ 0) × (s.place.me.1 ≡ [])
        × AreFree s.free (marks_of (log_items s.place.me.0.log)) × (s.rows ≡ rows_of (log_items s.place.me.0.log)) };
}

/// A thread is registered.
pub(crate) struct Registering;

impl Split<View> for Registering {
    ghost use Rattle.law.specs.steps.Joining.{registering, starting};

    ghost left = { registering };

    ghost right = { starting };
}

/// A thread that has left is gathered.
pub(crate) struct Gathering;

impl Join<View> for Gathering {
    ghost use Rattle.law.specs.steps.Joining.{gathering, spent};

    ghost both = { gathering };

    ghost spent = { spent };
}

/// The place of the lowest set bit, or 64.
fn lowest(bits: u64) -> u32
    ensures { IsLowest bits result }
{
    if bits == 0 { 64 } else { bits.trailing_zeros() }
}

/// The bits without this one.
fn without(bits: u64, at: u32) -> u64
    requires { at < 64 }
    ensures { (i : ℕ) → i < 64 → bit_at result i ≡ (if i == at then 0 else bit_at bits i) }
{
    bits & !(1 << at)
}

/// The bits with this one.
fn with(bits: u64, at: u32) -> u64
    requires { at < 64 }
    ensures { (i : ℕ) → i < 64 → bit_at result i ≡ (if i == at then 1 else bit_at bits i) }
{
    bits | (1 << at)
}

impl<A: Allocator> RootSeat<A> {
    #[tactic(auto, using(crate::proofs::Numbering::next_is))]
    /// The number that the next thread gets: the lowest that nobody has.
    pub fn next(&self) -> u32
        ensures { result ≡ next_thread self.now.view }
    {
        lowest(self.free) + 1
    }

    #[tactic(auto, using(crate::proofs::Numbering::next_is))]
    /// Whether that number was used before: then its thread has to open its queue words.
    pub fn is_again(&self) -> bool
        ensures { result ≡ is_again self.now.view }
    {
        self.next() < self.rows
    }
}

impl<A: Allocator> HeapTable<A> {
    #[tactic(auto, using(crate::proofs::Placing::split_allowed, crate::proofs::Placing::some_words, crate::proofs::Numbering::next_is, crate::proofs::Numbering::taken_number, crate::proofs::Numbering::taken_rows))]
    /// Register: a seat for the next thread.
    pub fn split(&self, root: &mut RootSeat<A>) -> ThreadSeat<A>
        requires table { root.old.table ≡ self.now.table }
        requires few { next_thread root.old.view ≤ MOST_THREADS }
        requires more { registrations root.old.view < MOST_REGISTRATIONS }
        ensures root { (root.new.table ≡ root.old.table) × (root.new.id ≡ root.old.id) }
        ensures told { root.new.view ≡ registering root.old.view }
        ensures table { result.table ≡ root.old.table }
        ensures thread { result.thread ≡ next_thread root.old.view }
        ensures begins { result.log ≡ (starting root.old.view).log }
        ensures bare { result.slots ≡ [] }
    {
        let thread = root.next();
        let place = self.table.shared.split_seat::<Registering>(&mut root.place);
        root.free = without(root.free, thread - 1);
        if thread == root.rows {
            root.rows = thread + 1;
        }
        ThreadSeat { place, thread }
    }

    #[tactic(auto, using(crate::proofs::Placing::join_allowed, crate::proofs::Placing::leaves_so, crate::proofs::Placing::some_words, crate::proofs::Numbering::given_number, crate::proofs::Numbering::given_rows))]
    /// Gather: the seat of a thread that has left and holds nothing.
    pub fn join(&self, root: &mut RootSeat<A>, seat: ThreadSeat<A>)
        requires table { root.old.table ≡ self.now.table }
        requires same_table { seat.table ≡ root.old.table }
        requires leaves { HasLeft self.now.cells (view_of seat) }
        requires bare { seat.slots ≡ [] }
        ensures root { (root.new.table ≡ root.old.table) × (root.new.id ≡ root.old.id) }
        ensures told { root.new.view ≡ gathering root.old.view (view_of seat) }
    {
        let ThreadSeat { place, thread } = seat;
        self.table
            .shared
            .join_seat::<Gathering>(&mut root.place, place);
        root.free = with(root.free, thread - 1);
    }
}
