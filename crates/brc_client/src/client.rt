//! A thread's references by numbers: how they are found, made more and let go.

ghost use Rattle.std.specs.Prelude.{◌≡◌, ◌-◌, ◌<◌, ◌≤◌, ◌⊎◌, ℕ, Some, None, [], length, slice_set, IfOk, IfErr};
ghost use Rattle.std.specs.Prelude.{OnOk, OnErr, IsTrue, IsFalse};
ghost use Rattle.brc_count.specs.biased.Bounded.{IsBounded};
ghost use Rattle.brc_count.specs.Owned.{Loses};
ghost use Rattle.brc_count.specs.Polling.{Polled};
ghost use Rattle.brc_count.specs.Closing.{GoesOut};
ghost use Rattle.brc_count.specs.Frames.{Owns, Turns, HasSpare, IsUnlocked, KeepsHandles, ledger_seen, word_asked};
ghost use Rattle.brc_handles.specs.Handles.{slot, filled, IsApart, IsBare, ComesIn};
ghost use Rattle.brc_client.specs.Numbers.{number_at, place_in, stamp_in};
ghost use Rattle.brc_client.specs.Clients.{IsClient, KeptGoes, Names, NamesIn, NamesNone, NamesNoneIn, kept_count};
ghost use Rattle.brc_client.specs.Clients.{KeepsNumbers, KeepsNames, SpendsName, SpendsEach, SameClient};
ghost use Rattle.brc_client.specs.Calls.{OfNamed, RefusedOf, Adds, Retained, Releases};

use crate::numbers::{Numbers, PLACES};
use crate::status::Status;
use brc_count::{Frame, Handle, Ledger};
use brc_handles::Handles;
use brc_heap::{Shared, Sight};
use brc_thread::{Leaving, Mutator};
use std::alloc::{AllocError, Global};
use std::marker::Model;

/// A thread with nothing locked, and a place for each reference that it can have.
pub struct Client {
    pub(crate) mutator: Mutator<Shared, Global>,
    /// Each handle lies in the place that has its own number in the frame.
    pub(crate) handles: Handles<Global>,
    pub(crate) numbers: Numbers,
    /// The heap's root as it was seen when the thread forked last.
    pub(crate) seen: Option<Sight>,
    /// A handle to None, once a scalar went in; it has no number.
    pub(crate) none: Option<Handle<Global>>,
}

impl Model for Client {
    ghost use Rattle.brc_client.specs.Clients.{ClientSeen, IsClient};

    ghost Value = { ClientSeen };

    ghost view = { λ c. record {
      frame = c.mutator;
      handles = c.handles;
      numbers = c.numbers;
      seen = c.seen;
      none = c.none;
    } };

    ghost invariant = { λ c. IsClient c.mutator c.handles c.none };
}

/// The handle into its own place, which is empty.
#[inline(always)]
pub(crate) fn lay(handles: &mut Handles<Global>, given: Handle<Global>)
    requires inside { given.place < 65536 }
    requires places { length handles.old ≡ 65536 }
    requires empty { slot handles.old given.place ≡ None }
    requires apart { IsApart given handles.old }
    ensures set { handles.new ≡ slice_set handles.old given.place (Some given) }
    ensures comes { ComesIn handles.old handles.new given }
{
    match handles.put(given.place() as usize, given) {
        None => (),
        Some(_gone) => unreachable!(),
    }
}

/// The handle into its own place, which is empty, and its number.
#[inline(always)]
pub(crate) fn insert(handles: &mut Handles<Global>, numbers: &Numbers, given: Handle<Global>) -> u64
    requires inside { given.place < 65536 }
    requires places { length handles.old ≡ 65536 }
    requires empty { slot handles.old given.place ≡ None }
    requires apart { IsApart given handles.old }
    ensures set { handles.new ≡ slice_set handles.old given.place (Some given) }
    ensures comes { ComesIn handles.old handles.new given }
    ensures number { result ≡ number_at numbers.now given.place }
{
    let place = given.place() as usize;
    lay(handles, given);
    numbers.number(place)
}

/// The handle that the number names. Foreign, then Stale, if it names none.
#[tactic(auto, using(crate::proofs::Named::found, crate::proofs::Named::stale, crate::proofs::Named::misspelt))]
#[inline(always)]
pub(crate) fn find<'h>(
    handles: &'h Handles<Global>,
    numbers: &Numbers,
    number: u64,
) -> Result<&'h Handle<Global>, Status>
    requires places { length handles.now ≡ 65536 }
    ensures named { IfOk result (λ handle. NamesIn handles.now numbers.now number handle.now) }
    ensures stamp { OnOk result (stamp_in number ≡ numbers.now.stamp) }
    ensures refused { IfErr result (NamesNoneIn handles.now numbers.now number) }
{
    let place = numbers.place(number)?;
    match handles.at(place) {
        Some(handle) => Ok(handle),
        None => Err(Status::Stale),
    }
}

/// The reference goes, by a call.
#[cold]
#[inline(never)]
fn release_late(frame: &mut Frame<Shared, Global>, handle: Handle<Global>)
    requires owned { Owns frame.old handle }
    requires unlocked { IsUnlocked frame.old }
    ensures heap { frame.new.heap ≡ frame.old.heap }
    ensures bounded { IsBounded frame.old.seat.log frame.new.seat.log }
    ensures loses { Loses frame.old frame.new handle }
    ensures unlocked { IsUnlocked frame.new }
{
    frame.release(handle);
}

/// How many handles that is.
#[inline(always)]
fn kept_in(none: &Option<Handle<Global>>) -> usize
    ensures { result ≡ kept_count none.now }
{
    match none {
        Some(_kept) => 1,
        None => 0,
    }
}

/// All handles go, by rising place, and their numbers with them; but the one that is kept stays.
#[tactic(auto, using(crate::proofs::Spending::begins, crate::proofs::Spending::passes, crate::proofs::Spending::vacates))]
fn release_each(
    frame: &mut Frame<Shared, Global>,
    handles: &mut Handles<Global>,
    numbers: &mut Numbers,
    none: &Option<Handle<Global>>,
)
    requires client { IsClient frame.old handles.old none.now }
    ensures client { IsClient frame.new handles.new none.now }
    ensures none { IsBare handles.new }
    ensures spent { SpendsEach handles.old numbers.old numbers.new }
    ensures heap { frame.new.heap ≡ frame.old.heap }
{
    let kept = kept_in(none);
    for at in 0..PLACES {
        if frame.len() == kept {
            break;
        }
        if let Some(handle) = handles.take(at) {
            numbers.spend(at);
            frame.release(handle);
        }
    }
}

impl Client {
    /// A thread that has no reference yet.
    #[tactic(auto, using(crate::proofs::Placed::opens))]
    pub(crate) fn new(
        mutator: Mutator<Shared, Global>,
        handles: Handles<Global>,
        numbers: Numbers,
    ) -> Client
        requires idle { mutator.len ≡ 0 }
        requires unlocked { IsUnlocked mutator }
        requires bare { IsBare handles }
        requires places { length handles ≡ 65536 }
        ensures frame { result.frame ≡ mutator }
        ensures numbers { result.numbers ≡ numbers }
        ensures none { IsBare result.handles }
        ensures unkept { result.none ≡ None }
    {
        Client {
            mutator,
            handles,
            numbers,
            seen: None,
            none: None,
        }
    }

    /// What the stamps of its heap's registrations begin with.
    pub(crate) fn first(&self) -> u32
        ensures { result ≡ self.now.numbers.of.first }
    {
        self.numbers.first()
    }

    /// The heap's root was seen.
    pub(crate) fn note(&mut self, seen: Option<Sight>)
        ensures same { SameClient self.old self.new }
        ensures seen { self.new.seen ≡ seen }
    {
        self.seen = seen;
    }

    /// The place of the handle that the number names. Foreign, then Stale, if it names none.
    #[inline(always)]
    pub(crate) fn place_of(&self, number: u64) -> Result<usize, Status>
        ensures place { IfOk result (λ place. place ≡ place_in number) }
        ensures inside { IfOk result (λ place. place < 65536) }
        ensures named { OnOk result (Names self.now number) }
        ensures stamp { OnOk result (stamp_in number ≡ self.now.numbers.stamp) }
        ensures refused { IfErr result (NamesNone self.now number) }
    {
        let _handle = find(&self.handles, &self.numbers, number)?;
        Ok((number % 65_536) as usize)
    }

    /// How many references the thread has.
    pub fn count(&mut self) -> usize
        ensures count { result ≡ filled self.old.handles }
        ensures same { self.new ≡ self.old }
    {
        self.mutator.frame().len() - kept_in(&self.none)
    }

    /// What the thread has made and given back since it was registered.
    pub fn ledger(&self) -> Ledger
        ensures { result ≡ ledger_seen self.now.frame }
    {
        self.mutator.ledger()
    }

    /// Whether a place is ready for the next reference, so that one more needs no memory.
    #[inline(always)]
    pub fn is_ready(&self) -> bool
        ensures ready { IsTrue result → HasSpare self.now.frame }
        ensures none { IsFalse result → ¬ HasSpare self.now.frame }
    {
        self.mutator.spare_place().is_some()
    }

    /// One reference more to the object, under a number of its own. Foreign, Stale; then FrameFull, if the thread has
    /// 65,536 references, and OutOfMemory.
    #[inline(always)]
    pub fn retain(&mut self, number: u64) -> Result<u64, Status>
        ensures more { IfOk result (λ more. OfNamed self.old number
            (λ object. Adds (Retained self.old.frame object.place) self.old self.new more)) }
        ensures refused { IfErr result (RefusedOf (λ k fault. Retained self.old.frame k self.new.frame (Err fault))
            self.old self.new number) }
        ensures names { IfOk result (Names self.new) }
        ensures keeps { KeepsNames self.old self.new }
        ensures unchanged { OnErr result (KeepsNumbers self.old self.new) }
    {
        // With a place ready nothing is called here, so no register is saved.
        match self.mutator.spare_place() {
            Some(place) => self.retain_into(number, place as usize),
            None => self.retain_late(number),
        }
    }

    /// As `retain`, where the next place is known.
    #[tactic(auto, using(crate::proofs::Placed::owned, crate::proofs::Placed::vacant, crate::proofs::Placed::apart, crate::proofs::Placed::gained, crate::proofs::Placed::keeps, crate::proofs::Named::names_kept, crate::proofs::Named::names_given))]
    #[inline(always)]
    fn retain_into(&mut self, number: u64, place: usize) -> Result<u64, Status>
        requires next { self.old.frame.next ≡ place }
        requires inside { place < 65536 }
        ensures more { IfOk result (λ more. OfNamed self.old number
            (λ object. Adds (Retained self.old.frame object.place) self.old self.new more)) }
        ensures refused { IfErr result (RefusedOf (λ k fault. Retained self.old.frame k self.new.frame (Err fault))
            self.old self.new number) }
        ensures names { IfOk result (Names self.new) }
        ensures keeps { KeepsNames self.old self.new }
        ensures unchanged { OnErr result (KeepsNumbers self.old self.new) }
    {
        let handle = find(&self.handles, &self.numbers, number)?;
        // The number comes first: another thread's object is counted by a locked instruction, and later loads wait for
        // it.
        let more = self.numbers.number(place);
        match self.mutator.frame().retain(handle) {
            Ok(given) => {
                lay(&mut self.handles, given);
                Ok(more)
            }
            Err(fault) => Err(Status::Fault(fault)),
        }
    }

    /// As `retain`, by a call.
    #[tactic(auto, using(crate::proofs::Placed::owned, crate::proofs::Placed::vacant, crate::proofs::Placed::apart, crate::proofs::Placed::gained, crate::proofs::Placed::keeps, crate::proofs::Named::names_kept, crate::proofs::Named::names_given))]
    #[cold]
    #[inline(never)]
    fn retain_growing(&mut self, number: u64) -> Result<u64, Status>
        ensures more { IfOk result (λ more. OfNamed self.old number
            (λ object. Adds (Retained self.old.frame object.place) self.old self.new more)) }
        ensures refused { IfErr result (RefusedOf (λ k fault. Retained self.old.frame k self.new.frame (Err fault))
            self.old self.new number) }
        ensures names { IfOk result (Names self.new) }
        ensures keeps { KeepsNames self.old self.new }
        ensures unchanged { OnErr result (KeepsNumbers self.old self.new) }
    {
        let handle = find(&self.handles, &self.numbers, number)?;
        match self.mutator.frame().retain(handle) {
            Ok(given) => Ok(insert(&mut self.handles, &self.numbers, given)),
            Err(fault) => Err(Status::Fault(fault)),
        }
    }

    /// As `retain`, by a call. What this returns into is set to zero here, and not where no call is made.
    #[inline(always)]
    fn retain_late(&mut self, number: u64) -> Result<u64, Status>
        ensures more { IfOk result (λ more. OfNamed self.old number
            (λ object. Adds (Retained self.old.frame object.place) self.old self.new more)) }
        ensures refused { IfErr result (RefusedOf (λ k fault. Retained self.old.frame k self.new.frame (Err fault))
            self.old self.new number) }
        ensures names { IfOk result (Names self.new) }
        ensures keeps { KeepsNames self.old self.new }
        ensures unchanged { OnErr result (KeepsNumbers self.old self.new) }
    {
        match self.retain_growing(number) {
            Ok(more) => Ok(more),
            Err(status) => Err(status),
        }
    }

    /// The reference goes, in at most `MOST_EVENTS` events whatever others do, and its number names nothing any more.
    /// Foreign, Stale. It takes no memory, and waits for nobody.
    #[tactic(auto, using(crate::proofs::Placed::lost, crate::proofs::Named::name_spent))]
    #[inline]
    pub fn release(&mut self, number: u64) -> Result<(), Status>
        ensures released { OnOk result (Releases self.old self.new number) }
        ensures spent { OnOk result (SpendsName self.old self.new number) }
        ensures bounded { IsBounded self.old.frame.seat.log self.new.frame.seat.log }
        ensures refused { IfErr result (NamesNone self.old number) }
        ensures unchanged { OnErr result (self.new ≡ self.old) }
    {
        let place = self.place_of(number)?;
        let Some(handle) = self.handles.take(place) else {
            unreachable!()
        };
        self.numbers.spend(place);

        // A release of one of several counts needs no call.
        match self.mutator.frame().release_counted(handle) {
            Ok(()) => Ok(()),
            Err(handle) => {
                release_late(self.mutator.frame(), handle);
                Ok(())
            }
        }
    }

    /// All references of the thread go, and no number names anything any more. It takes no memory, and waits for nobody.
    #[tactic(auto, using(crate::proofs::Named::nameless))]
    pub fn release_all(&mut self)
        ensures none { IsBare self.new.handles }
        ensures nameless { (n : ℕ) → Names self.new n → ⊥ }
        ensures spent { SpendsEach self.old.handles self.old.numbers self.new.numbers }
        ensures heap { self.new.frame.heap ≡ self.old.frame.heap }
    {
        release_each(
            self.mutator.frame(),
            &mut self.handles,
            &mut self.numbers,
            &self.none,
        );
    }

    /// What others asked for is dealt with: the answer is 0 if nobody did since the last poll. It takes no memory.
    #[tactic(auto, using(crate::proofs::Placed::keeps))]
    #[inline]
    pub fn poll(&mut self) -> u64
        ensures handles { KeepsHandles self.old.frame self.new.frame }
        ensures polled { Polled self.old.frame self.new.frame result }
        ensures quiet { result ≡ 0 → self.new.frame.works ≡ self.old.frame.works }
        ensures keeps { KeepsNumbers self.old self.new }
    {
        self.mutator.poll()
    }

    /// Dead objects are taken apart, at most so many turns. The answer is the number of turns that weren't needed: above
    /// 0 only if no dead object is left. It takes no memory.
    #[tactic(auto, using(crate::proofs::Placed::keeps))]
    #[inline]
    pub fn work(&mut self, turns: usize) -> usize
        ensures handles { KeepsHandles self.old.frame self.new.frame }
        ensures few { result ≤ turns }
        ensures turns { Turns self.old.frame (turns - result) self.new.frame }
        ensures done { 0 < result → self.new.frame.works ≡ [] }
        ensures keeps { KeepsNumbers self.old self.new }
    {
        self.mutator.work(turns)
    }

    /// From now on the thread's claims begin with the cells beside this one, as `claim_from` and `claim_near` of
    /// `brc_thread` have it.
    #[tactic(auto, using(crate::proofs::Placed::keeps))]
    pub fn claim(&mut self, cell: u32, near: bool)
        ensures from { self.new.frame.from ≡ word_asked self.old.frame.heap.cells cell }
        ensures near { self.new.frame.near ≡ near }
        ensures keeps { KeepsNumbers self.old self.new }
    {
        if near {
            self.mutator.claim_near(cell);
        } else {
            self.mutator.claim_from(cell);
        }
    }

    /// Its heap, once more. It is refused once some 2^63 lead to it.
    pub(crate) fn home(&mut self) -> Result<Shared, AllocError>
        ensures heap { IfOk result (λ shared. shared.heap ≡ self.old.frame.heap) }
        ensures same { self.new ≡ self.old }
    {
        self.mutator.frame().home().again()
    }

    /// The handle to None goes that was kept for scalars, if there is one.
    pub(crate) fn let_none_go(&mut self)
        ensures gone { self.new.none ≡ None }
        ensures goes { KeptGoes self.old.frame self.old.none self.new.frame }
        ensures heap { self.new.frame.heap ≡ self.old.frame.heap }
        ensures thread { self.new.frame.seat.thread ≡ self.old.frame.seat.thread }
        ensures handles { self.new.handles ≡ self.old.handles }
        ensures numbers { self.new.numbers ≡ self.old.numbers }
    {
        if let Some(kept) = self.none.take() {
            self.mutator.frame().release(kept);
        }
    }

    /// The thread leaves; or it is as it was, if it has a reference or a dead object.
    #[tactic(auto, using(crate::proofs::Placed::none_counted))]
    pub(crate) fn leave(self) -> Result<Leaving<Shared, Global>, Client>
        requires unkept { self.none ≡ None }
        ensures heap { IfOk result (λ leaving. leaving.heap ≡ self.frame.heap) }
        ensures thread { IfOk result (λ leaving. leaving.seat.thread ≡ self.frame.seat.thread) }
        ensures goes { IfOk result (λ leaving. GoesOut self.frame leaving) }
        ensures idle { OnOk result (filled self.handles ≡ 0) }
        ensures refused { OnErr result ((0 < filled self.handles) ⊎ (0 < length self.frame.works)) }
        ensures unchanged { IfErr result (λ same. same ≡ self) }
    {
        let Client {
            mutator,
            handles,
            numbers,
            seen,
            none,
        } = self;
        match none {
            None => (),
            Some(_kept) => unreachable!(),
        }
        match mutator.leave() {
            Ok(leaving) => {
                handles.spend();
                Ok(leaving)
            }
            Err(mutator) => Err(Client {
                mutator,
                handles,
                numbers,
                seen,
                none: None,
            }),
        }
    }
}

/// The thread is given up: its references are released first. So its heap can't be closed any more, only dropped.
impl Drop for Client {
    fn drop(self) {
        let Client {
            mutator,
            handles,
            numbers: _numbers,
            seen: _seen,
            none,
        } = self;
        let mut mutator = mutator;
        if let Some(kept) = none {
            mutator.frame().release(kept);
        }
        handles.release_all(mutator.frame());
        mutator.abandon();
    }
}
