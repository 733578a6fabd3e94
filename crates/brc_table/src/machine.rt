//! One function for each operation on a word. The caller says which event or look it is, and owes that the operation is
//! allowed as that; the seat's log then has it.

ghost use Rattle.std.specs.Prelude.{◌≡◌, ◌≢◌, ◌+◌, ◌%◌, ◌==◌, ◌<◌, ◌≤◌, ℕ, Bool, true, false, if◌then◌else◌, bit_or, IsTrue, IsFalse};
ghost use prog.Atomic.{either};
ghost use Rattle.law.specs.world.Lists.{WORD_LIMIT};
ghost use Rattle.law.specs.declared.known.word.Word.{Word as word_data};
ghost use Rattle.law.specs.declared.known.word.Word.TheVariants as words;
ghost use Rattle.law.specs.known.Items.{IsWord};
ghost use Rattle.law.specs.declared.rule.told.Moved.TheVariants as moves;
ghost use Rattle.law.specs.declared.rule.told.LogItem.{LogItem as told_data};
ghost use Rattle.law.specs.declared.rule.told.LogItem.TheVariants as told;
ghost use Rattle.law.specs.rule.Rule.{with_told};
ghost use Rattle.law.specs.steps.Taking.{CountsSome};
ghost use Rattle.brc_table.specs.Machine.{MayTell, MaySum, MayFind, MayExchange, exchanged};
ghost use Rattle.brc_table.specs.Shown.{shows};

use crate::layout::spot_of;
use crate::table::HeapTable;
use atomic_table::{Play, Seat};
use brc_block::Block;
use law::known::Word;
use law::rule::View;
use law::world::Step;
use std::alloc::Allocator;
use std::marker::{Brand, PhantomData};

/// Which item an operation is, by the number that it is told. A caller's proof picks it.
pub(crate) trait ToldItem {
    ghost item: { ℕ → told_data };
}

impl ToldItem for Brand {
    ghost item = { λ number. told.Loaded (words.NotifyWord 0) number };
}

/// The seat's log has the item, and its slots stay.
pub(crate) struct LogTells<M> {
    marker: PhantomData<M>,
}

impl<S, M: ToldItem> Play<S, View> for LogTells<M> {
    ghost then = { λ step me number after. after ≡ (with_told (M.item number) me.0, me.1) };
}

/// Which item a compare-exchange is that wins, and which word it is made on.
pub(crate) trait Won {
    ghost item: { told_data };

    ghost word: { word_data };
}

impl Won for Brand {
    ghost item = { told.Loaded (words.NotifyWord 0) 0 };

    ghost word = { words.NotifyWord 0 };
}

/// The seat's log has the item where the number found was the one expected, and else a note of it.
pub(crate) struct LogExchanges<M> {
    marker: PhantomData<M>,
}

impl<S, M: Won> Play<S, View> for LogExchanges<M> {
    ghost then = { λ step me number after. after ≡ (exchanged M.word step.first M.item number me.0, me.1) };
}

pub(crate) type Place<A> = Seat<Option<Block<A>>, View>;

/// A load of a word that nobody writes, as an item that no word shows. The number is for whoever picks the item.
#[inline(always)]
fn tell_as<A: Allocator, M: ToldItem>(
    table: &HeapTable<A>,
    seat: &mut Place<A>,
    number: u64,
    step: Step,
) -> u64
    requires same { seat.old.table_id ≡ table.now.table }
    requires allowed { MayTell shows table.now.cells table.now.local_limit seat.old.id seat.old.me (words.NotifyWord 0)
        (λ there. there) (M.item) }
    ensures same { (seat.new.table_id ≡ seat.old.table_id) × (seat.new.id ≡ seat.old.id) }
    ensures told { seat.new.me ≡ (with_told (M.item result) seat.old.me.0, seat.old.me.1) }
{
    let _number = number;
    let _step = step;
    let at = spot_of(table.cells, Word::NotifyWord(0));
    table.table.shared.load::<LogTells<M>>(seat, at)
}

/// An event that works on no word of the table, and is told this number: its thread's log alone shows it.
#[inline(always)]
pub(crate) fn tell<A: Allocator>(table: &HeapTable<A>, seat: &mut Place<A>, number: u64, step: Step)
    requires same { seat.old.table_id ≡ table.now.table }
    requires allowed { MayTell shows table.now.cells table.now.local_limit seat.old.id seat.old.me (words.NotifyWord 0)
        (λ there. there) (λ _. told.Stepped step number moves.Nothing) }
    ensures same { (seat.new.table_id ≡ seat.old.table_id) × (seat.new.id ≡ seat.old.id) }
    ensures told { seat.new.me ≡ (with_told (told.Stepped step number moves.Nothing) seat.old.me.0, seat.old.me.1) }
{
    let _same = tell_as::<A, Brand>(table, seat, number, step);
}

/// A plain store, as an item.
#[inline(always)]
fn store_as<A: Allocator, M: ToldItem>(
    table: &HeapTable<A>,
    seat: &mut Place<A>,
    word: Word,
    new: u64,
    step: Step,
)
    requires same { seat.old.table_id ≡ table.now.table }
    requires inside { IsWord table.now.cells word }
    requires allowed { MayTell shows table.now.cells table.now.local_limit seat.old.id seat.old.me word (λ _. new)
        (λ _. M.item new) }
    ensures same { (seat.new.table_id ≡ seat.old.table_id) × (seat.new.id ≡ seat.old.id) }
    ensures told { seat.new.me ≡ (with_told (M.item new) seat.old.me.0, seat.old.me.1) }
{
    let _step = step;
    let at = spot_of(table.cells, word);
    table.table.shared.store::<LogTells<M>>(seat, at, new)
}

/// A plain store, as an event.
#[inline(always)]
pub(crate) fn store<A: Allocator>(
    table: &HeapTable<A>,
    seat: &mut Place<A>,
    word: Word,
    new: u64,
    step: Step,
)
    requires same { seat.old.table_id ≡ table.now.table }
    requires inside { IsWord table.now.cells word }
    requires allowed { MayTell shows table.now.cells table.now.local_limit seat.old.id seat.old.me word (λ _. new)
        (λ _. told.Stepped step new moves.Nothing) }
    ensures same { (seat.new.table_id ≡ seat.old.table_id) × (seat.new.id ≡ seat.old.id) }
    ensures told { seat.new.me ≡ (with_told (told.Stepped step new moves.Nothing) seat.old.me.0, seat.old.me.1) }
{
    store_as::<A, Brand>(table, seat, word, new, step)
}

/// Which item a store is, and which number it stores. A caller's proof picks both.
pub(crate) trait Stored {
    ghost item: { told_data };

    ghost number: { ℕ };
}

impl Stored for Brand {
    ghost item = { told.Loaded (words.NotifyWord 0) 0 };

    ghost number = { 0 };
}

/// A load that finds the number is the item, and any other is nothing.
pub(crate) struct LogIfThere<M> {
    marker: PhantomData<M>,
}

impl<S, M: Stored> Play<S, View> for LogIfThere<M> {
    ghost then = { λ step me number after. (number ≡ M.number → after ≡ (with_told M.item me.0, me.1))
        × (number ≢ M.number
        → after ≡ me) };
}

/// A load, which is the item of a store where the word has its number already.
#[inline(always)]
fn find_as<A: Allocator, M: Stored>(
    table: &HeapTable<A>,
    seat: &mut Place<A>,
    word: Word,
    new: u64,
    step: Step,
) -> bool
    requires same { seat.old.table_id ≡ table.now.table }
    requires inside { IsWord table.now.cells word }
    requires number { M.number ≡ new }
    requires allowed { MayTell shows table.now.cells table.now.local_limit seat.old.id seat.old.me word (λ _. new)
        (λ _. M.item) }
    ensures same { (seat.new.table_id ≡ seat.old.table_id) × (seat.new.id ≡ seat.old.id) }
    ensures told { IsTrue result → seat.new.me ≡ (with_told M.item seat.old.me.0, seat.old.me.1) }
    ensures other { IsFalse result → seat.new.me ≡ seat.old.me }
{
    let _step = step;
    let at = spot_of(table.cells, word);
    let found = table.table.shared.load::<LogIfThere<M>>(seat, at);
    found == new
}

/// Whether the word has a store's number already: then the load is that store's event.
#[inline(always)]
fn find<A: Allocator>(
    table: &HeapTable<A>,
    seat: &mut Place<A>,
    word: Word,
    new: u64,
    step: Step,
) -> bool
    requires same { seat.old.table_id ≡ table.now.table }
    requires inside { IsWord table.now.cells word }
    requires allowed { MayTell shows table.now.cells table.now.local_limit seat.old.id seat.old.me word (λ _. new)
        (λ _. told.Stepped step new moves.Nothing) }
    ensures same { (seat.new.table_id ≡ seat.old.table_id) × (seat.new.id ≡ seat.old.id) }
    ensures told { IsTrue result → seat.new.me ≡ (
      with_told (told.Stepped step new moves.Nothing) seat.old.me.0,
      seat.old.me.1,
    ) }
    ensures other { IsFalse result → seat.new.me ≡ seat.old.me }
{
    find_as::<A, Brand>(table, seat, word, new, step)
}

/// A store, as an event. Where the word has the number already, a load is that event, and nothing is stored.
#[inline(always)]
pub(crate) fn store_unless_there<A: Allocator>(
    table: &HeapTable<A>,
    seat: &mut Place<A>,
    word: Word,
    new: u64,
    step: Step,
)
    requires same { seat.old.table_id ≡ table.now.table }
    requires inside { IsWord table.now.cells word }
    requires allowed { MayTell shows table.now.cells table.now.local_limit seat.old.id seat.old.me word (λ _. new)
        (λ _. told.Stepped step new moves.Nothing) }
    ensures same { (seat.new.table_id ≡ seat.old.table_id) × (seat.new.id ≡ seat.old.id) }
    ensures told { seat.new.me ≡ (with_told (told.Stepped step new moves.Nothing) seat.old.me.0, seat.old.me.1) }
{
    if !find(table, seat, word, new, step) {
        store(table, seat, word, new, step);
    }
}

/// An addition, as an item.
#[inline(always)]
fn add_as<A: Allocator, M: ToldItem>(
    table: &HeapTable<A>,
    seat: &mut Place<A>,
    word: Word,
    more: u64,
    step: Step,
) -> u64
    requires same { seat.old.table_id ≡ table.now.table }
    requires inside { IsWord table.now.cells word }
    requires allowed { MayTell shows table.now.cells table.now.local_limit seat.old.id seat.old.me word
        (λ there. (there + more) % WORD_LIMIT) (M.item) }
    ensures same { (seat.new.table_id ≡ seat.old.table_id) × (seat.new.id ≡ seat.old.id) }
    ensures told { seat.new.me ≡ (with_told (M.item result) seat.old.me.0, seat.old.me.1) }
{
    let _step = step;
    let at = spot_of(table.cells, word);
    table.table.shared.fetch_add::<LogTells<M>>(seat, at, more)
}

/// An addition, as an event.
#[inline(always)]
pub(crate) fn add<A: Allocator>(
    table: &HeapTable<A>,
    seat: &mut Place<A>,
    word: Word,
    more: u64,
    step: Step,
) -> u64
    requires same { seat.old.table_id ≡ table.now.table }
    requires inside { IsWord table.now.cells word }
    requires allowed { MayTell shows table.now.cells table.now.local_limit seat.old.id seat.old.me word
        (λ there. (there + more) % WORD_LIMIT) (λ there. told.Stepped step there moves.Nothing) }
    ensures same { (seat.new.table_id ≡ seat.old.table_id) × (seat.new.id ≡ seat.old.id) }
    ensures told { seat.new.me ≡ (with_told (told.Stepped step result moves.Nothing) seat.old.me.0, seat.old.me.1) }
{
    add_as::<A, Brand>(table, seat, word, more, step)
}

/// Which item is told a sum, and by how much the word was raised. A caller's proof picks both.
pub(crate) trait Summed {
    ghost item: { ℕ → told_data };

    ghost more: { ℕ };
}

impl Summed for Brand {
    ghost item = { λ number. told.Loaded (words.NotifyWord 0) number };

    ghost more = { 0 };
}

/// The seat's log has the item, its slots stay, and the sum counts one reference at least.
pub(crate) struct LogSums<M> {
    marker: PhantomData<M>,
}

impl<S, M: Summed> Play<S, View> for LogSums<M> {
    ghost then = { λ step me number after. (after ≡ (with_told (M.item number) me.0, me.1)) × CountsSome
        ((number + M.more) % WORD_LIMIT) };
}

/// An addition to a shared word, as an item that is told the sum.
#[inline(always)]
pub(crate) fn add_up<A: Allocator, M: Summed>(
    table: &HeapTable<A>,
    seat: &mut Place<A>,
    word: Word,
    more: u64,
    step: Step,
) -> u64
    requires same { seat.old.table_id ≡ table.now.table }
    requires inside { IsWord table.now.cells word }
    requires allowed { MaySum shows table.now.cells table.now.local_limit seat.old.id seat.old.me word
        (λ there. (there + more) % WORD_LIMIT) M.item M.more }
    ensures same { (seat.new.table_id ≡ seat.old.table_id) × (seat.new.id ≡ seat.old.id) }
    ensures told { seat.new.me ≡ (with_told (M.item result) seat.old.me.0, seat.old.me.1) }
    ensures counts { CountsSome ((result + M.more) % WORD_LIMIT) }
{
    let _step = step;
    let at = spot_of(table.cells, word);
    table.table.shared.fetch_add::<LogSums<M>>(seat, at, more)
}

/// A setting of bits, as an item.
#[inline(always)]
fn or_as<A: Allocator, M: ToldItem>(
    table: &HeapTable<A>,
    seat: &mut Place<A>,
    word: Word,
    bits: u64,
    step: Step,
) -> u64
    requires same { seat.old.table_id ≡ table.now.table }
    requires inside { IsWord table.now.cells word }
    requires allowed { MayTell shows table.now.cells table.now.local_limit seat.old.id seat.old.me word
        (λ there. bit_or there bits) (M.item) }
    ensures same { (seat.new.table_id ≡ seat.old.table_id) × (seat.new.id ≡ seat.old.id) }
    ensures told { seat.new.me ≡ (with_told (M.item result) seat.old.me.0, seat.old.me.1) }
{
    let _step = step;
    let at = spot_of(table.cells, word);
    table.table.shared.fetch_or::<LogTells<M>>(seat, at, bits)
}

/// A setting of bits, as an event.
#[inline(always)]
pub(crate) fn or<A: Allocator>(
    table: &HeapTable<A>,
    seat: &mut Place<A>,
    word: Word,
    bits: u64,
    step: Step,
) -> u64
    requires same { seat.old.table_id ≡ table.now.table }
    requires inside { IsWord table.now.cells word }
    requires allowed { MayTell shows table.now.cells table.now.local_limit seat.old.id seat.old.me word
        (λ there. bit_or there bits) (λ there. told.Stepped step there moves.Nothing) }
    ensures same { (seat.new.table_id ≡ seat.old.table_id) × (seat.new.id ≡ seat.old.id) }
    ensures told { seat.new.me ≡ (with_told (told.Stepped step result moves.Nothing) seat.old.me.0, seat.old.me.1) }
{
    or_as::<A, Brand>(table, seat, word, bits, step)
}

/// A load, as an item of its word.
#[inline(always)]
fn look_as<A: Allocator, M: ToldItem>(table: &HeapTable<A>, seat: &mut Place<A>, word: Word) -> u64
    requires same { seat.old.table_id ≡ table.now.table }
    requires inside { IsWord table.now.cells word }
    requires allowed { MayTell shows table.now.cells table.now.local_limit seat.old.id seat.old.me word
        (λ there. there) M.item }
    ensures same { (seat.new.table_id ≡ seat.old.table_id) × (seat.new.id ≡ seat.old.id) }
    ensures told { seat.new.me ≡ (with_told (M.item result) seat.old.me.0, seat.old.me.1) }
{
    let at = spot_of(table.cells, word);
    table.table.shared.load::<LogTells<M>>(seat, at)
}

#[tactic(auto, using(law::proofs::rule::Looking::looks))]
/// A load, as a look, which is always allowed.
#[inline(always)]
pub(crate) fn look<A: Allocator>(table: &HeapTable<A>, seat: &mut Place<A>, word: Word) -> u64
    requires same { seat.old.table_id ≡ table.now.table }
    requires inside { IsWord table.now.cells word }
    requires active { seat.old.me.0.active ≡ true }
    ensures same { (seat.new.table_id ≡ seat.old.table_id) × (seat.new.id ≡ seat.old.id) }
    ensures told { seat.new.me ≡ (with_told (told.Loaded word result) seat.old.me.0, seat.old.me.1) }
{
    look_as::<A, Brand>(table, seat, word)
}

/// A compare-exchange, as an item or a note.
#[inline(always)]
fn exchange_as<A: Allocator, M: Won>(
    table: &HeapTable<A>,
    seat: &mut Place<A>,
    word: Word,
    old: u64,
    new: u64,
    step: Step,
) -> u64
    requires same { seat.old.table_id ≡ table.now.table }
    requires inside { IsWord table.now.cells word }
    requires allowed { MayExchange shows table.now.cells table.now.local_limit seat.old.id seat.old.me word M.word old
        new M.item }
    ensures same { (seat.new.table_id ≡ seat.old.table_id) × (seat.new.id ≡ seat.old.id) }
    ensures told { seat.new.me ≡ (exchanged M.word old M.item result seat.old.me.0, seat.old.me.1) }
{
    let _step = step;
    let at = spot_of(table.cells, word);
    table
        .table
        .shared
        .compare_exchange::<LogExchanges<M>>(seat, at, old, new)
}

/// A compare-exchange, as an event told the number expected, or a note of the number found.
#[inline(always)]
pub(crate) fn exchange<A: Allocator>(
    table: &HeapTable<A>,
    seat: &mut Place<A>,
    word: Word,
    old: u64,
    new: u64,
    step: Step,
) -> u64
    requires same { seat.old.table_id ≡ table.now.table }
    requires inside { IsWord table.now.cells word }
    requires allowed { MayExchange shows table.now.cells table.now.local_limit seat.old.id seat.old.me word word old new
        (told.Stepped step old moves.Nothing) }
    ensures same { (seat.new.table_id ≡ seat.old.table_id) × (seat.new.id ≡ seat.old.id) }
    ensures told { seat.new.me ≡ (
      exchanged word old (told.Stepped step old moves.Nothing) result seat.old.me.0,
      seat.old.me.1,
    ) }
{
    exchange_as::<A, Brand>(table, seat, word, old, new, step)
}

/// At which word a look is made, and how large a number it finds there at most, where the seat's log says so.
pub(crate) trait Bounded {
    ghost word: { word_data };

    ghost known: { Bool };

    ghost most: { ℕ };
}

impl Bounded for Brand {
    ghost word = { words.NotifyWord 0 };

    ghost known = { false };

    ghost most = { 0 };
}

/// The seat's log has the look, and the number is within its bound.
pub(crate) struct LogFinds<M> {
    marker: PhantomData<M>,
}

impl<S, M: Bounded> Play<S, View> for LogFinds<M> {
    ghost then = { λ step me number after. (after ≡ (with_told (told.Loaded M.word number) me.0, me.1))
        × (M.known ≡ true
        → number ≤ M.most) };
}

/// A load, as a look at a word of which the log tells a bound.
#[inline(always)]
pub(crate) fn look_within<A: Allocator, M: Bounded>(
    table: &HeapTable<A>,
    seat: &mut Place<A>,
    word: Word,
) -> u64
    requires same { seat.old.table_id ≡ table.now.table }
    requires inside { IsWord table.now.cells word }
    requires allowed { MayFind shows table.now.cells table.now.local_limit seat.old.id seat.old.me word M.word
        M.known M.most }
    ensures same { (seat.new.table_id ≡ seat.old.table_id) × (seat.new.id ≡ seat.old.id) }
    ensures told { seat.new.me ≡ (with_told (told.Loaded M.word result) seat.old.me.0, seat.old.me.1) }
    ensures within { M.known ≡ true → result ≤ M.most }
{
    let at = spot_of(table.cells, word);
    table.table.shared.load::<LogFinds<M>>(seat, at)
}
