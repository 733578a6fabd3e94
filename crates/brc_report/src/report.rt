//! A report, and its text.

ghost use Rattle.std.specs.Prelude.{◌≡◌, ◌++◌, ◌⊎◌, true, false, IfSome, IfNone};
ghost use Rattle.brc_text.specs.Puts.{PutsText};
ghost use Rattle.brc_report.specs.Spelled.{is_spelled, all_spelled, has_cells, all_have_cells};
ghost use Rattle.brc_report.specs.Texts.{kind_word, ledger_line, remain_line, remains_text, cycle_line, cycles_text};
ghost use Rattle.brc_report.specs.Texts.{report_text};

use crate::content::{Cells, Content, Remain};
use brc_text::{Keyword, Token, put_headed_line, put_line, put_numbers_line};
use brc_words::{FIRST_MORTAL, Fault, Kind};
use std::alloc::Allocator;
use std::io::Write;

/// How many objects all threads made, and how many they freed.
#[derive(Clone, Copy, Debug, PartialEq, Eq)]
pub struct Ledger {
    pub allocs: u64,
    pub frees: u64,
}

/// What is said of a heap that was closed.
#[derive(Drop)]
pub struct Report<A: Allocator> {
    pub ledger: Ledger,
    pub live: u64,
    pub remains: Vec<Remain, A>,
    pub cycles: Vec<Cells<A>, A>,
    pub contents: Vec<Content<A>, A>,

    // A text spells it: each remain is a mortal cell of a mortal kind, and each cycle has a cell.
    pub ghost remains_spelled: { all_spelled remains.items ≡ true },
    pub ghost cycles_spelled: { all_have_cells cycles.items ≡ true },
}

/// Whether a text spells the remain.
fn is_spelled(remain: &Remain) -> bool
    ensures { result ≡ is_spelled remain.now }
{
    if remain.cell < FIRST_MORTAL {
        return false;
    }
    match remain.kind {
        Kind::Int | Kind::Text | Kind::List | Kind::Dict | Kind::Mailbox => true,
        Kind::Nothing | Kind::False | Kind::True => false,
    }
}

/// Whether a text spells all remains.
fn all_spelled(remains: &[Remain]) -> bool
    ensures { result ≡ all_spelled remains.now }
{
    for remain in remains {
        if !is_spelled(remain) {
            return false;
        }
    }
    true
}

/// Whether all cycles have cells.
fn all_have_cells<A: Allocator>(cycles: &[Cells<A>]) -> bool
    ensures { result ≡ all_have_cells cycles.now }
{
    for cycle in cycles {
        if cycle.as_slice().len() == 0 {
            return false;
        }
    }
    true
}

impl<A: Allocator> Report<A> {
    /// A report of these; None where no text spells it: where a remain is no mortal cell or of no mortal kind, or a
    /// cycle has no cell.
    pub fn new(
        ledger: Ledger,
        live: u64,
        remains: Vec<Remain, A>,
        cycles: Vec<Cells<A>, A>,
        contents: Vec<Content<A>, A>,
    ) -> Option<Report<A>>
        ensures numbers { IfSome result (λ report. (report.ledger ≡ ledger) × (report.live ≡ live)) }
        ensures parts { IfSome result (λ report.
            (report.remains ≡ remains) × (report.cycles ≡ cycles) × (report.contents ≡ contents)) }
        ensures none { IfNone result ((all_spelled remains.items ≡ false) ⊎ (all_have_cells cycles.items ≡ false)) }
    {
        if !all_spelled(remains.as_slice()) {
            return None;
        }
        if !all_have_cells(cycles.as_slice()) {
            return None;
        }
        Some(Report {
            ledger,
            live,
            remains,
            cycles,
            contents,
        })
    }
}

fn word_of_kind(kind: Kind) -> Keyword
    ensures { result ≡ kind_word kind }
{
    match kind {
        Kind::Int => Keyword::Int,
        Kind::Text => Keyword::Text,
        Kind::List => Keyword::List,
        Kind::Dict => Keyword::Dict,
        Kind::Mailbox => Keyword::Mailbox,
        Kind::Nothing | Kind::False | Kind::True => Keyword::Dash,
    }
}

/// Writes the ledger and how many objects live.
fn put_ledger<W: Write>(writer: &mut W, ledger: &Ledger, live: u64) -> Result<(), Fault>
    ensures { PutsText (W.contents writer.old) (W.contents writer.new) result (ledger_line ledger.now live) }
{
    put_line(
        writer,
        &[
            Token::Word(Keyword::Ledger),
            Token::Number(ledger.allocs),
            Token::Number(ledger.frees),
            Token::Number(live),
        ],
    )
}

/// Writes one remain.
fn put_remain<W: Write>(writer: &mut W, remain: Remain) -> Result<(), Fault>
    ensures { PutsText (W.contents writer.old) (W.contents writer.new) result (remain_line remain) }
{
    put_headed_line(
        writer,
        b"remain",
        &[
            Token::Number(remain.cell as u64),
            Token::Word(word_of_kind(remain.kind)),
            Token::Number(remain.held_by as u64),
        ],
    )
}

fn put_remains<W: Write>(writer: &mut W, remains: &[Remain]) -> Result<(), Fault>
    ensures { PutsText (W.contents writer.old) (W.contents writer.new) result (remains_text remains.now) }
{
    for remain in remains {
        put_remain(writer, *remain)?;
    }
    Ok(())
}

/// Writes one cycle.
fn put_cycle<W: Write>(writer: &mut W, cells: &[u32]) -> Result<(), Fault>
    ensures { PutsText (W.contents writer.old) (W.contents writer.new) result (cycle_line cells.now) }
{
    put_numbers_line(writer, b"cycle", cells)
}

fn put_cycles<A: Allocator, W: Write>(writer: &mut W, cycles: &[Cells<A>]) -> Result<(), Fault>
    ensures { PutsText (W.contents writer.old) (W.contents writer.new) result (cycles_text cycles.now) }
{
    for cycle in cycles {
        put_cycle(writer, cycle.as_slice())?;
    }
    Ok(())
}

fn put_report_remains<A: Allocator, W: Write>(
    report: &Report<A>,
    writer: &mut W,
) -> Result<(), Fault>
    ensures { PutsText (W.contents writer.old) (W.contents writer.new) result (remains_text report.now.remains.items) }
{
    put_remains(writer, report.remains.as_slice())
}

fn put_report_cycles<A: Allocator, W: Write>(
    report: &Report<A>,
    writer: &mut W,
) -> Result<(), Fault>
    ensures { PutsText (W.contents writer.old) (W.contents writer.new) result (cycles_text report.now.cycles.items) }
{
    put_cycles(writer, report.cycles.as_slice())
}

/// Writes what stands behind the ledger.
fn put_rest<A: Allocator, W: Write>(report: &Report<A>, writer: &mut W) -> Result<(), Fault>
    ensures { PutsText (W.contents writer.old) (W.contents writer.new) result
        (remains_text report.now.remains.items ++ cycles_text report.now.cycles.items) }
{
    put_report_remains(report, writer)?;
    put_report_cycles(report, writer)
}

/// Writes the text of the report: all of it, or Io after a front of it. No memory is taken.
pub fn write_report<A: Allocator, W: Write>(report: &Report<A>, writer: &mut W) -> Result<(), Fault>
    ensures { PutsText (W.contents writer.old) (W.contents writer.new) result
        (report_text report.now.ledger report.now.live report.now.remains.items report.now.cycles.items) }
{
    put_ledger(writer, &report.ledger, report.live)?;
    put_rest(report, writer)
}
