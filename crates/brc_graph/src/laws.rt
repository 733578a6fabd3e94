//! What the grammar comes to.

ghost use Rattle.std.specs.Prelude.{◌≡◌, ◌≤◌, ◌++◌, ℕ, List, length, Ok};
ghost use Rattle.std.specs.List.{AllByRecursion};
ghost use Rattle.brc_words.specs.declared.limits.TheConstants.{MOST_INPUT};
ghost use Rattle.brc_report.specs.declared.content.Remain.{Remain as TheRemain};
ghost use Rattle.brc_report.specs.declared.report.Ledger.{Ledger as TheLedger};
ghost use Rattle.brc_report.specs.Texts.{report_text};
ghost use Rattle.brc_graph.specs.Reading.{graph_at};
ghost use Rattle.brc_graph.specs.Reports.{IsHeapReport, IsPrinted, printed_text, printed_drawn, report_drawn};

use std::alloc::Allocator;

/// The text that `write_report` writes of a heap is read as its remains and its cycles, in their order, also below lines
/// that sections printed.
pub fn reports_are_read<A: Allocator>()
    ensures { (printed : List (List ℕ)) (ledger : TheLedger) (live : ℕ) (remains : List TheRemain)
        (cycles : List (List ℕ))
        → AllByRecursion IsPrinted printed → IsHeapReport ledger live remains cycles
        → length (printed_text printed ++ report_text ledger live remains cycles) ≤ MOST_INPUT
        → graph_at {A = A} (printed_text printed ++ report_text ledger live remains cycles)
        ≡ Ok (printed_drawn printed ++ report_drawn remains cycles) }
{}
