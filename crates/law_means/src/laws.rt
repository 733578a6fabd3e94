//! The laws of the plain meaning that a running section is held against, each as the contract of a function with
//! nothing to do.

ghost use Rattle.std.specs.Prelude.{◌≡◌, ℕ, Bool, List, ◌++◌, length, false, true, IfOk, Err};
ghost use Rattle.std.specs.List.{All};
ghost use Rattle.brc_script.specs.declared.instruction.Instruction.{Instruction as instruction};
ghost use Rattle.brc_script.specs.declared.script.Section.{Section as TheSection};
ghost use Rattle.brc_script.specs.Instructions.{NumberedLine, is_shared};
ghost use Rattle.brc_script.specs.Scripts.{is_private};
ghost use Rattle.brc_meaning.specs.declared.state.State.{State as state};
ghost use Rattle.brc_meaning.specs.States.{start};
ghost use Rattle.brc_meaning.specs.Steps.{after};
ghost use Rattle.brc_meaning.specs.Wholes.{ended};
ghost use Rattle.brc_meaning.specs.Sections.{SectionStop, lines_after, written_out, told, meaning};
ghost use Rattle.law_means.specs.Within.{IsWithin, joined};
ghost use Rattle.law_means.specs.Fronts.{AddsTo, IsFrontOf};

use std::alloc::Allocator;

/// Where registers, and the objects of a part, refer into that part, they still do after an instruction, and wherever
/// lines lead, with the objects made since in it. A section starts within any part.
pub fn lines_stay_within<A: Allocator>()
    ensures begins { (part : ℕ → Bool) → IsWithin {A = A} part start }
    ensures one { (part : ℕ → Bool) (step : instruction A) (s : state A) → IsWithin part s
        → IfOk (after step s) (IsWithin (joined (length s.objects) part)) }
    ensures all { (part : ℕ → Bool) (lines : List (NumberedLine A)) (s : state A) → IsWithin part s
        → IsWithin (joined (length s.objects) part) (ended (lines_after lines s)) }
{}

/// More lines only add to what is printed, and to the objects that were made.
pub fn lines_only_add<A: Allocator>()
    ensures one { (step : instruction A) (s : state A) → IfOk (after step s) (AddsTo s) }
    ensures all { (lines later : List (NumberedLine A)) (s : state A)
        → AddsTo (ended (lines_after lines s)) (ended (lines_after (lines ++ later) s)) }
{}

/// Where the first lines of a section lead is a front of its meaning; and where they end by a fault, that is its
/// meaning.
pub fn meanings_have_fronts<A: Allocator>()
    ensures front { (section : TheSection A) (lines later : List (NumberedLine A))
        → written_out section.pieces ≡ lines ++ later
        → IsFrontOf (ended (lines_after lines start)) (meaning section) }
    ensures stop { (section : TheSection A) (lines later : List (NumberedLine A)) (stop : SectionStop A)
        → written_out section.pieces ≡ lines ++ later → lines_after lines start ≡ Err stop
        → meaning section ≡ told (Err stop) }
{}

/// No line of a private section looks into the globals, or changes them, its `repeat`s written out.
pub fn private_sections_share_nothing<A: Allocator>()
    ensures { (section : TheSection A) → is_private section ≡ true
        → All (λ line. is_shared line.instruction ≡ false) (written_out section.pieces) }
{}
