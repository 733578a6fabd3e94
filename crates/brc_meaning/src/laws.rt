//! What the plain meaning comes to.

ghost use Rattle.std.specs.Prelude.{◌≡◌, List};
ghost use Rattle.brc_script.specs.declared.script.Section.{Section as TheSection};
ghost use Rattle.brc_script.specs.Instructions.{NumberedLine};
ghost use Rattle.brc_meaning.specs.States.{start};
ghost use Rattle.brc_meaning.specs.Wholes.{IsWhole, ended};
ghost use Rattle.brc_meaning.specs.Sections.{lines_after, written_out, told, meaning};

use std::alloc::Allocator;

/// A section means what its lines mean, one after the other, each `repeat` written out.
#[tactic(auto, using(crate::proofs::WrittenOut::section_written_out))]
pub fn repeats_are_written_out<A: Allocator>()
    ensures { (section : TheSection A) →
        meaning section ≡ told (lines_after (written_out section.pieces) start) }
{}

/// Wherever lines have led, each reference means an object that was made, or an integer that is there always.
pub fn references_mean_objects<A: Allocator>()
    ensures { (lines : List (NumberedLine A)) → IsWhole (ended (lines_after lines start)) }
{}
