//! What a section asks before each instruction, and what it tells a gate that watches.

ghost use Rattle.std.specs.Prelude.{ℕ, IsFalse};

use std::sync::Wait;

/// The cells of the objects in the registers that a refused instruction reads, in the order of its line; None where a
/// register is empty, or no further one is read.
#[derive(Clone, Copy, Debug, PartialEq, Eq)]
pub struct Operands {
    pub first: Option<u32>,
    pub second: Option<u32>,
}

/// Asked before each instruction of a section, by the section's number and the number of the instruction's line; false
/// ends the section with Busy. It may wait.
///
/// A gate that watches is told besides what the instructions make, and what one that was refused was given. The section
/// doesn't look at any of its answers, so they change nothing of what it does.
pub trait Gate: Sync {
    // at which sections and lines it may answer false
    ghost may_refuse: { Self → ℕ → ℕ → Type 0 };

    fn at<R: Wait>(&self, rt: &R, section: u32, line: u32) -> bool
        ensures { IsFalse result → may_refuse self.now section line };

    /// Whether it watches. For a gate that doesn't nothing is looked up, and no instruction of the machine is left of
    /// it, since what stands here is inlined.
    #[inline(always)]
    fn watches(&self) -> bool {
        false
    }

    /// The line put a new mortal object, which is in this cell, into a register. The section's thread says so before
    /// its next instruction, so nobody else can have had the object before.
    #[inline(always)]
    fn made(&self, _section: u32, _line: u32, _cell: u32) {}

    /// The line's instruction was refused, and its registers are as they were before it.
    #[inline(always)]
    fn refused(&self, _section: u32, _line: u32, _operands: Operands) {}
}
