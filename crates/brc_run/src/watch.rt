//! A gate that keeps notes of a run: which line made the object of each cell, and what each refused instruction was
//! given.
//!
//! All its memory is had before the run. Where some is missing it keeps no notes, and the run goes on as it would.

use crate::{Gate, Operands};
use std::alloc::{AllocError, Global};
use std::sync::Wait;
use std::sync::atomic::{AtomicU32, Ordering};

/// A cell that no heap has.
const NO_CELL: u32 = u32::MAX;

/// The object that an operand's register held.
#[derive(Clone, Copy, Debug, PartialEq, Eq)]
pub(crate) struct HeldOperand {
    pub(crate) cell: u32,
    /// The line that made it, counted from 1; 0 of an immortal.
    pub(crate) line: u32,
}

/// What is noted of the instruction that ended a section.
#[derive(Clone, Copy, Debug, PartialEq, Eq)]
pub(crate) struct Noted {
    /// How often its line was reached.
    pub(crate) turn: u32,
    pub(crate) first: Option<HeldOperand>,
    pub(crate) second: Option<HeldOperand>,
}

/// Room for an operand.
#[derive(Drop)]
struct KeptOperand {
    cell: AtomicU32,
    line: AtomicU32,
}

impl KeptOperand {
    fn nothing() -> KeptOperand {
        KeptOperand {
            cell: AtomicU32::new(NO_CELL),
            line: AtomicU32::new(0),
        }
    }

    fn keep(&self, operand: HeldOperand) {
        self.cell.store(operand.cell, Ordering::SeqCst);
        self.line.store(operand.line, Ordering::SeqCst);
    }

    fn operand(&self) -> Option<HeldOperand> {
        let cell = self.cell.load(Ordering::SeqCst);
        let line = self.line.load(Ordering::SeqCst);
        if cell == NO_CELL {
            return None;
        }
        Some(HeldOperand { cell, line })
    }
}

/// How far a section is. Only its own thread writes here.
#[derive(Drop)]
struct Course {
    /// The line that was reached last.
    last: AtomicU32,
    /// The highest line that was reached.
    highest: AtomicU32,
    /// How often the last line was reached.
    turn: AtomicU32,
    first: KeptOperand,
    second: KeptOperand,
}

impl Course {
    fn new() -> Course {
        Course {
            last: AtomicU32::new(0),
            highest: AtomicU32::new(0),
            turn: AtomicU32::new(0),
            first: KeptOperand::nothing(),
            second: KeptOperand::nothing(),
        }
    }

    /// The line is reached. No `repeat` stands in another, and none is left before its last turn ends. So a line above
    /// all that were reached is reached for the first time, and one that isn't behind the last begins one turn more.
    fn reach(&self, line: u32) {
        let last = self.last.swap(line, Ordering::SeqCst);
        if line > self.highest.load(Ordering::SeqCst) {
            self.highest.store(line, Ordering::SeqCst);
            self.turn.store(1, Ordering::SeqCst);
        } else if line <= last {
            self.turn.fetch_add(1, Ordering::SeqCst);
        }
    }
}

/// Lets each instruction start at once, and keeps notes.
#[derive(Drop)]
pub(crate) struct Watch {
    /// By its cell, the line that made the object that was in the cell last; 0 where none was.
    births: Vec<AtomicU32>,
    /// In the script's order.
    courses: Vec<Course>,
}

/// So many lines that aren't known yet.
fn no_lines(alloc: Global, count: u32) -> Result<Vec<AtomicU32>, AllocError> {
    let mut lines = Vec::with_capacity(alloc, count as usize)?;
    for _ in 0..count {
        lines.push(AtomicU32::new(0))?;
    }
    Ok(lines)
}

/// So many sections that haven't begun.
fn no_courses(alloc: Global, sections: usize) -> Result<Vec<Course>, AllocError> {
    let mut courses = Vec::with_capacity(alloc, sections)?;
    for _ in 0..sections {
        courses.push(Course::new())?;
    }
    Ok(courses)
}

impl Watch {
    /// A watch of so many sections on a heap of so many cells. Where memory for its notes is missing, it keeps none.
    pub(crate) fn new(alloc: Global, sections: usize, cells: u32) -> Watch {
        match (no_lines(alloc, cells), no_courses(alloc, sections)) {
            (Ok(births), Ok(courses)) => Watch { births, courses },
            _ => Watch {
                births: Vec::new(alloc),
                courses: Vec::new(alloc),
            },
        }
    }

    /// That of the section of this number, counted from 1.
    fn course(&self, section: u32) -> Option<&Course> {
        self.courses.get((section as usize).wrapping_sub(1))
    }

    /// The line that made the last object in the cell; 0 where that isn't known.
    pub(crate) fn maker(&self, cell: u32) -> u32 {
        match self.births.get(cell as usize) {
            Some(line) => line.load(Ordering::SeqCst),
            None => 0,
        }
    }

    /// The object of the cell, as it is while a register holds it.
    fn operand(&self, cell: Option<u32>) -> Option<HeldOperand> {
        match cell {
            Some(cell) => Some(HeldOperand {
                cell,
                line: self.maker(cell),
            }),
            None => None,
        }
    }

    /// What is noted of the instruction that ended the section at this place of the script, counted from 0; None where
    /// no notes were kept.
    pub(crate) fn noted(&self, index: usize) -> Option<Noted> {
        match self.courses.get(index) {
            Some(course) => Some(Noted {
                turn: course.turn.load(Ordering::SeqCst),
                first: course.first.operand(),
                second: course.second.operand(),
            }),
            None => None,
        }
    }
}

impl Gate for Watch {
    ghost may_refuse = { λ _ _ _. ⊥ };

    fn at<R: Wait>(&self, _rt: &R, section: u32, line: u32) -> bool {
        if let Some(course) = self.course(section) {
            course.reach(line);
        }
        true
    }

    fn watches(&self) -> bool {
        true
    }

    fn made(&self, _section: u32, line: u32, cell: u32) {
        if let Some(birth) = self.births.get(cell as usize) {
            birth.store(line, Ordering::SeqCst);
        }
    }

    fn refused(&self, section: u32, _line: u32, operands: Operands) {
        let Some(course) = self.course(section) else {
            return;
        };
        // Which lines made the objects is looked up now: once the section has ended, its registers are released, and
        // the cells may be used again.
        if let Some(first) = self.operand(operands.first) {
            course.first.keep(first);
        }
        if let Some(second) = self.operand(operands.second) {
            course.second.keep(second);
        }
    }
}
