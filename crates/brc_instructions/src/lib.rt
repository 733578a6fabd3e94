//! The instructions of a script on the running heap: registers beside a thread's frame, and what each instruction does
//! to both.
//!
//! A section has sixteen registers. Each that isn't empty has a handle that the frame owns, and the frame owns no other
//! (`specs/Registers.antt`, `OwnsRegisters`). Each kind of instruction is a struct with its registers
//! (`instructions.rt`), and all are done by `Execute::act`, which takes frame and registers from before it to behind
//! it, whatever its answer, at the same heap; where it leads by its plain meaning each says of itself. Where a
//! container gives a reference, or takes one, `TakingOut` and `Putting` say by which call (`specs/Calls.antt`). None
//! answers Busy: each waits while another thread has the object locked. What `print` prints is a value that it answers
//! (`Shown`); `add_shown` makes a line of it, worded as the plain meaning of a section (`specs/Printing.antt`).
#![tactic(auto)]

mod doing;
mod globals;
mod holding;
mod instructions;
mod making;
mod object_reading;
mod printing;
mod putting_in;
mod registers;
mod shown;
mod taking_out;

// what each instruction says, and the registers that it stands on
pub use doing::{Done, Execute};
pub use registers::Registers;

// the instructions, by what they do: make, count, read, give and take, and on the globals
pub use instructions::{
    Add, CopyHeld, DropHeld, Len, MakeEmpty, MakeInt, MakeText, PutIn, Share, TakeOut,
    TakeOutGlobal,
};

// what they are told
pub use making::Empty;
pub use putting_in::Putting;
pub use taking_out::TakingOut;

// what one prints
pub use object_reading::{Print, Reads};
pub use shown::{Shown, add_shown};
