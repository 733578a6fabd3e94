//! Why nothing is drawn.

ghost use Rattle.std.specs.Prelude.{◌≡◌};
ghost use Rattle.brc_graph.specs.declared.undrawn.Undrawn.TheVariants.{OutOfMemory};

use std::alloc::{AllocError, AllocFailed};

/// Why there is no picture.
#[derive(Clone, Copy, Debug, PartialEq, Eq)]
pub enum Undrawn {
    /// The first line that can't stand there, counted from 1; 0 if the text has more than 16,777,216 bytes.
    BadLine(u32),
    /// A growth was refused.
    OutOfMemory,
    /// A stream failed.
    Io,
}

impl From<AllocError> for Undrawn {
    ghost from_gives = { λ _ e. e ≡ OutOfMemory };

    fn from(_error: AllocError) -> Undrawn {
        Undrawn::OutOfMemory
    }
}

impl<T: Drop> From<AllocFailed<T>> for Undrawn {
    ghost from_gives = { λ _ e. e ≡ OutOfMemory };

    fn from(_error: AllocFailed<T>) -> Undrawn {
        Undrawn::OutOfMemory
    }
}
