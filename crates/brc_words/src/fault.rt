//! The faults that the calls of all rooms answer.

ghost use Rattle.std.specs.Prelude.{◌≡◌};
ghost use Rattle.brc_words.specs.Faults.{number_of, name_of};
ghost use Rattle.brc_words.specs.declared.fault.Fault.TheVariants.{OutOfMemory};

use std::alloc::{AllocError, AllocFailed};
use thiserror::Error;

/// Why a line of a trace is refused.
#[derive(Clone, Copy, Debug, PartialEq, Eq)]
pub enum Reason {
    /// It is no line of the format.
    NotALine,
    /// It is a line, and its event isn't enabled where it stands.
    NotEnabled,
}

/// Why a call was refused. Its Display is its name alone.
#[derive(Clone, Copy, Debug, PartialEq, Eq, Error)]
pub enum Fault {
    // Every room: a growth was refused during the call.
    #[error("OutOfMemory")]
    OutOfMemory,

    // The running heap: objects, frames, locks and containers.
    #[error("HeapFull")]
    HeapFull,
    #[error("FrameFull")]
    FrameFull,
    #[error("Busy")]
    Busy,
    #[error("WrongKind")]
    WrongKind,
    #[error("NoSuchPlace")]
    NoSuchPlace,
    #[error("NoSuchKey")]
    NoSuchKey,
    #[error("Full")]
    Full,

    // The life of a thread and of a heap.
    #[error("TooManyThreads")]
    TooManyThreads,
    #[error("NotIdle")]
    NotIdle,
    #[error("Missing")]
    Missing { registered: u32, gathered: u32 },

    // Texts, options and streams.
    #[error("BadTrace")]
    BadTrace { line: u32, reason: Reason },
    #[error("BadScript")]
    BadScript { line: u32 },
    #[error("BadOptions")]
    BadOptions,
    #[error("Io")]
    Io,

    // Instructions of a script, and the count of births.
    #[error("Overflow")]
    Overflow,
    #[error("LedgerFull")]
    LedgerFull,
}

impl Fault {
    /// The fault's number, 1 to 17, as error lines print it.
    pub fn number(self) -> u8
        ensures { result ≡ number_of self }
    {
        match self {
            Fault::OutOfMemory => 1,
            Fault::HeapFull => 2,
            Fault::FrameFull => 3,
            Fault::Busy => 4,
            Fault::WrongKind => 5,
            Fault::NoSuchPlace => 6,
            Fault::NoSuchKey => 7,
            Fault::Full => 8,
            Fault::TooManyThreads => 9,
            Fault::NotIdle => 10,
            Fault::Missing { .. } => 11,
            Fault::BadTrace { .. } => 12,
            Fault::BadScript { .. } => 13,
            Fault::BadOptions => 14,
            Fault::Io => 15,
            Fault::Overflow => 16,
            Fault::LedgerFull => 17,
        }
    }

    /// The fault's name, as error lines print it.
    pub fn name(self) -> &'static str
        ensures { result.now ≡ name_of self }
    {
        match self {
            Fault::OutOfMemory => "OutOfMemory",
            Fault::HeapFull => "HeapFull",
            Fault::FrameFull => "FrameFull",
            Fault::Busy => "Busy",
            Fault::WrongKind => "WrongKind",
            Fault::NoSuchPlace => "NoSuchPlace",
            Fault::NoSuchKey => "NoSuchKey",
            Fault::Full => "Full",
            Fault::TooManyThreads => "TooManyThreads",
            Fault::NotIdle => "NotIdle",
            Fault::Missing { .. } => "Missing",
            Fault::BadTrace { .. } => "BadTrace",
            Fault::BadScript { .. } => "BadScript",
            Fault::BadOptions => "BadOptions",
            Fault::Io => "Io",
            Fault::Overflow => "Overflow",
            Fault::LedgerFull => "LedgerFull",
        }
    }
}

impl From<AllocError> for Fault {
    ghost from_gives = { λ _ e. e ≡ OutOfMemory };

    fn from(_error: AllocError) -> Fault {
        Fault::OutOfMemory
    }
}

impl<T: Drop> From<AllocFailed<T>> for Fault {
    ghost from_gives = { λ _ e. e ≡ OutOfMemory };

    fn from(_error: AllocFailed<T>) -> Fault {
        Fault::OutOfMemory
    }
}
