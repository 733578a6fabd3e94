//! The names of faults by their numbers.

ghost use Rattle.std.specs.Prelude.{◌≡◌, ◌≢◌, [], IfSome};
ghost use Rattle.brc_words.specs.declared.fault.Fault.{Fault as TheFault};
ghost use Rattle.brc_words.specs.Faults.{number_of, name_of};
ghost use Rattle.brc_run.specs.Names.{fault_at, fault_name};

use brc_words::{Fault, Reason};

/// A fault with this number. Its name is that of each with the number.
fn fault_at(number: u8) -> Option<Fault>
    ensures found { result ≡ fault_at number }
    ensures number { IfSome result (λ fault. number_of fault ≡ number) }
{
    match number {
        1 => Some(Fault::OutOfMemory),
        2 => Some(Fault::HeapFull),
        3 => Some(Fault::FrameFull),
        4 => Some(Fault::Busy),
        5 => Some(Fault::WrongKind),
        6 => Some(Fault::NoSuchPlace),
        7 => Some(Fault::NoSuchKey),
        8 => Some(Fault::Full),
        9 => Some(Fault::TooManyThreads),
        10 => Some(Fault::NotIdle),
        11 => Some(Fault::Missing {
            registered: 0,
            gathered: 0,
        }),
        12 => Some(Fault::BadTrace {
            line: 0,
            reason: Reason::NotALine,
        }),
        13 => Some(Fault::BadScript { line: 0 }),
        14 => Some(Fault::BadOptions),
        15 => Some(Fault::Io),
        16 => Some(Fault::Overflow),
        17 => Some(Fault::LedgerFull),
        _ => None,
    }
}

/// The name of the fault with this number; nothing where no fault has it.
pub fn name_of_number(number: u8) -> &'static str
    ensures name { result.now ≡ fault_name number }

    // The names are those of the faults.
    ensures each { (fault : TheFault) → number_of fault ≡ number → result.now ≡ name_of fault }
    ensures none { ((fault : TheFault) → number_of fault ≢ number) → result.now ≡ [] }
{
    match fault_at(number) {
        Some(fault) => fault.name(),
        None => "",
    }
}
