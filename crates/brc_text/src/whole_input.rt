//! How an input is read.

ghost use Rattle.std.specs.Prelude.{◌≡◌, ◌⊎◌, ◌+◌, take, IfOk, IfErr, IfSome};
ghost use Rattle.brc_words.specs.declared.fault.Fault.TheVariants as faults;
ghost use Rattle.brc_words.specs.declared.limits.TheConstants.{MOST_INPUT};

use brc_words::{Fault, MOST_INPUT};
use std::alloc::Allocator;
use std::io::Read;

/// One byte more than an input may have.
const MOST_READ: usize = MOST_INPUT + 1;

/// All that the reader gives, up to one byte more than the 16,777,216 that an input may have: who reads it as a text
/// sees by that byte that it is too long. Io where a read fails, after which nothing more is read; OutOfMemory.
pub fn read_input<A: Allocator, R: Read>(alloc: A, reader: &mut R) -> Result<Vec<u8, A>, Fault>
    ensures bytes { IfOk result
        (λ bytes. IfSome (R.remaining reader.old) (λ input. bytes.items ≡ take (MOST_INPUT + 1) input)) }
    ensures refused { IfErr result (λ fault. (fault ≡ Fault.Io) ⊎ (fault ≡ Fault.OutOfMemory)) }
{
    let mut bytes = Vec::new(alloc);
    let mut chunk = [0u8; 16_384];
    while bytes.len() < MOST_READ {
        let room = chunk.len().min(MOST_READ - bytes.len());
        match reader.read(&mut chunk[..room]) {
            Ok(0) => return Ok(bytes),
            Ok(count) => bytes.extend_from_slice(&chunk[..count])?,
            Err(_error) => return Err(Fault::Io),
        }
    }
    Ok(bytes)
}
