//! What a section prints.

ghost use Rattle.std.specs.Prelude.{◌≡◌, ◌++◌, ◌∷◌, [], IfOk, IfErr, decimal};
ghost use Rattle.std.specs.Fmt.{signed_decimal};
ghost use Rattle.brc_words.specs.declared.fault.Fault.TheVariants.{OutOfMemory};

use brc_words::Fault;
use itoa::Buffer;
use std::alloc::Allocator;
use std::marker::Model;

/// The printed bytes, each line ended by a line feed.
#[derive(Drop)]
pub struct Printed<A: Allocator> {
    bytes: Vec<u8, A>,
}

impl<A: Allocator> Model for Printed<A> {
    ghost use Rattle.std.specs.Prelude.{List, ℕ};

    ghost Value = { List ℕ };

    ghost view = { λ p. p.bytes.items };
}

impl<A: Allocator> Printed<A> {
    pub(crate) fn new(alloc: A) -> Self
        ensures { result ≡ [] }
    {
        Printed {
            bytes: Vec::new(alloc),
        }
    }

    pub(crate) fn into_bytes(self) -> Vec<u8, A>
        ensures { result.items ≡ self }
    {
        self.bytes
    }

    /// The text and a line feed.
    pub(crate) fn add_line(&mut self, text: &[u8]) -> Result<(), Fault>
        ensures added { IfOk result (λ _. self.new ≡ self.old ++ (text.now ++ 10 ∷ [])) }
        ensures refused { IfErr result (λ fault. fault ≡ OutOfMemory) }
    {
        self.bytes.extend_from_slice(text)?;
        self.bytes.push(b'\n')?;
        Ok(())
    }

    /// An integer, with its sign where it is below 0.
    pub(crate) fn add_integer(&mut self, number: i64) -> Result<(), Fault>
        ensures added { IfOk result (λ _. self.new ≡ self.old ++ (signed_decimal number ++ 10 ∷ [])) }
        ensures refused { IfErr result (λ fault. fault ≡ OutOfMemory) }
    {
        self.add_line(Buffer::new().format(number).as_bytes())
    }

    /// A word, which has its space behind it, and a number.
    pub(crate) fn add_counted(&mut self, word: &[u8], count: usize) -> Result<(), Fault>
        ensures added { IfOk result (λ _. self.new ≡ self.old ++ (word.now ++ decimal count ++ 10 ∷ [])) }
        ensures refused { IfErr result (λ fault. fault ≡ OutOfMemory) }
    {
        self.bytes.extend_from_slice(word)?;
        self.add_line(Buffer::new().format(count).as_bytes())
    }
}
