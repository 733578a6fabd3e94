//! What a register refers to.

ghost use Rattle.std.specs.Prelude.{◌≡◌};
ghost use Rattle.brc_meaning.specs.Objects.{is_small};

/// The integers from here are there always (this heap's immortal integers).
const LEAST_SMALL: i64 = -5;
/// The integers to here are there always.
const MOST_SMALL: i64 = 256;

/// A reference to an integer that is there always, or to an object by its place in the list of all objects.
#[derive(Clone, Copy)]
pub enum Reference {
    Small(i64),
    Object(usize),
}

/// Whether the integer is there always, and never made.
pub(crate) fn is_small(number: i64) -> bool
    ensures { result ≡ is_small number }
{
    LEAST_SMALL <= number && number <= MOST_SMALL
}
