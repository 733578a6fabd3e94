//! The shared word: a signed count above two state bits (PEP 703, "Biased Reference Counting").

ghost use Rattle.std.specs.Prelude.{◌≡◌, ◌^◌, ◌<◌, ◌/◌, ◌%◌, ℤ, pos, ◌+ℤ◌, Some, IfSome, IfNone};
ghost use Rattle.brc_words.specs.Shared.{CountFits, Spells, bits_of};

use crate::limits::COUNTED_FROM;

/// The state of an object. States only rise.
#[derive(Clone, Copy, Debug, PartialEq, Eq)]
pub enum State {
    /// The owner counts on the local word, everyone else on the shared one.
    Default,
    /// A reference lies in the owner's merge queue, or is on its way there or from there.
    Queued,
    /// There is no owner, and the shared count is the count.
    Merged,
}

impl State {
    /// The two state bits: 00, 10 or 11 (PEP 703; 01, weak references, is left out here).
    fn bits(self) -> u64
        ensures { result ≡ bits_of self }
    {
        match self {
            State::Default => 0,
            State::Queued => 2,
            State::Merged => 3,
        }
    }
}

/// The word that spells this count and state.
pub fn shared_word(count: i64, state: State) -> u64
    requires fits { CountFits count }

    ensures spelled { Spells result count state }
{
    (count + COUNTED_FROM) as u64 * 4 + state.bits()
}

/// The count that the word spells.
pub fn count_of(word: u64) -> i64
    requires { word < 2 ^ 43 }

    ensures count { result +ℤ pos (2 ^ 40) ≡ pos (word / 4) }
    ensures again { (count : ℤ) (state : State) → Spells word count state → result ≡ count }
{
    (word / 4) as i64 - COUNTED_FROM
}

/// The state that the word spells; none where its state bits are 01, which no word of this heap has.
pub fn state_of(word: u64) -> Option<State>
    requires { word < 2 ^ 43 }

    ensures found { IfSome result (λ state. (count : ℤ) × Spells word count state) }
    ensures again { (count : ℤ) (state : State) → Spells word count state → result ≡ Some state }
    ensures none { IfNone result (word % 4 ≡ 1) }
{
    match word % 4 {
        0 => Some(State::Default),
        2 => Some(State::Queued),
        3 => Some(State::Merged),
        _ => None,
    }
}
