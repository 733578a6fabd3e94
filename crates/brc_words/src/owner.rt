//! The owner word: who owns a cell (PEP 703, `ob_tid`; claimed and free cells are this heap's own).

ghost use Rattle.std.specs.Prelude.{◌≡◌, ◌≢◌, IfSome, IfNone};
ghost use Rattle.brc_words.specs.Owners.{IsOwner, word_of};
ghost use Rattle.brc_words.specs.declared.owner.Owner.{Owner as owner};

/// Who owns a cell.
#[derive(Clone, Copy, Debug, PartialEq, Eq)]
pub enum Owner {
    /// An immortal, or an object that was merged or is being merged.
    Nobody,
    /// The thread with this number made the object and counts on its local word.
    Thread(u32),
    /// The thread with this number is making an object here.
    Claimed(u32),
    /// No object is here.
    Free,
}

/// The numbers of owner words.
pub struct OwnerWord;

impl OwnerWord {
    /// Whom the word spells; none for a number that spells nobody.
    pub fn read(word: u64) -> Option<Owner>
        ensures found { IfSome result (λ found. IsOwner found × (word ≡ word_of found)) }
        ensures none { IfNone result ((other : owner) → IsOwner other → word ≢ word_of other) }
    {
        match word {
            0 => Some(Owner::Nobody),
            1..=64 => Some(Owner::Thread(word as u32)),
            0x1_0000_0001..=0x1_0000_0040 => Some(Owner::Claimed((word - 0x1_0000_0000) as u32)),
            0xFFFF_FFFF_FFFF_FFFF => Some(Owner::Free),
            _ => None,
        }
    }

    /// The word that spells this owner.
    pub fn write(owner: Owner) -> u64
        requires { IsOwner owner }

        ensures { result ≡ word_of owner }
    {
        match owner {
            Owner::Nobody => 0,
            Owner::Thread(thread) => thread as u64,
            Owner::Claimed(thread) => 0x1_0000_0000 + thread as u64,
            Owner::Free => 0xFFFF_FFFF_FFFF_FFFF,
        }
    }
}
