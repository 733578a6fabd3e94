//! What an object is.

ghost use Rattle.std.specs.Prelude.{◌≡◌};
ghost use Rattle.brc_words.specs.Kinds.{is_mortal, is_container};

/// The kinds of object; the first five can be born.
#[derive(Clone, Copy, Debug, PartialEq, Eq)]
pub enum Kind {
    Int,
    Text,
    List,
    Dict,
    Mailbox,
    Nothing,
    False,
    True,
}

/// Whether objects of this kind are born: all but None, False and True.
pub fn is_mortal_kind(kind: Kind) -> bool
    ensures { result ≡ is_mortal kind }
{
    matches!(
        kind,
        Kind::Int | Kind::Text | Kind::List | Kind::Dict | Kind::Mailbox
    )
}

/// Whether objects of this kind have entries.
pub fn is_container_kind(kind: Kind) -> bool
    ensures { result ≡ is_container kind }
{
    matches!(kind, Kind::List | Kind::Dict | Kind::Mailbox)
}
