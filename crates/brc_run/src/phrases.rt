//! What notes say between names and numbers.

/// A phrase of a note, with its spaces.
#[derive(Clone, Copy, Debug, PartialEq, Eq)]
pub(crate) enum Phrase {
    Nothing,

    // The line.
    Why,
    Line,
    Colon,
    InTurn,
    OfItsRepeat,
    Ends,

    // What is left.
    WhyCell,
    WasMadeBy,
    Text,

    // What a register holds.
    And,
    IsEmpty,
    AreEmpty,
    HoldsInteger,
    HoldsIntegerOf,
    HoldsTextOf,
    HoldsListOf,
    HoldsDictOf,
    HoldsMailboxOf,
    HoldsObject,

    // What is asked of that.
    ListNeeded,
    DictNeeded,
    MailboxNeeded,
    ContainerNeeded,
    IntegerNeeded,
    NoEntry,
    NoEntries,
    NoLetters,
    NothingUnder,
    AllEntries,
    Comma,
    SumTooLarge,

    // Of the globals.
    NothingUnderName,
    NobodyShares,
    AllGlobals,

    // Of the heap and the machine.
    All,
    CellsTaken,
    MostCellsTaken,
    AllPlaces,
    AllBirths,
    NoMemory,
}

impl Phrase {
    pub(crate) fn text(self) -> &'static str {
        match self {
            Phrase::Nothing => "",

            Phrase::Why => "brc: why: ",
            Phrase::Line => " line ",
            Phrase::Colon => ": ",
            Phrase::InTurn => ", in turn ",
            Phrase::OfItsRepeat => " of its repeat",
            Phrase::Ends => "\n",

            Phrase::WhyCell => "brc: why: cell ",
            Phrase::WasMadeBy => " was made by ",
            Phrase::Text => ", text ",

            Phrase::And => " and ",
            Phrase::IsEmpty => " is empty",
            Phrase::AreEmpty => " are empty",
            Phrase::HoldsInteger => " holds the integer ",
            Phrase::HoldsIntegerOf => " holds the integer of line ",
            Phrase::HoldsTextOf => " holds the text of line ",
            Phrase::HoldsListOf => " holds the list of line ",
            Phrase::HoldsDictOf => " holds the dict of line ",
            Phrase::HoldsMailboxOf => " holds the mailbox of line ",
            Phrase::HoldsObject => " holds an object",

            Phrase::ListNeeded => ", and a list is needed",
            Phrase::DictNeeded => ", and a dict is needed",
            Phrase::MailboxNeeded => ", and a mailbox is needed",
            Phrase::ContainerNeeded => ", and a list, dict or mailbox is needed",
            Phrase::IntegerNeeded => ", and an integer is needed",
            Phrase::NoEntry => ", which has no entry ",
            Phrase::NoEntries => ", which is empty",
            Phrase::NoLetters => ", which is empty, and nobody is left who could send",
            Phrase::NothingUnder => ", which has nothing under ",
            Phrase::AllEntries => ", which has 1048576 entries, the most",
            Phrase::Comma => ", ",
            Phrase::SumTooLarge => ", and their sum needs more than 64 bits",

            Phrase::NothingUnderName => "nothing is under the name ",
            Phrase::NobodyShares => ", and nobody is left who could share it",
            Phrase::AllGlobals => "the globals have 1048576 entries, the most",

            Phrase::All => "all ",
            Phrase::CellsTaken => " cells have an object; --cells N makes more",
            Phrase::MostCellsTaken => " cells have an object, and no heap has more",
            Phrase::AllPlaces => "the thread holds 65536 references",
            Phrase::AllBirths => "the thread has made 140737488355328 objects",
            Phrase::NoMemory => "the machine gave no memory",
        }
    }
}
