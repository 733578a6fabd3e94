//! Keywords: the fixed words of the trace and of the world text.

ghost use Rattle.std.specs.Prelude.{◌≡◌, ◌<◌, ◌-◌, ◌*◌, ℕ, List, ◌++◌, Some, IfSome, IsSomeAnd, length, find};
ghost use Rattle.std.specs.Prelude.{slice_index, nat_le};
ghost use Rattle.brc_text.specs.declared.keyword.Keyword.{Keyword as TheKeyword};
ghost use Rattle.brc_text.specs.Keywords.{keyword, packed, bytes_ahead, stands_ahead, candidates_at, keyword_at};
ghost use Rattle.brc_text.specs.Words.{Begins, EndsWord};

/// A fixed word.
#[derive(Clone, Copy, Debug, PartialEq, Eq)]
pub enum Keyword {
    // The head of a trace, and its events; `zero` is below.
    Heap,
    Register,
    Claim,
    Local,
    Shared,
    Born,
    Up,
    Down,
    See,
    Free,
    Untie,
    Shup,
    Shdown,
    Ask,
    Last,
    Enq,
    Drain,
    Add,
    Close,
    Nudge,
    Wake,
    Lock,
    Unlock,
    Gather,

    // The mark of format 2, and the events that it alone has.
    Trace,
    Offer,
    Open,

    /// `h`: the reference in the hand.
    InHand,

    // What an unlock changes.
    Keep,
    Put,
    Take,
    Swap,

    // Kinds of object.
    Int,
    Text,
    List,
    Dict,
    Mailbox,

    // The world text: its lines.
    World,
    Thread,
    Hand,
    Locked,
    Frame,
    Queued,
    Popped,
    Work,
    Entry,
    Object,
    Ledger,
    Edition,

    // The status of a thread.
    Active,
    Closing,
    Left,
    Gathered,
    Opening,

    // What a hand carries; `free` and `popped` are above.
    Claimed,
    Counted,
    Ready,
    Zero,
    Over,
    Untied,
    Asked,
    Shut,
    Taking,
    Held,
    Popping,
    Offered,
    Yielding,

    // The state of an object; `queued` is above.
    Default,
    Merged,

    /// `-`: there is nothing to be said.
    Dash,
}

impl Keyword {
    /// The word as it stands in a text.
    #[inline(always)]
    pub fn text(self) -> &'static [u8]
        ensures { result.now ≡ keyword self }
    {
        match self {
            Keyword::Heap => b"heap",
            Keyword::Register => b"register",
            Keyword::Claim => b"claim",
            Keyword::Local => b"local",
            Keyword::Shared => b"shared",
            Keyword::Born => b"born",
            Keyword::Up => b"up",
            Keyword::Down => b"down",
            Keyword::See => b"see",
            Keyword::Free => b"free",
            Keyword::Untie => b"untie",
            Keyword::Shup => b"shup",
            Keyword::Shdown => b"shdown",
            Keyword::Ask => b"ask",
            Keyword::Last => b"last",
            Keyword::Enq => b"enq",
            Keyword::Drain => b"drain",
            Keyword::Add => b"add",
            Keyword::Close => b"close",
            Keyword::Nudge => b"nudge",
            Keyword::Wake => b"wake",
            Keyword::Lock => b"lock",
            Keyword::Unlock => b"unlock",
            Keyword::Gather => b"gather",
            Keyword::Trace => b"trace",
            Keyword::Offer => b"offer",
            Keyword::Open => b"open",
            Keyword::InHand => b"h",
            Keyword::Keep => b"keep",
            Keyword::Put => b"put",
            Keyword::Take => b"take",
            Keyword::Swap => b"swap",
            Keyword::Int => b"int",
            Keyword::Text => b"text",
            Keyword::List => b"list",
            Keyword::Dict => b"dict",
            Keyword::Mailbox => b"mailbox",
            Keyword::World => b"world",
            Keyword::Thread => b"thread",
            Keyword::Hand => b"hand",
            Keyword::Locked => b"locked",
            Keyword::Frame => b"frame",
            Keyword::Queued => b"queued",
            Keyword::Popped => b"popped",
            Keyword::Work => b"work",
            Keyword::Entry => b"entry",
            Keyword::Object => b"object",
            Keyword::Ledger => b"ledger",
            Keyword::Edition => b"edition",
            Keyword::Active => b"active",
            Keyword::Closing => b"closing",
            Keyword::Left => b"left",
            Keyword::Gathered => b"gathered",
            Keyword::Opening => b"opening",
            Keyword::Claimed => b"claimed",
            Keyword::Counted => b"counted",
            Keyword::Ready => b"ready",
            Keyword::Zero => b"zero",
            Keyword::Over => b"over",
            Keyword::Untied => b"untied",
            Keyword::Asked => b"asked",
            Keyword::Shut => b"shut",
            Keyword::Taking => b"taking",
            Keyword::Held => b"held",
            Keyword::Popping => b"popping",
            Keyword::Offered => b"offered",
            Keyword::Yielding => b"yielding",
            Keyword::Default => b"default",
            Keyword::Merged => b"merged",
            Keyword::Dash => b"-",
        }
    }

    /// The word's bytes as one number.
    // Inlined, as the text is: of a word that is known where it is sought both are constants.
    #[inline(always)]
    fn key(self) -> u64
        ensures { result ≡ packed 0 (keyword self) }
    {
        match self {
            Keyword::Heap => u64::from_be_bytes(*b"\0\0\0\0heap"),
            Keyword::Register => u64::from_be_bytes(*b"register"),
            Keyword::Claim => u64::from_be_bytes(*b"\0\0\0claim"),
            Keyword::Local => u64::from_be_bytes(*b"\0\0\0local"),
            Keyword::Shared => u64::from_be_bytes(*b"\0\0shared"),
            Keyword::Born => u64::from_be_bytes(*b"\0\0\0\0born"),
            Keyword::Up => u64::from_be_bytes(*b"\0\0\0\0\0\0up"),
            Keyword::Down => u64::from_be_bytes(*b"\0\0\0\0down"),
            Keyword::See => u64::from_be_bytes(*b"\0\0\0\0\0see"),
            Keyword::Free => u64::from_be_bytes(*b"\0\0\0\0free"),
            Keyword::Untie => u64::from_be_bytes(*b"\0\0\0untie"),
            Keyword::Shup => u64::from_be_bytes(*b"\0\0\0\0shup"),
            Keyword::Shdown => u64::from_be_bytes(*b"\0\0shdown"),
            Keyword::Ask => u64::from_be_bytes(*b"\0\0\0\0\0ask"),
            Keyword::Last => u64::from_be_bytes(*b"\0\0\0\0last"),
            Keyword::Enq => u64::from_be_bytes(*b"\0\0\0\0\0enq"),
            Keyword::Drain => u64::from_be_bytes(*b"\0\0\0drain"),
            Keyword::Add => u64::from_be_bytes(*b"\0\0\0\0\0add"),
            Keyword::Close => u64::from_be_bytes(*b"\0\0\0close"),
            Keyword::Nudge => u64::from_be_bytes(*b"\0\0\0nudge"),
            Keyword::Wake => u64::from_be_bytes(*b"\0\0\0\0wake"),
            Keyword::Lock => u64::from_be_bytes(*b"\0\0\0\0lock"),
            Keyword::Unlock => u64::from_be_bytes(*b"\0\0unlock"),
            Keyword::Gather => u64::from_be_bytes(*b"\0\0gather"),
            Keyword::Trace => u64::from_be_bytes(*b"\0\0\0trace"),
            Keyword::Offer => u64::from_be_bytes(*b"\0\0\0offer"),
            Keyword::Open => u64::from_be_bytes(*b"\0\0\0\0open"),
            Keyword::InHand => u64::from_be_bytes(*b"\0\0\0\0\0\0\0h"),
            Keyword::Keep => u64::from_be_bytes(*b"\0\0\0\0keep"),
            Keyword::Put => u64::from_be_bytes(*b"\0\0\0\0\0put"),
            Keyword::Take => u64::from_be_bytes(*b"\0\0\0\0take"),
            Keyword::Swap => u64::from_be_bytes(*b"\0\0\0\0swap"),
            Keyword::Int => u64::from_be_bytes(*b"\0\0\0\0\0int"),
            Keyword::Text => u64::from_be_bytes(*b"\0\0\0\0text"),
            Keyword::List => u64::from_be_bytes(*b"\0\0\0\0list"),
            Keyword::Dict => u64::from_be_bytes(*b"\0\0\0\0dict"),
            Keyword::Mailbox => u64::from_be_bytes(*b"\0mailbox"),
            Keyword::World => u64::from_be_bytes(*b"\0\0\0world"),
            Keyword::Thread => u64::from_be_bytes(*b"\0\0thread"),
            Keyword::Hand => u64::from_be_bytes(*b"\0\0\0\0hand"),
            Keyword::Locked => u64::from_be_bytes(*b"\0\0locked"),
            Keyword::Frame => u64::from_be_bytes(*b"\0\0\0frame"),
            Keyword::Queued => u64::from_be_bytes(*b"\0\0queued"),
            Keyword::Popped => u64::from_be_bytes(*b"\0\0popped"),
            Keyword::Work => u64::from_be_bytes(*b"\0\0\0\0work"),
            Keyword::Entry => u64::from_be_bytes(*b"\0\0\0entry"),
            Keyword::Object => u64::from_be_bytes(*b"\0\0object"),
            Keyword::Ledger => u64::from_be_bytes(*b"\0\0ledger"),
            Keyword::Edition => u64::from_be_bytes(*b"\0edition"),
            Keyword::Active => u64::from_be_bytes(*b"\0\0active"),
            Keyword::Closing => u64::from_be_bytes(*b"\0closing"),
            Keyword::Left => u64::from_be_bytes(*b"\0\0\0\0left"),
            Keyword::Gathered => u64::from_be_bytes(*b"gathered"),
            Keyword::Opening => u64::from_be_bytes(*b"\0opening"),
            Keyword::Claimed => u64::from_be_bytes(*b"\0claimed"),
            Keyword::Counted => u64::from_be_bytes(*b"\0counted"),
            Keyword::Ready => u64::from_be_bytes(*b"\0\0\0ready"),
            Keyword::Zero => u64::from_be_bytes(*b"\0\0\0\0zero"),
            Keyword::Over => u64::from_be_bytes(*b"\0\0\0\0over"),
            Keyword::Untied => u64::from_be_bytes(*b"\0\0untied"),
            Keyword::Asked => u64::from_be_bytes(*b"\0\0\0asked"),
            Keyword::Shut => u64::from_be_bytes(*b"\0\0\0\0shut"),
            Keyword::Taking => u64::from_be_bytes(*b"\0\0taking"),
            Keyword::Held => u64::from_be_bytes(*b"\0\0\0\0held"),
            Keyword::Popping => u64::from_be_bytes(*b"\0popping"),
            Keyword::Offered => u64::from_be_bytes(*b"\0offered"),
            Keyword::Yielding => u64::from_be_bytes(*b"yielding"),
            Keyword::Default => u64::from_be_bytes(*b"\0default"),
            Keyword::Merged => u64::from_be_bytes(*b"\0\0merged"),
            Keyword::Dash => u64::from_be_bytes(*b"\0\0\0\0\0\0\0-"),
        }
    }

    /// By how much a text's first eight bytes, as one number, are shifted so that only those of this word's length are
    /// left.
    #[inline(always)]
    #[tactic(auto, using(crate::proofs::KeywordLaws::keyword_short, crate::proofs::KeywordLaws::keyword_some))]
    fn shift(self) -> u32
        ensures bits { result ≡ 64 - 8 * length (keyword self) }
        ensures less { result < 64 }
    {
        64 - 8 * self.text().len() as u32
    }
}

/// The byte that stands there, or 0 behind the text's end.
#[inline(always)]
fn byte_ahead(text: &[u8], at: usize) -> u8
    ensures { result ≡ slice_index text.now at }
{
    match text.get(at) {
        Some(byte) => *byte,
        None => 0,
    }
}

/// The text's first eight bytes as one number, with zeros behind the text's end.
// Apart, since only a text's last word comes here.
#[inline(never)]
fn eight_ahead(text: &[u8]) -> u64
    ensures { result ≡ packed 0 (bytes_ahead 8 text.now) }
{
    let mut key: u64 = 0;
    for at in 0..8usize {
        key = key * 256 + byte_ahead(text, at) as u64;
    }
    key
}

/// The same.
// Eight bytes that are all there are read at once, without a look for the end between two of them.
#[inline(always)]
#[tactic(auto, using(crate::proofs::KeywordLaws::eight_packed))]
fn front_of(text: &[u8]) -> u64
    ensures { result ≡ packed 0 (bytes_ahead 8 text.now) }
{
    match text {
        [a, b, c, d, e, f, g, h, ..] => u64::from_be_bytes([*a, *b, *c, *d, *e, *f, *g, *h]),
        _ => eight_ahead(text),
    }
}

/// Whether no letter stands there. Any byte above the space counts as a letter.
#[inline(always)]
fn ends_at(text: &[u8], at: usize) -> bool
    ensures { result ≡ nat_le (slice_index text.now at) 32 }
{
    byte_ahead(text, at) <= b' '
}

/// The first of these words that is the text's first word.
#[inline(always)]
fn sought(text: &[u8], front: u64, words: &[Keyword]) -> Option<Keyword>
    requires { front ≡ packed 0 (bytes_ahead 8 text.now) }

    ensures { result ≡ find (stands_ahead text.now) words.now }
{
    for word in words {
        if front >> word.shift() == word.key() && ends_at(text, word.text().len()) {
            return Some(*word);
        }
    }
    None
}

/// The word that is the text's first word, among those that begin with this byte, the ones of a trace first.
// Each list stands where it is sought through, so that each comparison is with a constant.
#[inline(always)]
fn sought_by(first: u8, text: &[u8], front: u64) -> Option<Keyword>
    requires { front ≡ packed 0 (bytes_ahead 8 text.now) }

    ensures { result ≡ find (stands_ahead text.now) (candidates_at first) }
{
    match first {
        b'-' => sought(text, front, &[Keyword::Dash]),
        b'a' => sought(
            text,
            front,
            &[Keyword::Ask, Keyword::Add, Keyword::Active, Keyword::Asked],
        ),
        b'b' => sought(text, front, &[Keyword::Born]),
        b'c' => sought(
            text,
            front,
            &[
                Keyword::Claim,
                Keyword::Close,
                Keyword::Closing,
                Keyword::Claimed,
                Keyword::Counted,
            ],
        ),
        b'd' => sought(
            text,
            front,
            &[
                Keyword::Down,
                Keyword::Drain,
                Keyword::Dict,
                Keyword::Default,
            ],
        ),
        b'e' => sought(
            text,
            front,
            &[Keyword::Enq, Keyword::Entry, Keyword::Edition],
        ),
        b'f' => sought(text, front, &[Keyword::Free, Keyword::Frame]),
        b'g' => sought(text, front, &[Keyword::Gather, Keyword::Gathered]),
        b'h' => sought(
            text,
            front,
            &[Keyword::InHand, Keyword::Heap, Keyword::Hand, Keyword::Held],
        ),
        b'i' => sought(text, front, &[Keyword::Int]),
        b'k' => sought(text, front, &[Keyword::Keep]),
        b'l' => sought(
            text,
            front,
            &[
                Keyword::Local,
                Keyword::Last,
                Keyword::Lock,
                Keyword::List,
                Keyword::Locked,
                Keyword::Ledger,
                Keyword::Left,
            ],
        ),
        b'm' => sought(text, front, &[Keyword::Mailbox, Keyword::Merged]),
        b'n' => sought(text, front, &[Keyword::Nudge]),
        b'o' => sought(
            text,
            front,
            &[
                Keyword::Offer,
                Keyword::Open,
                Keyword::Object,
                Keyword::Over,
                Keyword::Offered,
                Keyword::Opening,
            ],
        ),
        b'p' => sought(
            text,
            front,
            &[Keyword::Put, Keyword::Popped, Keyword::Popping],
        ),
        b'q' => sought(text, front, &[Keyword::Queued]),
        b'r' => sought(text, front, &[Keyword::Register, Keyword::Ready]),
        b's' => sought(
            text,
            front,
            &[
                Keyword::Shared,
                Keyword::See,
                Keyword::Shup,
                Keyword::Shdown,
                Keyword::Swap,
                Keyword::Shut,
            ],
        ),
        b't' => sought(
            text,
            front,
            &[
                Keyword::Take,
                Keyword::Text,
                Keyword::Thread,
                Keyword::Taking,
                Keyword::Trace,
            ],
        ),
        b'u' => sought(
            text,
            front,
            &[
                Keyword::Up,
                Keyword::Unlock,
                Keyword::Untie,
                Keyword::Untied,
            ],
        ),
        b'w' => sought(text, front, &[Keyword::Wake, Keyword::World, Keyword::Work]),
        b'y' => sought(text, front, &[Keyword::Yielding]),
        b'z' => sought(text, front, &[Keyword::Zero]),
        _ => None,
    }
}

/// The keyword with which the text begins, and what stands behind it; none where it begins with none.
#[inline(always)]
pub(crate) fn keyword_ahead(text: &[u8]) -> Option<(Keyword, &[u8])>
    ensures found { IfSome result (λ f. Begins keyword_at text.now f.0 f.1.now) }
    ensures only { (word rest : List ℕ) (k : TheKeyword) → text.now ≡ word ++ rest → EndsWord rest
        → keyword_at word ≡ Some k →
        IsSomeAnd result (λ f. (f.0 ≡ k) × (f.1.now ≡ rest)) }
{
    let [first, ..] = text else {
        return None;
    };
    match sought_by(*first, text, front_of(text)) {
        Some(word) => Some((word, &text[word.text().len()..])),
        None => None,
    }
}
