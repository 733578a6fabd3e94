//! What is wrong with a line that isn't one of a trace.

ghost use Rattle.std.specs.Prelude.{◌≡◌, ◌-◌, ℕ, List, true, Some, None, IfOk, IfSome, MatchOption, drop, map};
ghost use Rattle.std.specs.Prelude.{[], ◌∷◌, ◌++◌, is_some};
ghost use Rattle.law.specs.declared.world.edition.Edition.{Edition as TheEdition};
ghost use Rattle.brc_text.specs.Lines.{cut, lacks, tokens_at, pieces};
ghost use Rattle.brc_text.specs.Tokens.{token_at};
ghost use Rattle.brc_trace.specs.Causes.{byte_at as byte_there, byte_before as byte_in_front, HasWideSpace};
ghost use Rattle.brc_trace.specs.Causes.{HasLeadingZero, is_step_word as is_of_a_step, event_word as word_of_event};
ghost use Rattle.brc_trace.specs.Causes.{form as form_of_word, has_form as have_form, IsCause, edition_at, first_piece};
ghost use Rattle.brc_trace.specs.Causes.{piece_at};

use crate::event_line::{is_two, step_of};
use crate::trace_reading::{head_number, read_mark};
use brc_text::{Excerpt, Keyword, Token, Words};
use law::world::Edition;
use std::alloc::{AllocError, Allocator};

/// What is wrong with a bad line: the first of these that is.
#[derive(Clone, Copy, Debug, PartialEq, Eq)]
pub enum Cause {
    /// No line feed ends it.
    NoLineFeed,
    /// It has a carriage return.
    CarriageReturn,
    /// It has no byte.
    Empty,
    /// A space stands at its beginning, at its end, or behind another.
    WideSpace,
    /// A number begins with a zero and goes on.
    LeadingZero,
    /// It is the first line, or the one below a mark, and no head of a trace.
    NotAHead,
    /// It has more than 8 words.
    TooManyWords,
    /// This word of it is in no trace; those before it are.
    UnknownWord(Excerpt),
    /// It doesn't begin with a number and the word of an event.
    NotAnEvent,
    /// It has the form of its event, so that a number is out of its range.
    OutOfRange,
    /// It hasn't the form of the event with this word.
    NotItsForm(Keyword),
}

// ---- by bytes

/// The byte at this index; a space stands behind the last.
fn byte_at(line: &[u8], at: usize) -> u8
    ensures { result ≡ byte_there line.now at }
{
    match line.get(at) {
        Some(byte) => *byte,
        None => b' ',
    }
}

/// The byte before this index; a space stands before the first.
fn byte_before(line: &[u8], at: usize) -> u8
    ensures { result ≡ byte_in_front line.now at }
{
    if at == 0 { b' ' } else { byte_at(line, at - 1) }
}

/// Whether a space stands at the line's beginning, at its end, or behind another.
fn has_wide_space(line: &[u8]) -> bool
    ensures { result ≡ true → HasWideSpace line.now }
{
    for at in 0..line.len() + 1 {
        if byte_before(line, at) == b' ' && byte_at(line, at) == b' ' {
            return true;
        }
    }
    false
}

/// Whether a zero stands before a digit and behind none.
fn has_leading_zero(line: &[u8]) -> bool
    ensures { result ≡ true → HasLeadingZero line.now }
{
    for at in 0..line.len() {
        if byte_at(line, at) == b'0'
            && !byte_before(line, at).is_ascii_digit()
            && byte_at(line, at + 1).is_ascii_digit()
        {
            return true;
        }
    }
    false
}

/// What is wrong with the bytes of a line, by no look at its words.
fn cause_of_bytes(line: &[u8]) -> Option<Cause>
    ensures { IfSome result (λ cause. (edition : TheEdition) (number : ℕ)
        → IsCause edition cause number (line.now, true)) }
{
    if line.contains(&b'\r') {
        Some(Cause::CarriageReturn)
    } else if line.is_empty() {
        Some(Cause::Empty)
    } else if has_wide_space(line) {
        Some(Cause::WideSpace)
    } else if has_leading_zero(line) {
        Some(Cause::LeadingZero)
    } else {
        None
    }
}

// ---- by words

/// Whether events of the edition go by this word.
fn is_step_word(edition: Edition, word: Keyword) -> bool
    ensures { result ≡ is_of_a_step edition word }
{
    match word {
        Keyword::Claim
        | Keyword::Local
        | Keyword::Shared
        | Keyword::Born
        | Keyword::Up
        | Keyword::Down
        | Keyword::See
        | Keyword::Free
        | Keyword::Untie
        | Keyword::Zero
        | Keyword::Shup
        | Keyword::Shdown
        | Keyword::Ask
        | Keyword::Last
        | Keyword::Enq
        | Keyword::Drain
        | Keyword::Add
        | Keyword::Close
        | Keyword::Nudge
        | Keyword::Wake
        | Keyword::Lock
        | Keyword::Unlock
        | Keyword::Register
        | Keyword::Gather => true,
        Keyword::Offer => is_two(edition),
        Keyword::Open => is_two(edition),
        _ => false,
    }
}

/// The event's word, where the line begins with a number and such a word.
fn event_word(edition: Edition, words: &[Token]) -> Option<Keyword>
    ensures { result ≡ word_of_event edition words.now }
{
    match words {
        [Token::Number(_), Token::Word(word), ..] if is_step_word(edition, *word) => Some(*word),
        _ => None,
    }
}

/// A word with 1, which is in each range, for its number.
fn form(word: Token) -> Token
    ensures { result ≡ form_of_word word }
{
    match word {
        Token::Number(_) => Token::Number(1),
        Token::Negative(number) => Token::Negative(number),
        Token::Place(letter, _) => Token::Place(letter, 1),
        Token::Word(word) => Token::Word(word),
    }
}

/// Each word with 1 for its number.
fn forms<A: Allocator>(alloc: A, words: &[Token]) -> Result<Vec<Token, A>, AllocError>
    ensures { IfOk result (λ forms. forms.items ≡ map form_of_word words.now) }
{
    words.iter().map(|word| form(*word)).collect(alloc)
}

/// Whether the words are those of an event of the edition, but for the sizes of numbers.
fn has_form<A: Allocator>(alloc: A, edition: Edition, words: &[Token]) -> Result<bool, AllocError>
    ensures { IfOk result (λ has. has ≡ have_form edition words.now) }
{
    match words {
        [Token::Number(_), Token::Word(word), operands @ ..] => {
            let forms = forms(alloc, operands)?;
            Ok(step_of(edition, *word, forms.as_slice()).is_some())
        }
        _ => Ok(false),
    }
}

/// What is wrong with the words of a line that is no event's.
fn cause_of_words<A: Allocator>(
    alloc: A,
    edition: Edition,
    words: &[Token],
) -> Result<Cause, AllocError>
    ensures { IfOk result (λ cause. (number : ℕ) (bytes : List ℕ) → tokens_at 8 bytes ≡ Some words.now →
        IsCause edition cause number (bytes, true)) }
{
    let Some(word) = event_word(edition, words) else {
        return Ok(Cause::NotAnEvent);
    };
    if has_form(alloc, edition, words)? {
        Ok(Cause::OutOfRange)
    } else {
        Ok(Cause::NotItsForm(word))
    }
}

// ---- the line

/// What stands before the text's first mark, and what stands behind that, where there is one.
fn cut_at(text: &[u8], mark: u8) -> (&[u8], Option<&[u8]>)
    ensures front { result.0.now ≡ (cut mark text.now).0 }
    ensures behind { MatchOption result.1 ((cut mark text.now).1 ≡ None)
        (λ behind. (cut mark text.now).1 ≡ Some behind.now) }
{
    for (at, byte) in text.iter().enumerate() {
        if *byte == mark {
            return (&text[..at], Some(&text[at + 1..]));
        }
    }
    (text, None)
}

/// The text's first line without its line feed, and what stands behind that, where there is one.
fn first_line(text: &[u8]) -> (&[u8], Option<&[u8]>)
    ensures line { result.0.now ≡ (cut 10 text.now).0 }
    ensures behind { MatchOption result.1 ((cut 10 text.now).1 ≡ None)
        (λ behind. (cut 10 text.now).1 ≡ Some behind.now) }
{
    cut_at(text, b'\n')
}

/// What stands behind the text's first line.
fn behind_line(text: &[u8]) -> &[u8]
    ensures { pieces result.now ≡ drop 1 (pieces text.now) }
{
    let (_line, behind) = first_line(text);
    match behind {
        Some(behind) => behind,
        None => &[],
    }
}

/// The text from the line with this number on.
fn text_from(text: &[u8], number: u32) -> &[u8]
    ensures { pieces result.now ≡ drop (number - 1) (pieces text.now) }
{
    let mut rest = text;
    for _ in 0..number.saturating_sub(1) {
        rest = behind_line(rest);
    }
    rest
}

/// The word as a line by itself.
fn line_of<A: Allocator>(alloc: A, word: &[u8]) -> Result<Vec<u8, A>, AllocError>
    ensures { IfOk result (λ text. text.items ≡ word.now ++ 10 ∷ []) }
{
    let mut text = Vec::new(alloc);
    text.extend_from_slice(word)?;
    text.push(b'\n')?;
    Ok(text)
}

/// Whether the word is one of a trace. It is read as a line by itself.
fn is_of_a_trace<A: Allocator>(alloc: A, word: &[u8]) -> Result<bool, AllocError>
    requires feed { lacks 10 word.now ≡ true }
    requires space { lacks 32 word.now ≡ true }

    ensures { IfOk result (λ known. known ≡ is_some (token_at word.now)) }
{
    let text = line_of(alloc, word)?;
    let mut words = Words::new();
    match words.read(text.as_slice()) {
        Some(_) => Ok(true),
        None => Ok(false),
    }
}

/// What is wrong with the words of a line that can't be read as at most 8: the first that is in no trace, or else how
/// many they are.
fn cause_of_no_words<A: Allocator + Copy>(alloc: A, line: &[u8]) -> Result<Cause, AllocError>
    requires feed { lacks 10 line.now ≡ true }
    requires unread { tokens_at 8 line.now ≡ None }

    ensures { IfOk result (λ cause. (edition : TheEdition) (number : ℕ)
        → IsCause edition cause number (line.now, true)) }
{
    let mut rest = line;
    for _ in 0..8u32 {
        let (word, behind) = cut_at(rest, b' ');
        if !is_of_a_trace(alloc, word)? {
            return Ok(Cause::UnknownWord(Excerpt::of(word)));
        }
        let Some(below) = behind else {
            unreachable!();
        };
        rest = below;
    }
    Ok(Cause::TooManyWords)
}

/// What is wrong with the text's first line, which has this number and is bad.
fn cause_of_line<A: Allocator + Copy>(
    alloc: A,
    edition: Edition,
    text: &[u8],
    number: u32,
) -> Result<Cause, AllocError>
    ensures { IfOk result (λ cause. IsCause edition cause number (first_piece text.now)) }
{
    let (line, behind) = first_line(text);
    let Some(_) = behind else {
        return Ok(Cause::NoLineFeed);
    };
    if let Some(cause) = cause_of_bytes(line) {
        return Ok(cause);
    }
    if number == head_number(edition) {
        return Ok(Cause::NotAHead);
    }
    let mut words = Words::new();
    let Some(_) = words.read(text) else {
        return cause_of_no_words(alloc, line);
    };
    cause_of_words(alloc, edition, words.tokens())
}

/// The edition that the text's first line tells.
fn edition_of(text: &[u8]) -> Edition
    ensures { result ≡ edition_at text.now }
{
    let mut words = Words::new();
    match read_mark(&mut words, text) {
        Some((edition, _)) => edition,
        None => Edition::One,
    }
}

/// What is wrong with the line that has this number, which is bad.
pub(crate) fn cause_of<A: Allocator + Copy>(
    alloc: A,
    text: &[u8],
    number: u32,
) -> Result<Cause, AllocError>
    ensures { IfOk result (λ cause. IsCause (edition_at text.now) cause number (piece_at number text.now)) }
{
    cause_of_line(alloc, edition_of(text), text_from(text, number), number)
}
