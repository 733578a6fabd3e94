//! Why a command line asks for nothing: a second look, at words that were refused.

ghost use Rattle.std.specs.Prelude.{◌≡◌, ◌<◌, ◌↔◌, IfSome, IsTrue, codes, length};
ghost use Rattle.brc_text.specs.Puts.{PutsText};
ghost use Rattle.brc_program.specs.Takes.{argument_at};
ghost use Rattle.brc_program.specs.Unreads.{option_name, least_of, most_of, SpellsAllowed, GivesValue, IsUnread};
ghost use Rattle.brc_program.specs.Unreads.{names_command, lacks_value, is_flag_with_value, are_both, are_same};
ghost use Rattle.brc_program.specs.Unreads.{StandsAgain, IsWrong, TellsWord};
ghost use Rattle.brc_program.specs.Unreads.{before_word, behind_word, unread_line, word_of};

use crate::command::{behind_name, brc_command};
use crate::taken::{
    argument_at, is_behind_dashes, is_command, is_dashed, is_option, is_taken, is_word, wants_value,
};
use brc_run::MOST_TURNS;
use brc_text::{Excerpt, number_of, put_bytes, put_parts, put_quoted};
use brc_words::{FEWEST_CELLS, Fault, MOST_CELLS, MOST_LOCAL};
use clap::Error;
use clap::error::ErrorKind;
use std::alloc::Global;
use std::io::Write;

/// An option of `brc run` with a number.
#[derive(Clone, Copy, Debug, PartialEq, Eq)]
pub(crate) enum Numbered {
    Cells,
    Turns,
    LocalLimit,
}

/// What is wrong with a word, as `clap` says.
#[derive(Clone, Copy, Debug, PartialEq, Eq)]
pub(crate) enum Misfit {
    /// The command has no such option, and takes no such word.
    NotTaken,
    /// There is no such command.
    NoCommand,
    /// The option needs a value.
    NoValue,
    /// The option takes no value.
    WithValue,
    /// The option stands twice.
    Twice,
}

/// Why a command line asks for nothing.
#[derive(Clone, Copy, Debug, PartialEq, Eq)]
pub(crate) enum Unread {
    /// A word of it doesn't fit.
    Word(Misfit, Excerpt),
    /// The value that is given for an option is no number of its range.
    NotWithin(Numbered, Excerpt),
}

// ---- a number of an option

/// The option, as it stands in a command line.
fn option_name(option: Numbered) -> &'static str
    ensures { result.now ≡ option_name option }
{
    match option {
        Numbered::Cells => "--cells",
        Numbered::Turns => "--budget",
        Numbered::LocalLimit => "--local-limit",
    }
}

/// The least number that the option takes.
fn least_of(option: Numbered) -> u32
    ensures { result ≡ least_of option }
{
    match option {
        Numbered::Cells => FEWEST_CELLS,
        Numbered::Turns => 1,
        Numbered::LocalLimit => 1,
    }
}

/// The largest.
fn most_of(option: Numbered) -> u32
    ensures { result ≡ most_of option }
{
    match option {
        Numbered::Cells => MOST_CELLS,
        Numbered::Turns => MOST_TURNS as u32,
        Numbered::LocalLimit => MOST_LOCAL,
    }
}

/// Whether the text is a number that the option takes.
fn is_within(option: Numbered, said: &[u8]) -> bool
    ensures { IsTrue result ↔ SpellsAllowed option said.now }
{
    match number_of(said) {
        Some(number) => least_of(option) as u64 <= number && number <= most_of(option) as u64,
        None => false,
    }
}

/// The value that the word at the place gives the option: behind its equals sign, or the next word.
fn value_at(words: &[String], at: usize, option: Numbered) -> Option<&[u8]>
    requires there { at < length words.now }

    ensures gives { IfSome result (λ said. GivesValue words.now at option said.now) }
{
    let rest = argument_at(words, at).strip_prefix(option_name(option).as_bytes())?;
    if !rest.is_empty() {
        return rest.strip_prefix(b"=");
    }
    if at + 1 < words.len() {
        return Some(argument_at(words, at + 1));
    }
    None
}

/// The first value of the option that is no number which it takes.
fn unread_value(words: &[String], option: Numbered) -> Option<Unread>
    requires run { argument_at words.now 1 ≡ codes "run" }

    ensures told { IfSome result (IsUnread words.now) }
{
    for at in 2..words.len() {
        if is_behind_dashes(words, at) {
            return None;
        }
        if let Some(said) = value_at(words, at, option)
            && !is_within(option, said)
        {
            return Some(Unread::NotWithin(option, Excerpt::of(said)));
        }
    }
    None
}

/// The first value of a run that is no number of its option.
fn unread_number(words: &[String]) -> Option<Unread>
    ensures { IfSome result (IsUnread words.now) }
{
    if !is_word(argument_at(words, 1), b"run") {
        return None;
    }
    for option in [Numbered::Cells, Numbered::Turns, Numbered::LocalLimit] {
        let unread = unread_value(words, option);
        if unread.is_some() {
            return unread;
        }
    }
    None
}

// ---- a word that doesn't fit

/// What is wrong with a word, by the kind of `clap`'s error.
fn misfit_of(kind: ErrorKind) -> Option<Misfit> {
    match kind {
        ErrorKind::UnknownArgument => Some(Misfit::NotTaken),
        ErrorKind::InvalidSubcommand => Some(Misfit::NoCommand),
        ErrorKind::InvalidValue => Some(Misfit::NoValue),
        ErrorKind::TooManyValues => Some(Misfit::WithValue),
        ErrorKind::ArgumentConflict => Some(Misfit::Twice),
        _ => None,
    }
}

/// The word without a value that an equals sign gives it.
fn without_value(word: &[u8]) -> &[u8] {
    for (at, byte) in word.iter().enumerate() {
        if *byte == b'=' {
            return &word[..at];
        }
    }
    word
}

/// Whether the text begins with the name, and the quotation ends behind it, or goes on with an option's value.
fn begins_with(text: &[u8], name: &[u8]) -> bool {
    match text.strip_prefix(name) {
        Some(rest) => rest.starts_with(b"'") || rest.starts_with(b" <"),
        None => false,
    }
}

/// Whether the first quotation in the text is of the name.
fn is_quoted_first(text: &[u8], name: &[u8]) -> bool {
    for (at, byte) in text.iter().enumerate() {
        if *byte == b'\'' {
            return begins_with(&text[at + 1..], name);
        }
    }
    false
}

/// Whether a quotation in the text is of the name.
fn is_quoted(text: &[u8], name: &[u8]) -> bool {
    for (at, byte) in text.iter().enumerate() {
        if *byte == b'\'' && begins_with(&text[at + 1..], name) {
            return true;
        }
    }
    false
}

/// Whether the first quotation in the text is of a letter that stands with others behind one dash.
fn has_letter(text: &[u8], word: &[u8]) -> bool {
    if !word.starts_with(b"-") || word.starts_with(b"--") {
        return false;
    }
    for letter in word {
        if is_quoted_first(text, &[b'-', *letter]) {
            return true;
        }
    }
    false
}

/// Whether the word is the one that `clap`'s text is of. An option with a value is quoted without it, and letters behind
/// one dash each by itself. What has a value too many is quoted behind that value.
fn is_meant(text: &[u8], misfit: Misfit, word: &[u8]) -> bool {
    let name = without_value(word);
    match misfit {
        Misfit::NotTaken => {
            is_quoted_first(text, name) || is_quoted_first(text, word) || has_letter(text, word)
        }
        Misfit::NoCommand => is_quoted_first(text, word),
        Misfit::NoValue => name.len() == word.len() && is_quoted_first(text, name),
        Misfit::WithValue => name.len() < word.len() && is_quoted(text, name),
        Misfit::Twice => is_quoted_first(text, name),
    }
}

// ---- whether what `clap` says of a word is so

/// Whether a command's name belongs at the place.
fn names_command(words: &[String], at: usize) -> bool
    ensures { result ≡ names_command words.now at }
{
    at == 1 || is_word(argument_at(words, 1), b"help") || is_word(argument_at(words, 1), b"--")
}

/// Whether the word has to have a value, and none stands behind it.
fn lacks_value(words: &[String], at: usize) -> bool
    requires there { at < length words.now }

    ensures { result ≡ lacks_value words.now at }
{
    wants_value(argument_at(words, at))
        && (at + 1 == words.len() || is_dashed(argument_at(words, at + 1)))
}

/// Whether it is an option that takes no value, and gives it one.
fn is_flag_with_value(word: &[u8]) -> bool
    ensures { result ≡ is_flag_with_value word.now }
{
    word.starts_with(b"--explain=")
        || word.starts_with(b"--help=")
        || word.starts_with(b"--version=")
}

/// Whether both words are this option.
fn are_both(option: &[u8], one: &[u8], other: &[u8]) -> bool
    ensures { result ≡ are_both option.now one.now other.now }
{
    is_option(one, option) && is_option(other, option)
}

/// Whether both are the same option.
fn are_same(one: &[u8], other: &[u8]) -> bool
    ensures { result ≡ are_same one.now other.now }
{
    are_both(b"--explain", one, other)
        || are_both(b"--cells", one, other)
        || are_both(b"--budget", one, other)
        || are_both(b"--local-limit", one, other)
}

/// Whether the option at the place stands behind it once more.
fn stands_again(words: &[String], at: usize) -> bool
    requires there { at < length words.now }

    ensures again { IsTrue result → StandsAgain words.now at }
{
    for other in at + 1..words.len() {
        if is_taken(words, other) && are_same(argument_at(words, at), argument_at(words, other)) {
            return true;
        }
    }
    false
}

/// Whether this is wrong with the word at the place.
fn is_wrong(words: &[String], at: usize, misfit: Misfit) -> bool
    requires behind { 0 < at }
    requires there { at < length words.now }

    ensures wrong { IsTrue result → IsWrong words.now at misfit }
{
    let word = argument_at(words, at);
    let is_taken = is_taken(words, at);
    match misfit {
        Misfit::NotTaken => !is_taken,
        Misfit::NoCommand => names_command(words, at) && !is_command(word),
        Misfit::NoValue => is_taken && lacks_value(words, at),
        Misfit::WithValue => is_taken && is_flag_with_value(word),
        Misfit::Twice => is_taken && stands_again(words, at),
    }
}

/// The first of the words behind the program's name that is meant, and with which this is wrong.
fn meant_word(words: &[String], text: &[u8], misfit: Misfit) -> Option<Excerpt>
    ensures told { IfSome result (TellsWord words.now misfit) }
{
    for at in 1..words.len() {
        let word = argument_at(words, at);
        if is_meant(text, misfit, word) && is_wrong(words, at, misfit) {
            return Some(Excerpt::of(word));
        }
    }
    None
}

/// The word that `clap` names, and what is wrong with it.
fn unread_word(alloc: Global, words: &[String], error: &Error) -> Option<Unread>
    ensures { IfSome result (IsUnread words.now) }
{
    let misfit = misfit_of(error.kind())?;
    let Ok(text) = error.to_string(alloc) else {
        return None;
    };
    let text = text.as_str();
    // A word may have a line feed; but behind a value too many stand other quotations, in the lines of help.
    let said = match misfit {
        Misfit::WithValue => text.lines().next()?,
        _ => text,
    };
    if let Some(word) = meant_word(words, said.as_bytes(), misfit) {
        return Some(Unread::Word(misfit, word));
    }
    // What `clap` knows as no command is one elsewhere: then it isn't taken here.
    match misfit {
        Misfit::NoCommand => {
            let word = meant_word(words, said.as_bytes(), Misfit::NotTaken)?;
            Some(Unread::Word(Misfit::NotTaken, word))
        }
        _ => None,
    }
}

/// Why the words ask for nothing, if one word of them can be named for it. Want of memory names none.
pub(crate) fn why_unread(alloc: Global, words: &[String]) -> Option<Unread>
    ensures { IfSome result (IsUnread words.now) }
{
    let Ok(brc) = brc_command(alloc) else {
        return None;
    };
    match brc.try_get_matches_from(behind_name(words)) {
        Ok(_) => unread_number(words),
        Err(error) => unread_word(alloc, words, &error),
    }
}

// ---- its line

/// What stands in the line before the word.
fn before_word(unread: Unread) -> &'static str
    ensures { result.now ≡ before_word unread }
{
    match unread {
        Unread::Word(Misfit::NotTaken, _) => "brc: why: the command does not take ",
        Unread::Word(Misfit::NoCommand, _) => "brc: why: no command is called ",
        Unread::Word(Misfit::NoValue, _) => "brc: why: no value stands behind ",
        Unread::Word(Misfit::WithValue, _) => "brc: why: no value belongs to ",
        Unread::Word(Misfit::Twice, _) => "brc: why: an option stands twice: ",
        Unread::NotWithin(_, _) => "brc: why: ",
    }
}

/// What stands behind it.
fn behind_word(unread: Unread) -> &'static str
    ensures { result.now ≡ behind_word unread }
{
    match unread {
        Unread::Word(Misfit::NoCommand, _) => ": replay, run, graph or help",
        Unread::Word(_, _) => "",
        Unread::NotWithin(Numbered::Cells, _) => " is no number of cells: 512 to 65536",
        Unread::NotWithin(Numbered::Turns, _) => " is no number of turns: 1 to 1000000",
        Unread::NotWithin(Numbered::LocalLimit, _) => " is no local limit: 1 to 4294967294",
    }
}

fn word_of(unread: &Unread) -> &Excerpt
    ensures { result.now ≡ word_of unread.now }
{
    match unread {
        Unread::Word(_, word) => word,
        Unread::NotWithin(_, word) => word,
    }
}

/// Writes the line that says why the words ask for nothing.
pub(crate) fn put_unread<E: Write>(errors: &mut E, unread: &Unread) -> Result<(), Fault>
    ensures { PutsText (E.contents errors.old) (E.contents errors.new) result (unread_line unread.now) }
{
    put_bytes(errors, before_word(*unread).as_bytes())?;
    put_quoted(errors, word_of(unread))?;
    put_parts(errors, &[behind_word(*unread).as_bytes(), b"\n"])
}
