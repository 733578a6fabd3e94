//! What a command takes of the words behind the program's name, by what this program says of itself.
//!
//! `clap` reads the words, and says what is wrong with them. No contract of it says that this is so; these tests do.

ghost use Rattle.std.specs.Prelude.{◌≡◌, ◌<◌, ◌≤◌, length};
ghost use Rattle.std.specs.Str.{bytes_eq};
ghost use Rattle.brc_program.specs.Takes.{argument_at, is_option, is_number_option, wants_value, is_dashed, is_command};
ghost use Rattle.brc_program.specs.Takes.{may_begin, has_option, is_value, is_dashes, is_behind_dashes, is_taken};

/// The bytes of the word at the place; none if no word stands there.
pub(crate) fn argument_at(words: &[String], at: usize) -> &[u8]
    ensures { result.now ≡ argument_at words.now at }
{
    if at < words.len() {
        words[at].as_bytes()
    } else {
        b""
    }
}

/// Whether the word is this one.
pub(crate) fn is_word(word: &[u8], said: &[u8]) -> bool
    ensures { result ≡ bytes_eq word.now said.now }
{
    word == said
}

// ---- words by themselves

/// Whether the word is the option, or gives it a value behind an equals sign.
pub(crate) fn is_option(word: &[u8], option: &[u8]) -> bool
    ensures { result ≡ is_option word.now option.now }
{
    word.starts_with(option)
        && {
            let rest = &word[option.len()..];
            rest.is_empty() || rest.starts_with(b"=")
        }
}

/// Whether it is so an option of `brc run` with a number.
fn is_number_option(word: &[u8]) -> bool
    ensures { result ≡ is_number_option word.now }
{
    is_option(word, b"--cells") || is_option(word, b"--budget") || is_option(word, b"--local-limit")
}

/// Whether it is such an option without an equals sign, so that the next word is its value.
pub(crate) fn wants_value(word: &[u8]) -> bool
    ensures { result ≡ wants_value word.now }
{
    is_word(word, b"--cells") || is_word(word, b"--budget") || is_word(word, b"--local-limit")
}

/// Whether it begins with a dash, and isn't that alone: no value does.
pub(crate) fn is_dashed(word: &[u8]) -> bool
    ensures { result ≡ is_dashed word.now }
{
    word.starts_with(b"-") && word.len() > 1
}

pub(crate) fn is_command(word: &[u8]) -> bool
    ensures { result ≡ is_command word.now }
{
    is_word(word, b"replay")
        || is_word(word, b"run")
        || is_word(word, b"graph")
        || is_word(word, b"help")
}

/// Whether it may stand right behind the program's name: a command, or the option that asks for the version.
fn may_begin(word: &[u8]) -> bool
    ensures { result ≡ may_begin word.now }
{
    is_command(word) || is_option(word, b"--version") || is_word(word, b"-V")
}

/// Whether the command has the option. Each has help, a replay and a run have reasons, and a run has numbers.
fn has_option(command: &[u8], word: &[u8]) -> bool
    ensures { result ≡ has_option command.now word.now }
{
    if is_option(word, b"--help") || is_word(word, b"-h") {
        return true;
    }
    if is_word(command, b"run") {
        return is_option(word, b"--explain") || is_number_option(word);
    }
    is_word(command, b"replay") && is_option(word, b"--explain")
}

// ---- words in their places

/// Whether the word at the place is the value of the one before it.
fn is_value(words: &[String], at: usize) -> bool
    requires behind { 0 < at }

    ensures { result ≡ is_value words.now at }
{
    wants_value(argument_at(words, at - 1)) && !is_dashed(argument_at(words, at))
}

fn is_dashes(word: &String) -> bool
    ensures { result ≡ is_dashes word.now }
{
    word.as_bytes() == b"--".as_slice()
}

/// Whether two dashes stand before the place, behind which no word is an option.
pub(crate) fn is_behind_dashes(words: &[String], at: usize) -> bool
    requires within { at ≤ length words.now }

    ensures { result ≡ is_behind_dashes words.now at }
{
    words[..at].iter().any(|word| is_dashes(word))
}

/// Whether the word at the place is what may begin, an option of the command, or a value.
pub(crate) fn is_taken(words: &[String], at: usize) -> bool
    requires behind { 0 < at }
    requires there { at < length words.now }

    ensures { result ≡ is_taken words.now at }
{
    let word = argument_at(words, at);
    if is_behind_dashes(words, at) {
        return false;
    }
    (at == 1 && may_begin(word)) || has_option(argument_at(words, 1), word) || is_value(words, at)
}
