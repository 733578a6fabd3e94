//! Reading one line.

ghost use Rattle.std.specs.Prelude.{◌≡◌, IfOk, IfErr, Some, None};
ghost use Rattle.brc_words.specs.declared.fault.Fault.TheVariants.{OutOfMemory};
ghost use Rattle.brc_script.specs.Rows.{row_by, row_at};

use crate::cutting::cut;
use crate::first_word::{FirstWord, first_word_of};
use crate::instruction_line::line_of;
use crate::operands::times_of;
use crate::row::{ScriptRow, is_idle, section_name_of};
use brc_words::Fault;
use std::alloc::Allocator;

/// A line with something behind its first word.
fn row_with<A: Allocator>(
    alloc: A,
    number: u32,
    word: FirstWord,
    rest: &[u8],
) -> Result<Option<ScriptRow<A>>, Fault>
    ensures read { IfOk result (λ row. row ≡ row_by number word (Some rest.now)) }
    ensures refused { IfErr result (λ fault. fault ≡ OutOfMemory) }
{
    match word {
        FirstWord::End => Ok(None),
        FirstWord::Section => match section_name_of(alloc, rest)? {
            Some(name) => Ok(Some(ScriptRow::Section(name))),
            None => Ok(None),
        },
        FirstWord::Repeat => match times_of(rest) {
            Some(times) => Ok(Some(ScriptRow::Repeat(times))),
            None => Ok(None),
        },
        _ => match line_of(alloc, number, word, rest)? {
            Some(line) => Ok(Some(ScriptRow::Does(line))),
            None => Ok(None),
        },
    }
}

/// A line of one word.
fn row_alone<A: Allocator>(number: u32, word: FirstWord) -> Option<ScriptRow<A>>
    ensures { result ≡ row_by number word None }
{
    match word {
        FirstWord::End => Some(ScriptRow::End),
        _ => None,
    }
}

/// What the line of this number says; none where it is bad by itself.
#[tactic(auto, unfolding(crate::specs::Rows::row_at))]
pub(crate) fn row_of<A: Allocator>(
    alloc: A,
    number: u32,
    line: &[u8],
) -> Result<Option<ScriptRow<A>>, Fault>
    ensures read { IfOk result (λ row. row ≡ row_at number line.now) }
    ensures refused { IfErr result (λ fault. fault ≡ OutOfMemory) }
{
    if is_idle(line) {
        return Ok(Some(ScriptRow::Idle));
    }
    let (first, behind) = cut(line, b' ');
    let Some(word) = first_word_of(first) else {
        return Ok(None);
    };
    match behind {
        Some(rest) => row_with(alloc, number, word, rest),
        None => Ok(row_alone(number, word)),
    }
}
