//! Reading a script.

ghost use Rattle.std.specs.Prelude.{List, ◌≡◌, ◌<◌, ◌≤◌, length, Ok, IfOk, IfErr};
ghost use Rattle.brc_words.specs.declared.fault.Fault.TheVariants.{OutOfMemory};
ghost use Rattle.brc_script.specs.declared.script.Section.{Section as TheSection};
ghost use Rattle.brc_script.specs.Scripts.{IsScript};
ghost use Rattle.brc_script.specs.Texts.{IsTextOf};
ghost use Rattle.brc_script.specs.Walks.{lines_of, turn_at, walk, nothing, finished, script_at, ReadsScript};

use crate::limits::MOST_SECTIONS;
use crate::lines::{first_line, has_section};
use crate::progress::Progress;
use crate::reading_line::row_of;
use crate::script::Script;
use brc_words::{Fault, MOST_INPUT};
use std::alloc::Allocator;

/// With one more line, of this number; none where it is bad.
#[tactic(auto, unfolding(crate::specs::Walks::turn_at))]
fn turn<A: Allocator + Copy>(
    alloc: A,
    progress: Progress<A>,
    number: u32,
    line: &[u8],
    behind: &[u8],
) -> Result<Option<Progress<A>>, Fault>
    ensures read { IfOk result (λ next. next ≡ turn_at progress number line.now (lines_of behind.now)) }
    ensures refused { IfErr result (λ fault. fault ≡ OutOfMemory) }
{
    match row_of(alloc, number, line)? {
        Some(row) => {
            let next = progress.take(alloc, row, behind)?;
            Ok(next)
        }
        None => Ok(None),
    }
}

/// What all lines build up, or the first bad one.
fn progress_of<A: Allocator + Copy>(alloc: A, text: &[u8]) -> Result<Progress<A>, Fault>
    requires { length text.now ≤ MOST_INPUT }

    ensures read { ReadsScript result (walk nothing 1 (lines_of text.now)) }
    ensures few { IfOk result (λ progress. length progress.done < MOST_SECTIONS) }
{
    let mut progress = Progress::new(alloc);
    let mut rest = text;
    let mut number: u32 = 1;
    while !rest.is_empty() {
        let (line, behind) = first_line(rest);
        let Some(next) = turn(alloc, progress, number, line, behind)? else {
            return Err(Fault::BadScript { line: number });
        };
        progress = next;
        number += 1;
        rest = behind;
    }
    Ok(progress)
}

/// The script, unless there is no section.
#[tactic(auto, using(crate::proofs::WalkLaws::some_sections, crate::proofs::WalkLaws::few_sections))]
fn finish<A: Allocator + Copy>(progress: Progress<A>) -> Result<Script<A>, Fault>
    requires { length progress.done < MOST_SECTIONS }

    ensures { ReadsScript result (finished (Ok progress)) }
{
    if progress.name.is_none() {
        return Err(Fault::BadScript { line: 1 });
    }
    let sections = progress.into_sections()?;
    Ok(Script::new(sections))
}

/// The script that the text spells, or its first bad line.
fn script_of<A: Allocator + Copy>(alloc: A, text: &[u8]) -> Result<Script<A>, Fault>
    ensures { ReadsScript result (script_at text.now) }
{
    if text.len() > MOST_INPUT {
        return Err(Fault::BadScript { line: 0 });
    }
    if !has_section(text) {
        return Err(Fault::BadScript { line: 1 });
    }
    let progress = progress_of(alloc, text)?;
    finish(progress)
}

/// Reads a script: the whole text, in which empty lines and comments say nothing. Refusals are the first bad line,
/// counted from 1 (0 for a text of more than 16,777,216 bytes, 1 for one in which no line begins with `section`), and
/// want of memory. Memory grows with the script alone.
pub fn parse<A: Allocator + Copy>(alloc: A, text: &[u8]) -> Result<Script<A>, Fault>
    // The lines of the text say what is answered, in order.
    ensures found { IfOk result (λ script. IsTextOf text.now script) }
    // A script of which the text is, is answered, unless memory runs out.
    ensures only { (sections : List (TheSection A)) → IsTextOf text.now sections → IsScript sections →
        ReadsScript result (Ok sections) }
    // Which line is told.
    ensures exact { ReadsScript result (script_at text.now) }
{
    script_of(alloc, text)
}
