//! What one line says.

ghost use Rattle.std.specs.Prelude.{◌≡◌, IfOk, IfErr, MatchOption, Some, None};
ghost use Rattle.std.specs.List.{list_all};
ghost use Rattle.brc_words.specs.declared.fault.Fault.TheVariants.{OutOfMemory};
ghost use Rattle.brc_script.specs.Operands.{if_it_is};
ghost use Rattle.brc_script.specs.Rows.{is_low, is_plain, is_idle, is_section_name};

use crate::limits::MOST_SECTION_NAME;
use crate::operands::copy;
use crate::script::Line;
use brc_words::{Fault, Text};
use std::alloc::Allocator;

/// A line of a script by itself.
#[derive(Drop)]
pub(crate) enum ScriptRow<A: Allocator> {
    /// An empty line, or a comment.
    Idle,
    Section(Text<A>),
    Repeat(u32),
    End,
    Does(Line<A>),
}

fn are_low(bytes: &[u8]) -> bool
    ensures { result ≡ list_all is_low bytes.now }
{
    for byte in bytes {
        if *byte >= 128 {
            return false;
        }
    }
    true
}

fn are_plain(bytes: &[u8]) -> bool
    ensures { result ≡ list_all is_plain bytes.now }
{
    for byte in bytes {
        if !(97 <= *byte && *byte <= 122 || 48 <= *byte && *byte <= 57) {
            return false;
        }
    }
    true
}

/// Whether the line is empty or a comment.
#[tactic(auto, unfolding(crate::specs::Rows::is_idle))]
pub(crate) fn is_idle(line: &[u8]) -> bool
    ensures { result ≡ is_idle line.now }
{
    match line {
        [] => true,
        [first, bytes @ ..] => *first == b'#' && are_low(bytes),
    }
}

#[tactic(auto, unfolding(crate::specs::Rows::is_section_name))]
fn is_section_name(bytes: &[u8]) -> bool
    ensures { result ≡ is_section_name bytes.now }
{
    1 <= bytes.len() && bytes.len() <= MOST_SECTION_NAME && are_plain(bytes)
}

/// The name of a section.
#[tactic(auto, using(crate::proofs::Ascii::section_name_low))]
pub(crate) fn section_name_of<A: Allocator>(
    alloc: A,
    bytes: &[u8],
) -> Result<Option<Text<A>>, Fault>
    ensures read { IfOk result (λ name. name ≡ if_it_is is_section_name bytes.now) }
    ensures refused { IfErr result (λ fault. fault ≡ OutOfMemory) }
{
    if !is_section_name(bytes) {
        return Ok(None);
    }
    copy(alloc, bytes)
}
