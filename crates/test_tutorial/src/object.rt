//! Step 1, an object: a text is made, held twice, read, and let go.

ghost use Rattle.brc_heap.specs.Words.{IsUnlocked, Keeps};

use brc_heap::{Frame, Text, new_text, text_of};
use std::alloc::Global;
use std::sync::Wait;

/// How many bytes a text has that is made of this one. It is read by the second of two references.
pub(crate) fn measures(
    rt: &impl Wait,
    alloc: Global,
    frame: &mut Frame<'_>,
    text: &str,
) -> Option<usize>
    requires unlocked { IsUnlocked frame.old }
    ensures keeps { Keeps frame.old frame.new }
    ensures unlocked { IsUnlocked frame.new }
{
    let Ok(bytes) = String::from_str(alloc, text) else {
        return None;
    };
    let Ok(first) = new_text(alloc, frame, Text::new(bytes)) else {
        return None;
    };
    let Ok(second) = frame.retain(&first) else {
        frame.release(first); // a handle can't be forgotten: without this line it doesn't compile
        return None;
    };
    frame.release(first); // the object lives as long as the second handle does
    let length = match text_of(rt, alloc, frame, &second) {
        Ok(copy) => Some(copy.as_bytes().len()),
        Err(_) => None,
    };
    frame.release(second);
    length
}
