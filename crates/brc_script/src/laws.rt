//! What the grammar of a line comes to.

ghost use Rattle.std.specs.Prelude.{◌≡◌, ◌↔◌, ℕ, List, Some};
ghost use Rattle.brc_script.specs.declared.row.ScriptRow.{ScriptRow as TheRow};
ghost use Rattle.brc_script.specs.Rows.{row_at};
ghost use Rattle.brc_script.specs.Texts.{Says, IsNumbered};

use std::alloc::Allocator;

/// What a line spells is read from it, and nothing else is.
pub fn lines_are_read_as_spelled<A: Allocator>()
    ensures { (number : ℕ) (line : List ℕ) (row : TheRow A)
        → (row_at number line ≡ Some row) ↔ (Says line row × IsNumbered number row) }
{}
