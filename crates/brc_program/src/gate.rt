//! The gate of the program's sections.

use brc_run::Gate;
use std::sync::Wait;

/// Lets each instruction start at once.
#[derive(Drop)]
pub(crate) struct Open;

impl Gate for Open {
    ghost may_refuse = { λ _ _ _. ⊥ };

    fn at<R: Wait>(&self, _rt: &R, _section: u32, _line: u32) -> bool {
        true
    }
}
