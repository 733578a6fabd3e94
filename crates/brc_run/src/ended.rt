//! How a run ended.

/// What is asked of a run for its status.
#[derive(Clone, Copy, Debug, PartialEq, Eq)]
pub struct RunEnded {
    /// Whether a mortal object lives at the end.
    pub lives: bool,
    /// Whether a fault ended a section.
    pub faulted: bool,
}
