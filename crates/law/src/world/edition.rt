//! The two editions of the heap's events.

/// Which events there are, and when they are enabled.
#[derive(Clone, Copy, Debug, PartialEq, Eq)]
pub enum Edition {
    /// A thread leaves its objects to whoever asks next, and its number is never used again.
    One,
    /// A thread hands its objects over before it leaves, and its number may be used again.
    Two,
}
