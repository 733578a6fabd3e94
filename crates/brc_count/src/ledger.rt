//! What a thread has made, and given back.

/// How many objects a thread has made, and how many cells of dead objects it has given back, its own or others'.
#[derive(Debug, Clone, Copy)]
pub struct Ledger {
    pub allocs: u64,
    pub frees: u64,
}
