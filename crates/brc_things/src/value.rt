//! What an entry of a container holds, for a client that notes something there.

use brc_count::Handle;
use brc_words::{Key, Note};
use std::alloc::Allocator;

/// A scalar of the client's, which is no more than its note: its entry's reference is None's. Or a reference to an
/// object, and what is noted beside it.
pub enum Value<A: Allocator> {
    Scalar(Note),
    Object(Handle<A>, Note),
}

/// A pair of a dictionary, as one look found it: its key, what stands beside it, and how many pairs there were.
pub struct Pair<A: Allocator> {
    pub key: Key<A>,
    pub value: Value<A>,
    pub of: u32,
}

/// What became of a value that goes into an entry only if that is still what was expected.
pub enum SwapIf<A: Allocator> {
    /// It went in, and what stood there came out.
    Swapped(Value<A>),
    /// Something else stands there, and it came back.
    Differs(Value<A>),
}
