//! What a refused call hands back.

ghost use Rattle.std.specs.Prelude.{◌≡◌};

use brc_words::Fault;

/// Why a call was refused, and what it had taken, as it was.
#[derive(Debug, Drop)]
pub struct HandedBack<T> {
    pub fault: Fault,
    pub value: T,
}

impl<T> HandedBack<T> {
    /// Both parts, to be had one by one.
    #[inline(always)]
    pub fn parts(self) -> (Fault, T)
        ensures { result ≡ (self.fault, self.value) }
    {
        let HandedBack { fault, value: back } = self;
        (fault, back)
    }
}
