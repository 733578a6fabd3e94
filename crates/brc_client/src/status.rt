//! What a call by numbers answers if it is refused.

ghost use Rattle.std.specs.Prelude.{◌≡◌, ◌<◌, IfOk, IfErr, OnErr};
ghost use Rattle.std.specs.Str.{IsUtf8};
ghost use Rattle.brc_client.specs.Numbers.{status_number};
ghost use Rattle.brc_client.specs.declared.status.Status.TheVariants as statuses;

use brc_words::Fault;

/// Why a call was refused: a fault of the heap, or one of these.
#[derive(Clone, Copy, Debug, PartialEq, Eq)]
pub enum Status {
    /// The heap refused.
    Fault(Fault),
    /// The number's reference isn't there any more: it was released or given away.
    Stale,
    /// The number is of another registration, or none.
    Foreign,
    /// One number was given for two references.
    Same,
    /// The thread has left, or the heap has ended.
    Gone,
    /// The bytes are no UTF-8.
    NotText,
    /// It holds neither a scalar nor a reference.
    NotValue,
}

impl Status {
    /// Its number: that of the fault, 1 to 17, or 64 to 69. None has the number 0.
    #[tactic(auto, using(crate::proofs::Statuses::fault_above))]
    pub fn number(self) -> u32
        ensures number { result ≡ status_number self }
        ensures above { 0 < result }
    {
        match self {
            Status::Fault(fault) => u32::from(fault.number()),
            Status::Stale => 64,
            Status::Foreign => 65,
            Status::Same => 66,
            Status::Gone => 67,
            Status::NotText => 68,
            Status::NotValue => 69,
        }
    }
}

/// The bytes as a text. NotText if they are no UTF-8.
#[inline(always)]
pub fn text_of(bytes: &[u8]) -> Result<&str, Status>
    ensures text { IfOk result (λ text. text.now ≡ bytes.now) }
    ensures refused { IfErr result (λ status. status ≡ statuses.NotText) }
    ensures not_text { OnErr result (IsUtf8 bytes.now → ⊥) }
{
    match str::from_utf8(bytes) {
        Ok(text) => Ok(text),
        Err(_) => Err(Status::NotText),
    }
}
