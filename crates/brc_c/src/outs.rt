//! What an export returns, and what it writes first. 0 is OK; a status of `brc_client` has its number.

ghost use Rattle.std.specs.Prelude.{◌≡◌, ◌≢◌};
ghost use Rattle.brc_client.specs.Numbers.{status_number};
ghost use Rattle.brc_client.specs.declared.status.Status.TheVariants as statuses;
ghost use Rattle.brc_c.specs.Calls.{is_yes};
ghost use Rattle.brc_c.specs.Exports.{code_of, Writes, itself, truth_number, old_number};

use brc_client::Status;

/// What the call gave is written, or its refusal's number is returned.
#[inline(always)]
pub(crate) fn write<T>(made: Result<T, Status>, to: &mut T) -> u32
where
    T: Drop,
    ensures code { result ≡ code_of made }
    ensures written { Writes itself to.old to.new made }
    ensures kept { result ≢ 0 → to.new ≡ to.old }
{
    match made {
        Ok(value) => {
            *to = value;
            0
        }
        Err(status) => status.number(),
    }
}

/// 1 or 0 is written. C's variable may have had any byte in it, which no `bool` may, so it is a `u32`.
#[inline(always)]
pub(crate) fn write_truth(made: Result<bool, Status>, to: &mut u32) -> u32
    ensures code { result ≡ code_of made }
    ensures written { Writes truth_number to.old to.new made }
    ensures kept { result ≢ 0 → to.new ≡ to.old }
{
    match made {
        Ok(true) => {
            *to = 1;
            0
        }
        Ok(false) => {
            *to = 0;
            0
        }
        Err(status) => status.number(),
    }
}

/// The number of what came out is written, or 0 if nothing came out. No reference has the number 0.
#[inline(always)]
pub(crate) fn write_old(made: Result<Option<u64>, Status>, old: &mut u64) -> u32
    ensures code { result ≡ code_of made }
    ensures written { Writes old_number old.old old.new made }
    ensures kept { result ≢ 0 → old.new ≡ old.old }
{
    match made {
        Ok(Some(number)) => {
            *old = number;
            0
        }
        Ok(None) => {
            *old = 0;
            0
        }
        Err(status) => status.number(),
    }
}

/// The status of a call on a thread that has left.
#[inline(always)]
pub(crate) fn gone() -> u32
    ensures { result ≡ status_number statuses.Gone }
{
    Status::Gone.number()
}

/// Nothing is written: nothing comes out for what was given.
#[inline(always)]
pub(crate) fn status_of_taking<T>(made: Result<Option<T>, Status>) -> u32
where
    T: Drop,
    ensures { result ≡ code_of made }
{
    match made {
        Ok(_) => 0,
        Err(status) => status.number(),
    }
}

/// Nothing is written.
#[inline(always)]
pub(crate) fn status_of(made: Result<(), Status>) -> u32
    ensures { result ≡ code_of made }
{
    match made {
        Ok(()) => 0,
        Err(status) => status.number(),
    }
}

/// Whether C says yes: by any number but 0.
pub(crate) fn says_yes(number: u32) -> bool
    ensures { result ≡ is_yes number }
{
    number != 0
}
