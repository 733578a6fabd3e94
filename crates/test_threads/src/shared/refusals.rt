//! Why a shared heap isn't closed, one reason after the other, and the thread that clears its globals.

use crate::shared::client::Client;
use brc_heap::{Shared, Stays};
use std::alloc::Global;
use std::io;
use std::sync::Wait;

/// The heap is closed, which is refused: the same heap, and the reason is shown.
fn stays(rt: &impl Print, alloc: Global, shared: Shared, case: &str) -> io::Result<Option<Shared>> {
    match shared.close(alloc) {
        Ok(_report) => Ok(None),
        Err(Stays::Memory(_seen)) => Ok(None),
        Err(Stays::Open(shared, reason, _seen)) => {
            println!(rt; "{case}: {reason:?}")?;
            Ok(Some(shared))
        }
    }
}

/// The heap is still there after it was closed while another leads to it, and while a thread isn't gathered.
pub(crate) fn shows_refusals<R: Wait + Print>(
    rt: &R,
    alloc: Global,
    shared: Shared,
) -> io::Result<Option<Shared>> {
    let Ok(other) = shared.again() else {
        return Ok(None);
    };
    let Some(shared) = stays(rt, alloc, shared, "while another leads to it")? else {
        return Ok(None);
    };
    let Ok(client) = Client::register(rt, alloc, other) else {
        return Ok(None);
    };
    let shown = stays(rt, alloc, shared, "while a thread isn't gathered");
    let _counts = client.end(rt);
    shown
}

/// One thread more clears the globals, and is gathered: whether it could.
pub(crate) fn clears(rt: &impl Wait, alloc: Global, shared: &Shared) -> bool {
    let Ok(desk) = shared.again() else {
        return false;
    };
    let Ok(mut client) = Client::register(rt, alloc, desk) else {
        return false;
    };
    let cleared = client.mutator.clear_globals().is_ok();
    let _counts = client.end(rt);
    cleared
}
