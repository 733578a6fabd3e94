//! The gate at which threads wait for one another, so that all look for the list at the same time.

use std::sync::{Condvar, Mutex, Wait};

/// It is closed at first, and opened once.
#[derive(Drop)]
pub(crate) struct Gate {
    is_open: Mutex<bool>,
    opened: Condvar,
}

impl Gate {
    /// A gate that nobody passes yet.
    pub(crate) fn closed() -> Gate {
        Gate {
            is_open: Mutex::new(false),
            opened: Condvar::new(),
        }
    }

    /// Whoever waits at it passes, and whoever comes later.
    pub(crate) fn open(&self, rt: &impl Wait) {
        *self.is_open.lock(rt) = true;
        self.opened.notify_all();
    }

    /// Waits until it is open.
    pub(crate) fn pass(&self, rt: &impl Wait) {
        let _is_open = self
            .opened
            .wait_while(rt, self.is_open.lock(rt), |is_open| !*is_open);
    }
}
