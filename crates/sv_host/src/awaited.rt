//! The sessions that requests wait for, as the log says of a request that has waited in vain.

use std::alloc::{AllocFailed, Global};
use sv_model::{Key, Parked};

/// A request that waits for its session.
#[derive(Clone, Copy)]
struct Waiter {
    /// The number under which the node was asked.
    token: u64,
    key: Key,
}

/// The sessions that requests wait for, by the requests' numbers.
#[derive(Drop)]
pub struct Awaited {
    waiters: Vec<Waiter>,
}

impl Awaited {
    pub fn new(alloc: Global) -> Awaited {
        Awaited {
            waiters: Vec::new(alloc),
        }
    }

    /// These requests wait, and no others. One that there is no memory for is left out.
    pub fn look(&mut self, parked: &[Parked]) {
        self.waiters.clear();
        for one in parked {
            let waiter = Waiter {
                token: one.token,
                key: one.key,
            };
            let _kept: Result<(), AllocFailed<Waiter>> = self.waiters.push(waiter);
        }
    }

    /// The key of the session that the request of a number has waited for; none if it is none of them.
    pub fn key_of(&self, token: u64) -> Option<Key> {
        let waiter = self.waiters.iter().find(|waiter| waiter.token == token)?;
        Some(waiter.key)
    }
}
