//! What a processor asks of the memory's cell for calls on futexes.

use crate::seeker::Seeker;
use um_base::{Addr, ThreadIx, Timeout};

/// A wait on the futex at an address, where the number there is this one.
#[derive(Clone, Copy)]
pub struct FutexWait {
    pub seeker: Seeker,
    pub addr: Addr,
    pub value: u32,
    /// Whether the thread may read there.
    pub allowed: bool,
    pub timeout: Timeout,
}

/// A wake of those who wait on the futex at an address.
#[derive(Clone, Copy)]
pub struct FutexWake {
    pub thread: ThreadIx,
    pub addr: Addr,
    /// Whether the thread may read there.
    pub allowed: bool,
    /// Whether all of them are woken, or only the one that is served first.
    pub all: bool,
}
