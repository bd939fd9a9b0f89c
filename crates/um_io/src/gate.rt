//! A place where processors may be held, for tests.

/// Where a test may hold a processor before one of its turns, whose number counts from 0. In a turn a processor makes one step, or looks
/// whether there is one. A gate can be shared between threads, and means nothing to a run but that the turn comes after it.
pub trait Gate {
    fn pause(&self, cpu: u32, step: u64);
}

/// Holds nobody.
#[derive(Clone, Copy)]
pub struct NoGate;

impl Gate for NoGate {
    fn pause(&self, cpu: u32, step: u64) {
        let _ = (cpu, step);
    }
}
