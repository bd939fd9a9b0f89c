//! The six services: what an act on an object's contents answers, whom it wakes, and what it leaves; and who is woken that waits for no object.
#![tactic(auto)]

mod acts;
mod awaited;
mod message_queue;
mod mutex;
mod order;
mod outcome;
mod pipe;
mod preview;
mod semaphore;
mod stack;
mod timer;
mod waking;

pub use acts::{act, says};
pub use awaited::{end_joins, says_end_joins, says_wake_futex, wake_futex};
pub use outcome::{Outcome, Woken};
pub use preview::Said;
pub use timer::{run_out, says_run_out};

#[cfg(test)]
mod tests;
