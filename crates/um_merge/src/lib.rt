//! Logs of steps, and the merge of several processors' logs into one list.
#![tactic(auto)]

mod log;
mod logged;
mod merging;
#[cfg(test)]
mod tests;

pub use log::Log;
pub use logged::{Logged, PROCESSORS, SITES};
pub use merging::merged;
