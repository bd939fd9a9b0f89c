//! Threads and domains on a board: their lives, holds and claims, each call one step of a word.
#![tactic(auto)]

mod domains;
mod outcome;
mod threads;

pub use domains::{DomainCall, call_domain};
pub use outcome::Outcome;
pub use threads::{ThreadCall, call_thread};
