//! The audit of a trace: whether a text is that of a complete run of an image, and else the first line that isn't.
#![tactic(auto)]

mod auditing;
mod dump;
mod lines;
mod names;
mod parts;
mod pieces;
mod steps;
mod tending;
mod verdict;

pub use auditing::audit;
pub use parts::{Parts, parts_of};
pub use verdict::{Verdict, verdict_text};
