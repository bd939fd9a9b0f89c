//! No run of the machine has more events, or deadlines, than the weight of its image.
#![tactic(auto)]

mod bound;

pub use bound::{every_deadline, every_run, every_step};
