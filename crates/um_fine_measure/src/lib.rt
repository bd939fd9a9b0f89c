//! No fine run has more steps than the weight of its image.
#![tactic(auto)]

mod bound;

pub use bound::{every_fine_step, longest_fine_run};
