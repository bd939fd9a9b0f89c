//! One processor of the fine machine, over any implementation of `Sites`: the short acts by which it asks each site for a step, and the
//! steps that it makes.
#![tactic(auto)]

mod cleaning;
mod phase;
mod processor;
mod request;
mod running;
mod turns;

pub use cleaning::{CleanStage, CleanStep, Cleaning, Gone};
pub use phase::{Phase, Turn};
pub use processor::Processor;
pub use running::Running;
