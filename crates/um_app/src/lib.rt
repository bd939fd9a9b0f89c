//! The top call: from command words and a description to the text of a run.
#![tactic(auto)]

mod answer;
mod laws;
mod sim;
mod status;
mod threads;
mod top;

pub use laws::one_answer;
pub use sim::sim_events;
pub use status::Status;
pub use top::{serial, zumode};
