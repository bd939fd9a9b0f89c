//! Questions about all runs of an image: from command words and a description to what answers them.
#![tactic(auto)]

mod answer;
mod command;
mod numbers;
mod reading;
mod refusal;
mod status;
mod told;
mod top;

pub use status::Status;
pub use top::explore;
