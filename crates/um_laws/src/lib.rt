//! What holds of every run of the machine.
#![tactic(auto)]

mod laws;

pub use laws::every_run;
