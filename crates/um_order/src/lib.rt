//! The order of the events that a fine run by one processor shows.
#![tactic(auto)]

mod laws;

pub use laws::one_order;
