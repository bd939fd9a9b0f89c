//! Permissions on objects, and the state of an object, on a board: each call is one step of a row's word.
#![tactic(auto)]

mod answer;
mod calls;

pub use answer::{Answer, Dropped, Passed, Set};
pub use calls::{RowCall, call_row};
