//! Checks of objects by threads, and the ends of the calls that hold them, on a board.
#![tactic(auto)]

mod verify;

pub use verify::{Checked, check, end_call};
