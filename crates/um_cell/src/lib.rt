//! Cells with contents on a board: a seat takes a cell's turn with its contents, and gives it back with a step or unchanged.
#![tactic(auto)]

mod cells;
mod held;
mod opening;
mod put;
mod take;

pub use cells::Cells;
pub use held::{Busy, Held};
