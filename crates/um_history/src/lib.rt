//! What processors have made on a board is one fine run at every moment; and when the board is closed, their logs tell it.
#![tactic(auto)]

mod laws;

pub use laws::{every_board, every_played_board, last_holder};
