//! The calls on a board, by worked rows and in many threads, and the cells of a board.
#![tactic(auto)]

#[cfg(test)]
mod cell_tests;
#[cfg(test)]
mod tests;
