//! The tables of the fine machine as they stand at an image's opening.
#![tactic(auto)]

mod cells;
mod tables;
mod words;

pub use tables::opening;

#[cfg(test)]
mod tests;
