//! The command that the program's words are.
#![tactic(auto)]

mod command;
mod numbers;
mod reading;
#[cfg(test)]
mod tests;

pub use command::{Command, Options};
pub use numbers::number;
pub use reading::read_command;
