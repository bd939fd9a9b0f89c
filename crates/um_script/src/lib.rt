//! Script lines both ways: a line to its instruction or its first fault, and an instruction to its canonical line.
#![tactic(auto)]

mod choices;
mod cut;
mod fault;
mod mnemonic;
mod numbers;
mod operands;
mod parse;
mod partitions;
mod print;
mod terms;
mod words;
mod writing;

pub use fault::{LineFault, LineKind};
pub use parse::parse_line;
pub use print::{print_line, put_line};
