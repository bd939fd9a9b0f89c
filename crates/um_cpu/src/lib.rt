//! Processors of the fine machine as threads, on one board of shared words.
#![tactic(auto)]

mod cpu;
mod events;
mod left_board;
mod run;
mod seats;
mod turn;
mod turns;

pub use cpu::Cpu;
pub use events::{Ran, run_events};
pub use left_board::LeftBoard;
pub use run::{Ended, run_cpus};
pub use turn::Turn;
