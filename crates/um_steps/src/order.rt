//! The order of an instruction: the steps that follow its begin, and what follows a refusal or an error.

mod accesses;
mod calls;
mod creation;
mod domains;
mod ends;
mod follow;
mod futexes;
mod initialisations;
mod instructions;
mod objects;
mod operands;
mod services;
mod steps;
mod stops;
mod threads;
mod timers;

pub use ends::{end_steps, fatal_steps, next_doom};
pub use follow::{after_error, answer_error, copy_fails, refused, refuses, runs_to};
pub use instructions::begins;
pub use operands::value_of;
pub use steps::rounded;
