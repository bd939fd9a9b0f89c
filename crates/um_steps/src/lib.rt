//! The rules of the machine as functions over slices and records, each with a definition of the machine as its contract.
#![tactic(auto)]

pub mod blank;
pub mod buffers;
pub mod bytes;
pub mod costs;
pub mod domains;
mod dumped;
pub mod futexes;
pub mod holds;
pub mod kinds;
pub mod order;
pub mod regions;
pub mod registers;
pub mod rodata;
pub mod rows;
pub mod same;
pub mod time;
pub mod waits;

pub use dumped::Dumped;
