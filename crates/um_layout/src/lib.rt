//! The layout of memory: sizes are rounded to what the protection unit guards, and ranges of them stand in an area without a gap.
#![tactic(auto)]

mod entries;
mod placing;
mod rounding;

pub use placing::{NoRoom, place};
pub use rounding::rounded;

#[cfg(test)]
mod tests;
