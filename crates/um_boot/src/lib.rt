//! The state of an image at its opening, but for its objects, which stand in the image itself.
#![tactic(auto)]

pub mod flags;
mod opening_parts;
mod opening_state;

pub use opening_parts::OpeningParts;
pub use opening_state::OpeningState;
