//! Questions that are answered for all runs of an image.
#![tactic(auto)]

mod all_runs;
mod digest;
mod ending;
mod endings;
mod failures;
mod finding;
mod met;
mod next;
mod rooms;
mod search;
mod steps;
mod ways;

pub use all_runs::find;
pub use ending::ends;
pub use endings::Endings;
pub use finding::Finding;
pub use next::{Next, next_lines};
pub use steps::steps_of;
