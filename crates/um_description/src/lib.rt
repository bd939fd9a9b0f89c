//! A description's meaning: the image that it gives, or its flaws in the order of their kinds and places.
#![tactic(auto)]

mod blocks;
mod duplicates;
mod fault;
mod first;
mod flaw;
mod indexed;
mod kinds;
mod limits;
mod lines;
mod mentions;
mod named;
mod numbers;
mod order;
mod packing;
mod read;
mod resolve;
mod seen;
mod spots;
mod strangers;
mod unknown;
mod weighing;

pub use duplicates::first_duplicate;
pub use fault::fault_of;
pub use flaw::{Counted, Flaw};
pub use kinds::meaning;
pub use limits::first_limit;
pub use unknown::first_unknown;
pub use weighing::weight;
