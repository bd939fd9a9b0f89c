//! Descriptions both ways: a text gives an image, laid out in memory, or the first of its faults; and an image gives
//! the text that describes it in version 2.
//!
//! The form of a text stands in `um_document`, the meaning of what it describes in `um_description`, and the text of
//! an image in `um_canonical`.
#![tactic(auto)]

mod laws;
mod print;
mod read;

pub use laws::every_text;
pub use print::print_image;
pub use read::read_image;
pub use um_description::weight;
pub use um_document::{ImageFault, Spot, fault_text};
