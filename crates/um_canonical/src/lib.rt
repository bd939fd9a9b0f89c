//! The canonical description of an image: its text, the printer of that text, and what the text is read back as.
#![tactic(auto)]

mod boots;
mod domains;
mod futexes;
mod laws;
mod lines;
mod names;
mod objects;
mod pairs;
mod partitions;
mod scripts;
mod text;
mod variables;

pub use laws::every_image;
pub use text::put_image;
