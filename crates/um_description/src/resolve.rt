//! The image of a description.

mod base;
mod boots;
mod domains;
mod futexes;
mod lines;
mod objects;
mod partitions;
mod ranges;
mod scripts;
mod whole;

pub use whole::image_or_flaw;
