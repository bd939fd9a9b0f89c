//! The access-matrix machine: threads against objects and byte ranges, and the steps that they may make.
#![tactic(auto)]

mod area;
mod clock;
mod matrix;
mod object_table;
mod places;
mod tables;

pub use matrix::{Matrix, NotAStep};
pub use tables::{Choice, Tables};
