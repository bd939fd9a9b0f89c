//! The last state of the access-matrix machine, read off the sites that a fine run has left.
#![tactic(auto)]

mod closing;
mod laws;
mod read_sites;

pub use closing::Closing;
pub use laws::every_closing;
pub use read_sites::ReadSites;
