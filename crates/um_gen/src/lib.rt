//! Generated descriptions: of each number one, with threads that allocate, take and give semaphores, and pass messages.
#![tactic(auto)]

mod boots;
mod generating;
mod objects;
mod parts;
mod scripts;
mod writer;

pub use generating::generate;

#[cfg(test)]
mod tests;
