//! The judge on described images: what it lets through, and what it refuses; and how verdicts are told.
#![tactic(auto)]

#[cfg(test)]
mod tests;
