//! Questions about all runs, asked of described images.
#![tactic(auto)]

#[cfg(test)]
mod tests;
