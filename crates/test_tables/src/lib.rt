//! The steps of processors on words, cells and tables made for the purpose: what each leaves, and what it says.
#![tactic(auto)]

#[cfg(test)]
mod tests;
