//! Tests of the machine's steps and of the order of processors: a run step by step, a list of events that is judged, and
//! the words of a seed. No code.
#![tactic(auto)]

#[cfg(test)]
mod tests;
