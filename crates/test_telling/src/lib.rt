//! Tests of the texts of an image and of a run: each word and each line of a trace, a dump, a layout and a summary. No code.
#![tactic(auto)]

#[cfg(test)]
mod tests;
