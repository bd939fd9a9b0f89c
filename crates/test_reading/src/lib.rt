//! Tests of script lines and of documents: what each is read as, and the first fault of one that is refused. No code.
#![tactic(auto)]

#[cfg(test)]
mod tests;
