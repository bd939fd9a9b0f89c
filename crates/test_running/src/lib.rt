//! Tests of the top call: what each command writes or is refused with, runs whose processors are threads, and sources and
//! sinks that fail. No code.
#![tactic(auto)]

#[cfg(test)]
mod tests;
