//! The laws that the texts of different runs differ, and that states which agree in all that a dump reads have the same text. They are about the machine's definitions and those of texts, and have no code.
#![tactic(auto)]

mod dumps;
mod texts;

pub use dumps::one_dump;
pub use texts::every_text;
