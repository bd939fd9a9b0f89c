//! What the text of a question asks.

use crate::question::Question;

/// What a question's text asks, or which of its words, counted from 1, names nothing.
#[derive(Drop)]
pub enum Asking {
    /// This is asked.
    Is(Question),
    /// This word, counted from 1, names nothing.
    Unknown { word: u32 },
}
