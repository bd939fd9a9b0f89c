//! The turn of a cell.

use std::collections::LinkedList;
use um_words::Made;

/// The turn that a seat has of a cell. It is ghost data: no value of it exists at run time.
pub struct Turn {
    pub site: u16,
    /// The word at which the turn was taken.
    pub word: u64,
    /// The steps made at the cell before that.
    pub past: LinkedList<Made>,
}
