//! What comes of asking for a cell's turn.

/// The contents of a cell whose turn a seat has.
#[derive(Drop)]
pub struct Held<T> {
    /// The site of the cell.
    pub cell: u16,
    /// The word at which the turn was taken.
    pub word: u64,
    pub contents: T,
}

/// Another seat has the turn of the cell.
#[derive(Clone, Copy, PartialEq, Eq)]
pub struct Busy {
    /// The word that stood there, with the bit of the turn.
    pub word: u64,
}
