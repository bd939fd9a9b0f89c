//! What comes of a processor's turn.

/// What comes of a processor's turn at a board.
#[derive(Clone, Copy, PartialEq, Eq)]
pub enum Turn {
    /// It asked for its next step. Whether the step was made, the log shows.
    Did,
    /// It has no thread, and by this word of the scheduler none is ready, but some thread runs or something is owed.
    Idle { word: u64 },
    /// It has no thread, and by this word of the scheduler none is ready, none runs, and nothing is owed.
    Quiet { word: u64 },
}
