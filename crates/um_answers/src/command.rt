//! Commands.

/// What the program is asked to do.
#[derive(Clone, Copy, Debug, PartialEq, Eq)]
pub enum Command {
    /// Find a run that comes to what is asked, where so many states are kept at most.
    Find { states: u32 },
    /// Tell all ends of runs, where so many states are kept at most.
    Ends { states: u32 },
    /// Tell the lines that can come next.
    Next,
}
