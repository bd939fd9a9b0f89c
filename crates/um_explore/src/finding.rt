//! What a search tells of all runs.

/// Whether any run of an image has an event of a form.
#[derive(Drop)]
pub enum Finding {
    /// One has: this is the text of a complete run, in which such an event is as early as in any.
    Found(Vec<u8>),
    /// None has. So many states were looked at.
    Never { states: usize },
    /// So many states were met, and the steps of so many of them were not looked at.
    Unknown { states: usize, unseen: usize },
}
