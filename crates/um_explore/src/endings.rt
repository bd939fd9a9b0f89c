//! What a search tells of how runs end.

/// How the runs of an image can end.
#[derive(Drop)]
pub enum Endings {
    /// In these ways: a text of each, with how the threads stand then, and the shortest run that leads there.
    Ends(Vec<u8>),
    /// So many states were met, and the steps of so many of them were not looked at.
    Unknown { states: usize, unseen: usize },
}
