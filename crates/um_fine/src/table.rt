//! The region table of a processor.

use um_base::Parts;

/// What a table was loaded for: a thread with its stack and mode, and a version of a domain.
#[derive(Clone, Copy, PartialEq, Eq)]
pub struct TableKey {
    pub thread: u8,
    /// The row of its stack.
    pub stack: u8,
    pub user: bool,
    pub domain: u8,
    pub version: u32,
}

/// The partitions that were loaded, with what they were loaded for.
#[derive(Clone, Copy)]
pub struct Table {
    pub key: TableKey,
    pub parts: Parts,
}
