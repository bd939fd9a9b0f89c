//! What a call steps: something that has a word.

use um_base::{Row, ThreadIx};

/// A row, a thread or a domain.
#[derive(Clone, Copy)]
pub enum Place {
    Row(Row),
    Thread(ThreadIx),
    Domain(u8),
}
