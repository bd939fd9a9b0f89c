//! What is asked of a word.

use um_base::ThreadIx;

/// A thread's call on a word, with the word as its seat saw it last.
#[derive(Clone, Copy)]
pub struct Asked<C> {
    pub by: ThreadIx,
    pub call: C,
    pub seen: u64,
}
