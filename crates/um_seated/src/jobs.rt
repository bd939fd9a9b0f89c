//! A job that many threads do on one board.

use crate::blank::{board_of, last_word};
use crate::tally::Tally;
use crate::work::{Job, work_by};
use std::alloc::Global;
use std::thread::Threads;
use um_base::OutOfMemory;

/// What this many threads made on a board of these words, and the word of a site at its end.
pub fn worked<R: Threads + Sync>(
    rt: &R,
    alloc: Global,
    words: Vec<u64>,
    job: Job,
    threads: u8,
    site: u16,
) -> Result<Option<(Tally, u64)>, OutOfMemory> {
    if words.len() < 160 || usize::from(site) >= words.len() {
        return Ok(None);
    }
    let Some((board, seat)) = board_of(alloc, words)? else {
        return Ok(None);
    };
    let (seat, tally) = work_by(rt, &board, seat, job, threads);
    match last_word(board, seat, site) {
        Some(word) => Ok(Some((tally, word))),
        None => Ok(None),
    }
}
