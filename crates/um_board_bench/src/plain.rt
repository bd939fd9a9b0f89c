//! The same work on plain atomic words, and under locks.

use std::alloc::Global;
use std::sync::atomic::{AtomicU64, Ordering};
use std::sync::{Mutex, Wait};
use std::thread::{Threads, join};
use um_base::OutOfMemory;

/// How often an exchange is tried at most.
const MOST_TRIES: u32 = 1_000_000_000;

/// A step number more.
const STEP: u64 = 0x10_0000_0000;

/// Atomic words of zero.
pub fn atomics(alloc: Global) -> Result<Vec<AtomicU64>, OutOfMemory> {
    let mut words = Vec::new(alloc);
    for _ in 0..32 {
        words.push(AtomicU64::new(0))?;
    }
    Ok(words)
}

/// Words of zero, each under a lock.
pub fn locks(alloc: Global) -> Result<Vec<Mutex<u64>>, OutOfMemory> {
    let mut words = Vec::new(alloc);
    for _ in 0..32 {
        words.push(Mutex::new(0))?;
    }
    Ok(words)
}

/// This many exchanges of the word, each after a look.
pub fn exchanges(words: &[AtomicU64], at: usize, times: u32) -> u32 {
    let Some(word) = words.get(at) else {
        return 0;
    };
    let mut made: u32 = 0;
    for _ in 0..MOST_TRIES {
        if made >= times {
            break;
        }
        let seen = word.load(Ordering::SeqCst);
        let next = seen.wrapping_add(STEP);
        if let Ok(_) = word.compare_exchange(seen, next, Ordering::SeqCst, Ordering::SeqCst) {
            made = made.saturating_add(1);
        }
    }
    made
}

/// This many changes of the word under its lock.
pub fn changes<R: Wait>(rt: &R, words: &[Mutex<u64>], at: usize, times: u32) -> u32 {
    let Some(word) = words.get(at) else {
        return 0;
    };
    let mut made: u32 = 0;
    for _ in 0..times {
        let mut guard = word.lock(rt);
        *guard = guard.wrapping_add(STEP);
        made = made.saturating_add(1);
    }
    made
}

/// The place of a thread's word.
pub fn place(own: bool, me: u8) -> usize {
    if own { usize::from(me % 4) * 8 } else { 0 }
}

/// Exchanges in two threads.
pub fn two_exchange<R: Threads>(rt: &R, words: &[AtomicU64], own: bool, me: u8, times: u32) -> u32 {
    let (a, b) = join(
        rt,
        || exchanges(words, place(own, me), times),
        || exchanges(words, place(own, me.wrapping_add(1)), times),
    );
    a.saturating_add(b)
}

/// Changes in two threads.
pub fn two_change<R: Threads + Wait + Sync>(
    rt: &R,
    words: &[Mutex<u64>],
    own: bool,
    me: u8,
    times: u32,
) -> u32 {
    let (a, b) = join(
        rt,
        || changes(rt, words, place(own, me), times),
        || changes(rt, words, place(own, me.wrapping_add(1)), times),
    );
    a.saturating_add(b)
}

/// Exchanges in this many threads: 1, 2 or 4.
pub fn exchanges_by<R: Threads + Sync>(
    rt: &R,
    words: &[AtomicU64],
    threads: u8,
    own: bool,
    times: u32,
) -> u32 {
    match threads {
        1 => exchanges(words, 0, times),
        2 => two_exchange(rt, words, own, 0, times),
        _ => {
            let (a, b) = join(
                rt,
                || two_exchange(rt, words, own, 0, times),
                || two_exchange(rt, words, own, 2, times),
            );
            a.saturating_add(b)
        }
    }
}

/// Changes in this many threads: 1, 2 or 4.
pub fn changes_by<R: Threads + Wait + Sync>(
    rt: &R,
    words: &[Mutex<u64>],
    threads: u8,
    own: bool,
    times: u32,
) -> u32 {
    match threads {
        1 => changes(rt, words, 0, times),
        2 => two_change(rt, words, own, 0, times),
        _ => {
            let (a, b) = join(
                rt,
                || two_change(rt, words, own, 0, times),
                || two_change(rt, words, own, 2, times),
            );
            a.saturating_add(b)
        }
    }
}
