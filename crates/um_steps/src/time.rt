//! Virtual time: deadlines, and who waits past one.

ghost use Rattle.std.specs.Prelude.{◌≡◌, ◌+◌, ◌<◌, nat_lt, if◌then◌else◌, drop, length};
ghost use Rattle.um_machine.specs.Time.{least, next_deadline, has_come, has_run_out, late_reply};

use um_base::{Errno, FUTEX_CELL};
use um_machine::Contents;

/// The lesser of a deadline and one that may not be there.
#[inline]
fn least(deadline: u64, other: Option<u64>) -> Option<u64>
    ensures { result ≡ least deadline other }
{
    match other {
        Some(other) if other < deadline => Some(other),
        _ => Some(deadline),
    }
}

/// The least deadline above a moment, of one and of those behind it.
#[inline]
fn nearer(now: u64, deadline: u64, behind: Option<u64>) -> Option<u64>
    ensures { result ≡ if nat_lt now deadline then least deadline behind else behind }
{
    if now < deadline {
        least(deadline, behind)
    } else {
        behind
    }
}

/// The least one of those from a place on, by the least one of those behind it.
fn nearer_at(now: u64, armed: &[u64], i: usize, behind: Option<u64>) -> Option<u64>
    requires here { i < length armed.now }
    requires there { behind ≡ next_deadline now (drop (i + 1) armed.now) }
    ensures { result ≡ next_deadline now (drop i armed.now) }
{
    nearer(now, armed[i], behind)
}

/// The least deadline above a moment, if there is one.
pub fn next_deadline(now: u64, armed: &[u64]) -> Option<u64>
    ensures { result ≡ next_deadline now armed.now }
{
    let mut next = None;
    let mut i = armed.len();
    while i > 0 {
        i -= 1;
        next = nearer_at(now, armed, i, next);
    }
    next
}

/// Whether a deadline has come.
#[inline]
pub fn has_come(now: u64, deadline: Option<u64>) -> bool
    ensures { result ≡ has_come now deadline }
{
    match deadline {
        None => false,
        Some(deadline) => deadline <= now,
    }
}

/// Whether a timer runs to a deadline that has come.
#[inline]
pub fn has_run_out(now: u64, contents: &Contents) -> bool
    ensures { result ≡ has_run_out now contents.now }
{
    match contents {
        Contents::Running { deadline } => *deadline <= now,
        _ => false,
    }
}

/// What a thread is told that waits in a cell when its deadline has come.
#[inline]
pub fn late_reply(cell: usize) -> Errno
    ensures { result ≡ late_reply cell }
{
    if cell == FUTEX_CELL {
        Errno::ETIMEDOUT
    } else {
        Errno::EAGAIN
    }
}
