//! How many threads of a dump are as a summary counts them.

ghost use Rattle.std.specs.Prelude.{◌≡◌, ◌<◌, ◌≤◌, if◌then◌else◌};
ghost use Rattle.um_trace.specs.{Dump.{shown_thread}, Summary.{is_so, stands_so, threads_that}};

use crate::dump::standing::{Standing, shown_thread, standing_of};
use um_base::{Image, ROWS};
use um_steps::Dumped;

/// What is counted of the threads that are shown.
#[derive(Clone, Copy)]
pub enum Shown {
    Ended,
    Waiting,
}

/// Whether a thread is counted so.
fn is_so(shown: Shown, standing: Standing) -> bool
    ensures { result ≡ is_so shown standing }
{
    match (shown, standing) {
        (Shown::Ended, Standing::Ended) => true,
        (Shown::Waiting, Standing::Waits(_) | Standing::Joins(_) | Standing::Watches(_)) => true,
        _ => false,
    }
}

/// Whether a thread is shown for a row, and is so.
fn stands_so<D: Dumped>(shown: Shown, image: &Image, last: &D, row: usize) -> bool
    requires { row < ROWS }
    ensures { result ≡ stands_so shown (D.state last.now)
        (shown_thread image.now (D.state last.now) row) }
{
    match shown_thread(image, last, row) {
        Some(thread) => is_so(shown, standing_of(last, thread)),
        None => false,
    }
}

/// One for a thread that is counted.
fn one_if(counted: bool) -> usize
    ensures value { result ≡ if counted then 1 else 0 }
    ensures few { result ≤ 1 }
{
    if counted { 1 } else { 0 }
}

/// How many of the threads that are shown are so.
pub fn threads_that<D: Dumped>(shown: Shown, image: &Image, last: &D) -> usize
    ensures { result ≡ threads_that shown image.now (D.state last.now) }
{
    let mut count = 0;
    for row in 0..ROWS {
        count += one_if(stands_so(shown, image, last, row));
    }
    count
}
