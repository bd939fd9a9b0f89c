//! How the threads of a dump are.

ghost use Rattle.std.specs.{Prelude.{◌≡◌, ◌<◌, ◌≤◌, length, position, IfSome}, List.{list_any}};
ghost use Rattle.um_machine.specs.State.{thread_at};
ghost use Rattle.um_trace.specs.Dump.{is_waiter, asked_in, awaited, joins_or, watches, waits, is_ended, standing_of, shown_thread};

use crate::dump::state::{is_shown, thread_of_row};
use um_base::{Addr, Ask, Image, ROWS, Row, ThreadIx, Waiter};
use um_machine::Life;
use um_steps::Dumped;

/// How a thread is.
#[derive(Clone, Copy)]
pub enum Standing {
    /// It wasn't started.
    Unborn,
    Doomed,
    Ended,
    /// It waits on the object of a row.
    Waits(Row),
    /// It waits for the end of a thread.
    Joins(ThreadIx),
    /// It waits on the futex at an address.
    Watches(Addr),
    Ready,
}

/// Whether a thread is one of these waiters.
fn is_awaited(waiters: &[Waiter], thread: u8) -> bool
    ensures { result ≡ list_any (is_waiter thread) waiters.now }
{
    waiters.iter().any(|w| w.thread.0 == thread)
}

/// The row of the object in whose list of waiters a thread stands.
fn awaited<D: Dumped>(last: &D, thread: u8) -> Option<usize>
    ensures value { result ≡ awaited (D.state last.now).objects thread }
    ensures few { IfSome result (λ x. x < ROWS) }
{
    for x in 0..last.rows() {
        if is_awaited(last.waiters(x), thread) {
            return Some(x);
        }
    }
    None
}

/// What a thread asks that stands in a list of waiters.
fn asked_in(waiters: &[Waiter], thread: u8) -> Option<Ask>
    ensures { result ≡ asked_in thread waiters.now }
{
    for i in 0..waiters.len() {
        let waiter = &waiters[i];
        if waiter.thread.0 == thread {
            return Some(waiter.ask);
        }
    }
    None
}

/// A living thread that waits on no object, by what it asks among those who wait for an end, and among those who wait on a futex.
fn joins_or_watches(joined: Option<Ask>, watched: Option<Ask>) -> Standing
    ensures { result ≡ joins_or joined (watches watched) }
{
    match joined {
        Some(Ask::Join { who }) => Standing::Joins(who),
        _ => match watched {
            Some(Ask::FutexWait { addr }) => Standing::Watches(addr),
            _ => Standing::Ready,
        },
    }
}

/// A living thread, by the row on which it waits, or how it is where there is none.
fn waits(row: Option<usize>, other: Standing) -> Standing
    requires { IfSome row (λ x. x < ROWS) }
    ensures { result ≡ waits row other }
{
    match row {
        Some(row) => Standing::Waits(Row(row as u8)),
        None => other,
    }
}

/// A living thread: by the object, the end or the futex that it waits for.
fn living<D: Dumped>(last: &D, thread: u8) -> Standing
    ensures { result
        ≡ waits (awaited (D.state last.now).objects thread)
        (joins_or (asked_in thread (D.state last.now).joins)
        (watches (asked_in thread (D.state last.now).futexes))) }
{
    let joined = asked_in(last.joins(), thread);
    let watched = asked_in(last.futexes(), thread);
    waits(awaited(last, thread), joins_or_watches(joined, watched))
}

/// How a thread is: the first of these that holds.
#[tactic(auto, unfolding(crate::specs::Dump::standing_of))]
pub fn standing_of<D: Dumped>(last: &D, thread: u8) -> Standing
    ensures { result ≡ standing_of (D.state last.now) thread (thread_at (D.state last.now) thread) }
{
    let life = last.life(thread as usize);
    if life == Life::Unborn {
        Standing::Unborn
    } else if last.is_doomed(thread as usize) {
        Standing::Doomed
    } else if life == Life::Ended {
        Standing::Ended
    } else {
        living(last, thread)
    }
}

/// The thread that is shown for a row: the one whose object stands there.
#[tactic(auto, unfolding(crate::specs::Dump::shown_thread))]
pub fn shown_thread<D: Dumped>(image: &Image, last: &D, row: usize) -> Option<u8>
    requires { row < ROWS }
    ensures { result ≡ shown_thread image.now (D.state last.now) row }
{
    if is_shown(image, last, row) {
        thread_of_row(image, row)
    } else {
        None
    }
}
