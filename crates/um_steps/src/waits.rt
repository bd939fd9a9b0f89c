//! Threads at rest and threads that wait: which may go on, which has to stop, and who stands where.

ghost use Rattle.std.specs.{Prelude.{◌≡◌, ◌==◌, ◌&&◌}, List.{list_any}};
ghost use Rattle.um_base.specs.declared.ask.Waiter.{Waiter};
ghost use Rattle.um_machine.specs.{
  Joins.{joins, is_ending},
  Futexes.{is_on},
  Run.{may_go, must_stop, stands_in},
  State.{is_waiting},
};

use um_base::{Ask, Waiter};
use um_machine::{Life, Pending, Thread};

/// Whether a thread at rest may begin its line, or exit.
#[inline]
pub fn may_go(thread: &Thread) -> bool
    ensures { result ≡ may_go thread.now }
{
    !(thread.doomed || thread.aborted || thread.suspended)
}

/// Whether a thread at rest ends since it was aborted.
#[inline]
pub fn must_stop(thread: &Thread) -> bool
    ensures { result ≡ must_stop thread.now }
{
    !thread.doomed && thread.aborted
}

/// Whether a thread waits, and wasn't woken.
#[inline]
pub fn is_waiting(thread: &Thread) -> bool
    ensures { result ≡ is_waiting thread.now }
{
    match thread.pending.first() {
        Some(Pending::Resume) => thread.told.is_none(),
        _ => false,
    }
}

/// Whether a thread is in its end.
#[inline]
pub fn is_ending(thread: &Thread) -> bool
    ensures { result ≡ is_ending thread.now }
{
    if thread.life != Life::Ended {
        return false;
    }
    match thread.pending.first() {
        Some(Pending::Drops { .. } | Pending::ClearInit { .. }) => true,
        _ => false,
    }
}

/// Whether a thread stands among these.
pub fn stands_in(t: usize, waiters: &[Waiter]) -> bool
    ensures { result ≡ stands_in t waiters.now }
{
    waiters.iter().any(|waiter| waiter.thread.0 as usize == t)
}

/// Whether a waiter waits for the end of a thread.
#[inline]
pub fn joins(who: usize, waiter: &Waiter) -> bool
    ensures { result ≡ joins who waiter.now }
{
    match waiter.ask {
        Ask::Join { who: target } => target.0 as usize == who,
        _ => false,
    }
}

/// Whether one of these waits for the end of a thread.
pub fn is_joined(who: usize, waiters: &[Waiter]) -> bool
    ensures { result ≡ list_any (joins who) waiters.now }
{
    waiters.iter().any(|waiter| joins(who, waiter))
}

/// Whether a thread waits among these for the end of another.
pub fn is_joining(who: usize, target: usize, waiters: &[Waiter]) -> bool
    ensures { result ≡ list_any (λ (w : Waiter). w.thread.0 == who && joins target w) waiters.now }
{
    waiters.iter().any(|waiter| waiter.thread.0 as usize == who && joins(target, waiter))
}

/// Whether a waiter waits on the futex at an address.
#[inline]
pub fn is_on(a: u32, waiter: &Waiter) -> bool
    ensures { result ≡ is_on a waiter.now }
{
    match waiter.ask {
        Ask::FutexWait { addr } => addr.0 == a,
        _ => false,
    }
}
