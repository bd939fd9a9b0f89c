//! Mutexes (Zephyr: Kernel Services, Mutexes). A waiter's priority isn't lent to the owner.

ghost use Rattle.std.specs.Prelude.{◌≡◌, ◌<◌, ℕ, List};
ghost use Rattle.um_base.specs.declared.ask.Waiter.{Waiter};
ghost use Rattle.um_machine.specs.declared.contents.Contents.TheVariants as Contents;
ghost use Rattle.um_machine.specs.Services.{in_order, mutex_lock, mutex_passes, mutex_unlock, mutex_act};
ghost use Rattle.um_service.specs.{Left.{left}, Preview.{said}};

use crate::outcome::Outcome;
use crate::preview::{Said, at_once, blocked, first_told};
use crate::waking::{answers, blocks, wakes};
use um_base::{Answer, Ask, Errno, Piece, Reply, THREADS, ThreadIx, Timeout, Waiter};
use um_machine::{Served, Waiters};

/// Locks a free mutex, or one of the caller's once more, or waits for it.
fn lock(
    owner: &mut Option<ThreadIx>,
    depth: &mut u32,
    waiters: &mut Waiters,
    who: &Waiter,
    timeout: Timeout,
    outcome: &mut Outcome,
)
    requires { who.now.thread.0 < THREADS }
    ensures { mutex_lock owner.old depth.old waiters.old who.now timeout ≡ left (Contents.Mutex owner.new depth.new) waiters.new outcome.new }
{
    match *owner {
        None => {
            *owner = Some(who.thread);
            *depth = 1;
            answers(Reply::Num(0), outcome);
        }
        Some(thread) => {
            if thread.0 != who.thread.0 {
                return blocks(waiters, who, timeout, Errno::EBUSY, outcome);
            }
            *depth = depth.saturating_add(1);
            answers(Reply::Num(0), outcome);
        }
    }
}

/// Passes a mutex on to the waiter that is served first, or frees it.
fn pass(owner: &mut Option<ThreadIx>, depth: &mut u32, waiters: &mut Waiters, outcome: &mut Outcome)
    ensures { mutex_passes waiters.old (in_order waiters.old) ≡ left (Contents.Mutex owner.new depth.new) waiters.new outcome.new }
{
    match waiters.take_first(Served::All) {
        Some(first) => {
            *owner = Some(first.thread);
            *depth = 1;
            wakes(Reply::Num(0), &first, &Piece::new(), outcome);
        }
        None => {
            *owner = None;
            *depth = 0;
            answers(Reply::Num(0), outcome);
        }
    }
}

/// Unlocks a mutex of the caller's once.
fn unlock(
    owner: &mut Option<ThreadIx>,
    depth: &mut u32,
    waiters: &mut Waiters,
    who: &Waiter,
    outcome: &mut Outcome,
)
    ensures { mutex_unlock owner.old depth.old waiters.old who.now ≡ left (Contents.Mutex owner.new depth.new) waiters.new outcome.new }
{
    match *owner {
        None => answers(Reply::Fail(Errno::EINVAL), outcome),
        Some(thread) => {
            if thread.0 != who.thread.0 {
                return answers(Reply::Fail(Errno::EPERM), outcome);
            }
            if *depth > 1 {
                *depth -= 1;
                return answers(Reply::Num(0), outcome);
            }
            pass(owner, depth, waiters, outcome);
        }
    }
}

/// What a call asks of a mutex.
pub fn act(
    owner: &mut Option<ThreadIx>,
    depth: &mut u32,
    waiters: &mut Waiters,
    who: &Waiter,
    outcome: &mut Outcome,
)
    requires { who.now.thread.0 < THREADS }
    ensures { mutex_act owner.old depth.old waiters.old who.now who.now.ask ≡ left (Contents.Mutex owner.new depth.new) waiters.new outcome.new }
{
    match who.ask {
        Ask::MutexLock { timeout } => lock(owner, depth, waiters, who, timeout, outcome),
        Ask::MutexUnlock => unlock(owner, depth, waiters, who, outcome),
        _ => answers(Reply::Void, outcome),
    }
}

/// What locking a mutex says.
fn says_lock(owner: Option<ThreadIx>, who: &Waiter, timeout: Timeout) -> Said
    ensures { (depth : ℕ) (waiters : List Waiter) → said (mutex_lock owner depth waiters who.now timeout) ≡ result }
{
    match owner {
        Some(thread) if thread.0 != who.thread.0 => blocked(timeout, Errno::EBUSY),
        _ => at_once(Reply::Num(0)),
    }
}

/// What unlocking a mutex says.
fn says_unlock(owner: Option<ThreadIx>, depth: u32, waiters: &Waiters, who: &Waiter) -> Said
    ensures { said (mutex_unlock owner depth waiters.now who.now) ≡ result }
{
    match owner {
        None => at_once(Reply::Fail(Errno::EINVAL)),
        Some(thread) if thread.0 != who.thread.0 => at_once(Reply::Fail(Errno::EPERM)),
        Some(_) if depth > 1 => at_once(Reply::Num(0)),
        Some(_) => Said {
            answer: Answer::Now(Reply::Num(0)),
            woken: first_told(waiters, Served::All),
        },
    }
}

/// What a call on a mutex says.
pub fn says(owner: Option<ThreadIx>, depth: u32, waiters: &Waiters, who: &Waiter) -> Said
    ensures { said (mutex_act owner depth waiters.now who.now who.now.ask) ≡ result }
{
    match who.ask {
        Ask::MutexLock { timeout } => says_lock(owner, who, timeout),
        Ask::MutexUnlock => says_unlock(owner, depth, waiters, who),
        _ => at_once(Reply::Void),
    }
}
