//! Threads that wait for the end of another one (Zephyr: `k_thread_join`), or on a futex (Zephyr: `k_futex_wait`).

ghost use Rattle.std.specs.Prelude.{◌≡◌, ◌<◌, ◌≤◌, [], ◌∷◌, ◌++◌, not, filter, take, length};
ghost use Rattle.um_base.specs.declared.names.Reply.TheVariants as Reply;
ghost use Rattle.um_machine.specs.{
  Joins.{joins},
  Futexes.{is_on, some_of},
  Services.{in_order, still_waiting, told, without},
  Table.{replies_of},
};
ghost use Rattle.um_service.specs.Awaits.{awaits, chosen, all_well};

use crate::outcome::Woken;
use um_base::{Addr, Ask, Piece, Replies, Reply, THREADS, ThreadIx, Told, Waiter};
use um_machine::{Served, Waiters};

/// What a thread waits for that is no object.
#[derive(Clone, Copy)]
enum Awaited {
    /// The end of a thread.
    End(ThreadIx),
    /// That the futex at an address is woken.
    Futex(Addr),
}

impl Awaited {
    /// Whether a waiter waits for it.
    fn awaited_by(self, waiter: &Waiter) -> bool
        ensures { result ≡ awaits self waiter.now }
    {
        match self {
            Awaited::End(who) => match waiter.ask {
                Ask::Join { who: target } => target.0 == who.0,
                _ => false,
            },
            Awaited::Futex(a) => match waiter.ask {
                Ask::FutexWait { addr } => addr.0 == a.0,
                _ => false,
            },
        }
    }

    /// Whether a waiter is one of those who wait for it, or one of the others.
    fn chooses(self, wanted: bool, waiter: &Waiter) -> bool
        ensures { result ≡ chosen self wanted waiter.now }
    {
        if wanted {
            self.awaited_by(waiter)
        } else {
            !self.awaited_by(waiter)
        }
    }
}

/// A thread that waited so is told 0, and leaves those who wait.
fn wake(first: &Waiter, waiters: &mut Waiters, woken: &mut Woken)
    requires { length woken.old < THREADS }
    ensures woken { woken.new ≡ woken.old ++ told first.now (Reply.Num 0) [] ∷ [] }
    ensures left { waiters.new ≡ without first.now.thread.0 waiters.old }
{
    let well = Told {
        reply: Reply::Num(0),
        taken: Piece::new(),
    };
    woken.push(first.thread, &well);
    waiters.remove(first.thread);
}

/// Those who wait for something, or the others, in their order.
fn those(waiters: &Waiters, awaited: Awaited, wanted: bool) -> Waiters
    ensures { result ≡ filter (chosen awaited wanted) waiters.now }
{
    let all = waiters.as_slice();
    let mut those = Waiters::new();
    for i in 0..all.len() {
        let waiter = &all[i];
        if awaited.chooses(wanted, waiter) {
            those.wait(waiter);
        }
    }
    those
}

/// All of these are woken, in the order of service, and leave those who wait.
fn wake_each(those: &mut Waiters, waiters: &mut Waiters, woken: &mut Woken)
    ensures woken { woken.new ≡ all_well (in_order those.old) }
    ensures left { waiters.new ≡ still_waiting woken.new waiters.old }
{
    let waiting = those.len();
    prove!(waiting <= THREADS);
    woken.clear();
    'waiting: loop {
        match those.take_first(Served::All) {
            Some(first) => wake(&first, waiters, woken),
            None => return,
        }
    }
}

/// The first of these in the order of service is woken, and leaves those who wait.
fn wake_one(those: &mut Waiters, waiters: &mut Waiters, woken: &mut Woken)
    ensures woken { woken.new ≡ all_well (take 1 (in_order those.old)) }
    ensures left { waiters.new ≡ still_waiting woken.new waiters.old }
{
    woken.clear();
    match those.take_first(Served::All) {
        Some(first) => wake(&first, waiters, woken),
        None => {}
    }
}

/// Those who wait for the end of a thread wait no longer, and are told 0, in the order of service.
#[inline(never)]
pub fn end_joins(waiters: &mut Waiters, who: ThreadIx, woken: &mut Woken)
    ensures woken { woken.new ≡ all_well (in_order (filter (joins who.0) waiters.old)) }
    ensures left { waiters.new ≡ filter (λ w. not (joins who.0 w)) waiters.old }
{
    let mut joining = those(waiters, Awaited::End(who), true);
    let others = those(waiters, Awaited::End(who), false);
    wake_each(&mut joining, waiters, woken);
    *waiters = others;
}

/// What those are told who wait for the end of a thread as it comes.
pub fn says_end_joins(waiters: &Waiters, who: ThreadIx) -> Replies
    ensures { result ≡ replies_of (all_well (in_order (filter (joins who.0) waiters.now))) }
{
    let mut joining = those(waiters, Awaited::End(who), true);
    let mut others = Waiters::new();
    let mut woken = Woken::new();
    wake_each(&mut joining, &mut others, &mut woken);
    woken.replies()
}

/// Those who wait on the futex at an address, or the one that is served first, wait no longer, and are told 0.
#[inline(never)]
pub fn wake_futex(waiters: &mut Waiters, a: Addr, all: bool, woken: &mut Woken)
    ensures woken { woken.new ≡ all_well (some_of all (in_order (filter (is_on a.0) waiters.old))) }
    ensures left { waiters.new ≡ still_waiting woken.new waiters.old }
{
    let mut on = those(waiters, Awaited::Futex(a), true);
    if all {
        wake_each(&mut on, waiters, woken);
    } else {
        wake_one(&mut on, waiters, woken);
    }
}

/// What those are told who wait on the futex at an address as it is woken, or the one that is served first.
pub fn says_wake_futex(waiters: &Waiters, a: Addr, all: bool) -> Replies
    ensures { result ≡ replies_of (all_well (some_of all (in_order (filter (is_on a.0) waiters.now)))) }
{
    let mut on = those(waiters, Awaited::Futex(a), true);
    let mut others = Waiters::new();
    let mut woken = Woken::new();
    if all {
        wake_each(&mut on, &mut others, &mut woken);
    } else {
        wake_one(&mut on, &mut others, &mut woken);
    }
    woken.replies()
}
