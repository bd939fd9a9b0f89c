//! Waiters in the order of service.

ghost use Rattle.std.specs.Prelude.{◌≡◌, ◌<◌, ◌≤◌, cond, insert, length, int_lt};
ghost use Rattle.arrayvec.specs.ArrayVec.{array_vec_len};
ghost use Rattle.um_base.specs.declared.limits.TheConstants.{THREADS};
ghost use Rattle.um_machine.specs.Serving.{serves};
ghost use Rattle.um_service.specs.Preview.{amount, queued, with_queued, queue_of};

use arrayvec::ArrayVec;
use um_base::{Ask, THREADS, ThreadIx, Waiter};
use um_machine::{Served, Waiters};

/// A waiter in the order of service, as far as what an act says depends on it.
#[derive(Clone, Copy)]
pub struct Queued {
    pub thread: ThreadIx,
    pub priority: i8,
    /// How many bytes it reads, or has to write.
    pub amount: u32,
}

impl Default for Queued {
    /// A blank.
    fn default() -> Queued {
        Queued {
            thread: ThreadIx(0),
            priority: 0,
            amount: 0,
        }
    }
}

/// How many bytes a waiter reads, or has to write, among those who do so.
fn amount(which: Served, waiter: &Waiter) -> u32
    ensures { result ≡ amount which waiter.now }
{
    match which {
        Served::Readers => match waiter.ask {
            Ask::PipeRead { length, .. } => length,
            _ => 0,
        },
        Served::Writers => waiter.bytes.len() as u32,
        Served::All | Served::Getters | Served::Putters => 0,
    }
}

/// A waiter as it stands in the order of service.
fn to_queued(which: Served, waiter: &Waiter) -> Queued
    ensures { result ≡ queued which waiter.now }
{
    Queued {
        thread: waiter.thread,
        priority: waiter.priority,
        amount: amount(which, waiter),
    }
}

/// Whether the first of two has the lesser priority number.
fn is_before(v: &Queued, w: &Queued) -> bool
    ensures { result ≡ int_lt v.now.priority w.now.priority }
{
    v.priority < w.priority
}

/// The place of a waiter that has waited longer than the others: before the first whose priority number isn't lesser.
fn place_of(queue: &[Queued], one: &Queued) -> usize
    ensures within { result ≤ length queue.now }
    ensures place { with_queued one.now queue.now ≡ insert queue.now result one.now }
{
    for i in 0..queue.len() {
        if !is_before(&queue[i], one) {
            return i;
        }
    }
    queue.len()
}

/// Puts a waiter that has waited longer than the others at its place.
fn join(queue: &mut ArrayVec<Queued, THREADS>, which: Served, waiter: &Waiter)
    requires { array_vec_len queue.old < THREADS }
    ensures { queue.new.items ≡ cond (serves which waiter.now) (with_queued (queued which waiter.now) queue.old.items) queue.old.items }
{
    if which.serves(waiter) {
        let one = to_queued(which, waiter);
        let place = place_of(queue.as_slice(), &one);
        queue.insert(place, one);
    }
}

/// Those whom an act serves, in the order of service.
pub fn queue_of(waiters: &Waiters, which: Served) -> ArrayVec<Queued, THREADS>
    ensures { result.items ≡ queue_of which waiters.now }
{
    let all = waiters.as_slice();
    let mut queue = ArrayVec::new();
    let mut i = all.len();
    while i > 0 {
        i -= 1;
        join(&mut queue, which, &all[i]);
    }
    queue
}
