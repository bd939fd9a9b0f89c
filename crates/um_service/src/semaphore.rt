//! Semaphores (Zephyr: Kernel Services, Semaphores).

ghost use Rattle.std.specs.Prelude.{◌≡◌, ◌<◌};
ghost use Rattle.um_machine.specs.declared.contents.Contents.TheVariants as Contents;
ghost use Rattle.um_machine.specs.Services.{in_order, sem_take, sem_give, sem_act};
ghost use Rattle.um_service.specs.{Left.{left}, Preview.{said}};

use crate::outcome::Outcome;
use crate::preview::{Said, all_go, at_once, blocked, first_told};
use crate::waking::{answers, blocks, wakes, wakes_all};
use um_base::{Answer, Ask, Errno, Piece, Reply, THREADS, Timeout, Waiter};
use um_machine::{Served, Waiters};

/// Takes one of the count, or waits for it.
fn take(
    count: &mut u32,
    limit: u32,
    waiters: &mut Waiters,
    who: &Waiter,
    timeout: Timeout,
    outcome: &mut Outcome,
)
    requires { who.now.thread.0 < THREADS }
    ensures { sem_take count.old limit waiters.old who.now timeout ≡ left (Contents.Sem count.new limit) waiters.new outcome.new }
{
    if *count == 0 {
        return blocks(waiters, who, timeout, Errno::EBUSY, outcome);
    }
    *count -= 1;
    answers(Reply::Num(0), outcome);
}

/// Wakes the waiter that is served first, or raises the count up to its limit.
fn give(count: &mut u32, limit: u32, waiters: &mut Waiters, outcome: &mut Outcome)
    ensures { sem_give count.old limit waiters.old (in_order waiters.old) ≡ left (Contents.Sem count.new limit) waiters.new outcome.new }
{
    match waiters.take_first(Served::All) {
        Some(first) => wakes(Reply::Void, &first, &Piece::new(), outcome),
        None => {
            *count = if *count < limit { *count + 1 } else { limit };
            answers(Reply::Void, outcome);
        }
    }
}

/// What a call asks of a semaphore.
pub fn act(count: &mut u32, limit: u32, waiters: &mut Waiters, who: &Waiter, outcome: &mut Outcome)
    requires { who.now.thread.0 < THREADS }
    ensures { sem_act count.old limit waiters.old who.now who.now.ask ≡ left (Contents.Sem count.new limit) waiters.new outcome.new }
{
    match who.ask {
        Ask::SemTake { timeout } => take(count, limit, waiters, who, timeout, outcome),
        Ask::SemGive => give(count, limit, waiters, outcome),
        Ask::SemReset => {
            *count = 0;
            wakes_all(waiters, Reply::Void, Errno::EAGAIN, outcome);
        }
        Ask::SemCount => answers(Reply::Num(*count), outcome),
        _ => answers(Reply::Void, outcome),
    }
}

/// What a call on a semaphore says.
pub fn says(count: u32, limit: u32, waiters: &Waiters, who: &Waiter) -> Said
    ensures { said (sem_act count limit waiters.now who.now who.now.ask) ≡ result }
{
    match who.ask {
        Ask::SemTake { timeout } if count == 0 => blocked(timeout, Errno::EBUSY),
        Ask::SemTake { .. } => at_once(Reply::Num(0)),
        Ask::SemGive => Said {
            answer: Answer::Now(Reply::Void),
            woken: first_told(waiters, Served::All),
        },
        Ask::SemReset => all_go(waiters, Reply::Void, Errno::EAGAIN),
        Ask::SemCount => at_once(Reply::Num(count)),
        _ => at_once(Reply::Void),
    }
}
