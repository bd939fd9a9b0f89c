//! What an act says, without doing it.

ghost use Rattle.std.specs.Prelude.{◌≡◌, ◌≤◌, [], length, List};
ghost use Rattle.um_base.specs.declared.act.Answer.TheVariants as Answer;
ghost use Rattle.um_base.specs.declared.ask.Waiter.{Waiter};
ghost use Rattle.um_machine.specs.{
  declared.contents.Contents.{Contents},
  Services.{all_told, blocks},
  Serving.{served},
  Table.{replies_of},
};
ghost use Rattle.um_service.specs.Preview.{said, queue_of, first_told, shares};

use crate::order::queue_of;
use um_base::{Answer, Errno, Replies, Reply, Timeout};
use um_machine::{Served, Waiters};

/// What an act answers its caller, and what the woken are told, in the order of waking.
#[derive(Drop)]
pub struct Said {
    pub answer: Answer,
    pub woken: Replies,
}

/// An answer at once that wakes nobody.
pub fn at_once(reply: Reply) -> Said
    ensures { result ≡ record { answer = Answer.Now reply; woken = [] } }
{
    Said {
        answer: Answer::Now(reply),
        woken: Replies::new(),
    }
}

/// The caller waits.
pub fn waits() -> Said
    ensures { result ≡ record { answer = Answer.Wait; woken = [] } }
{
    Said {
        answer: Answer::Wait,
        woken: Replies::new(),
    }
}

/// The caller waits, or gets an error if it doesn't wait.
pub fn blocked(timeout: Timeout, error: Errno) -> Said
    ensures { (contents : Contents) (waiters : List Waiter) (who : Waiter) → said (blocks contents waiters who timeout error) ≡ result }
{
    match timeout {
        Timeout::NoWait => at_once(Reply::Fail(error)),
        Timeout::Forever | Timeout::Ticks(_) => waits(),
    }
}

/// The one that is served first is told that all is well.
pub fn first_told(waiters: &Waiters, which: Served) -> Replies
    ensures { result ≡ first_told (queue_of which waiters.now) }
{
    let queue = queue_of(waiters, which);
    let mut woken = Replies::new();
    if !queue.is_empty() {
        woken.push(queue.as_slice()[0].thread, Reply::Num(0));
    }
    woken
}

/// All that an act serves are told an error.
pub fn all_told(waiters: &Waiters, which: Served, error: Errno) -> Replies
    ensures { result ≡ replies_of (all_told error (served which waiters.now)) }
{
    let queue = queue_of(waiters, which);
    let queue = queue.as_slice();
    let mut woken = Replies::new();
    for i in 0..queue.len() {
        woken.push(queue[i].thread, Reply::Fail(error));
    }
    woken
}

/// An answer at once, by which all waiters go on.
pub fn all_go(waiters: &Waiters, reply: Reply, error: Errno) -> Said
    ensures { result ≡ record { answer = Answer.Now reply; woken = replies_of (all_told error waiters.now) } }
{
    Said {
        answer: Answer::Now(reply),
        woken: all_told(waiters, Served::All, error),
    }
}

/// Shares at most 256 bytes, or that much room, among the waiters that an act serves, while something is left.
pub fn shares(waiters: &Waiters, which: Served, n: u32) -> Replies
    requires { n ≤ 256 }
    ensures { result ≡ shares (queue_of which waiters.now) n }
{
    let queue = queue_of(waiters, which);
    let queue = queue.as_slice();
    let mut woken = Replies::new();
    let mut left = n;
    for i in 0..queue.len() {
        if left == 0 {
            return woken;
        }
        let one = queue[i];
        let part = one.amount.min(left);
        woken.push(one.thread, Reply::Num(part));
        left -= part;
    }
    woken
}
