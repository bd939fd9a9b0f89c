//! Message queues (Zephyr: Kernel Services, Message Queues).

ghost use Rattle.std.specs.Prelude.{◌≡◌, ◌<◌, ℕ, length, List};
ghost use Rattle.um_base.specs.declared.ask.Waiter.{Waiter};
ghost use Rattle.um_machine.specs.declared.contents.Contents.TheVariants as Contents;
ghost use Rattle.um_machine.specs.{
  Serving.{served},
  Services.{in_order, msgq_put, msgq_take, msgq_get, msgq_peek, msgq_purge, msgq_act},
};
ghost use Rattle.um_machine.specs.declared.served.Served.TheVariants as Served;
ghost use Rattle.um_service.specs.{Left.{left}, Preview.{said}};

use crate::outcome::Outcome;
use crate::preview::{Said, all_told, at_once, blocked, first_told};
use crate::waking::{answers, blocks, gives, wake_all, wakes};
use um_base::{Answer, Ask, Errno, Piece, Reply, THREADS, Timeout, Waiter};
use um_machine::{MessageQueue, Served, Waiters};

/// Hands the caller's message to the getter that is served first, or puts it after the others, or waits for room.
fn put(
    queue: &mut MessageQueue,
    waiters: &mut Waiters,
    who: &Waiter,
    timeout: Timeout,
    outcome: &mut Outcome,
)
    requires { who.now.thread.0 < THREADS }
    ensures { msgq_put queue.old.size queue.old.most queue.old.messages waiters.old who.now who.now.bytes timeout (in_order (served Served.Getters waiters.old))
        ≡ left (Contents.Msgq queue.new) waiters.new outcome.new }
{
    match waiters.take_first(Served::Getters) {
        Some(first) => wakes(Reply::Num(0), &first, &who.bytes, outcome),
        None => {
            if queue.len() >= queue.most() as usize {
                return blocks(waiters, who, timeout, Errno::ENOMSG, outcome);
            }
            queue.push(&who.bytes);
            answers(Reply::Num(0), outcome);
        }
    }
}

/// Gives the caller a message that was taken, and puts that of the putter that is served first.
fn pass(queue: &mut MessageQueue, waiters: &mut Waiters, message: &Piece, outcome: &mut Outcome)
    requires { length queue.old.messages < 64 }
    ensures { msgq_take queue.old.size queue.old.most message.now queue.old.messages waiters.old (in_order (served Served.Putters waiters.old))
        ≡ left (Contents.Msgq queue.new) waiters.new outcome.new }
{
    match waiters.take_first(Served::Putters) {
        Some(first) => {
            queue.push(&first.bytes);
            wakes(Reply::Num(0), &first, &Piece::new(), outcome);
            outcome.taken = *message;
        }
        None => gives(Reply::Num(0), message, outcome),
    }
}

/// Copies the oldest message, which stays.
fn peek(queue: &MessageQueue, outcome: &mut Outcome)
    ensures { (waiters : List Waiter) → msgq_peek queue.now.size queue.now.most queue.now.messages waiters ≡ left (Contents.Msgq queue.now) waiters outcome.new }
{
    match queue.first() {
        Some(message) => gives(Reply::Num(0), &message, outcome),
        None => answers(Reply::Fail(Errno::ENOMSG), outcome),
    }
}

/// Takes all messages out, and wakes those who wait for room.
fn purge(queue: &mut MessageQueue, waiters: &mut Waiters, outcome: &mut Outcome)
    ensures { msgq_purge queue.old.size queue.old.most waiters.old ≡ left (Contents.Msgq queue.new) waiters.new outcome.new }
{
    queue.clear();
    answers(Reply::Void, outcome);
    wake_all(waiters, Served::Putters, Errno::ENOMSG, &mut outcome.woken);
}

/// What a call asks of a queue.
pub fn act(queue: &mut MessageQueue, waiters: &mut Waiters, who: &Waiter, outcome: &mut Outcome)
    requires { who.now.thread.0 < THREADS }
    ensures { msgq_act queue.old.size queue.old.most queue.old.messages waiters.old who.now who.now.ask ≡ left (Contents.Msgq queue.new) waiters.new outcome.new }
{
    match who.ask {
        Ask::MsgqPut { timeout } => put(queue, waiters, who, timeout, outcome),
        Ask::MsgqGet { timeout } => match queue.pop() {
            Some(message) => pass(queue, waiters, &message, outcome),
            None => blocks(waiters, who, timeout, Errno::ENOMSG, outcome),
        },
        Ask::MsgqPeek => peek(queue, outcome),
        Ask::MsgqPurge => purge(queue, waiters, outcome),
        Ask::MsgqUsed => answers(Reply::Num(queue.len() as u32), outcome),
        _ => answers(Reply::Void, outcome),
    }
}

/// What a put says.
fn says_put(queue: &MessageQueue, waiters: &Waiters, timeout: Timeout) -> Said
    ensures { (who : Waiter) (message : List ℕ) → said (msgq_put queue.now.size queue.now.most queue.now.messages waiters.now who message timeout (in_order (served Served.Getters waiters.now))) ≡ result }
{
    let woken = first_told(waiters, Served::Getters);
    if woken.len() == 0 && queue.len() >= queue.most() as usize {
        return blocked(timeout, Errno::ENOMSG);
    }
    Said {
        answer: Answer::Now(Reply::Num(0)),
        woken,
    }
}

/// What a get says.
fn says_get(queue: &MessageQueue, waiters: &Waiters, timeout: Timeout) -> Said
    ensures { (who : Waiter) → said (msgq_get queue.now.size queue.now.most queue.now.messages waiters.now who timeout) ≡ result }
{
    if queue.len() == 0 {
        return blocked(timeout, Errno::ENOMSG);
    }
    Said {
        answer: Answer::Now(Reply::Num(0)),
        woken: first_told(waiters, Served::Putters),
    }
}

/// What a peek says.
fn says_peek(queue: &MessageQueue) -> Said
    ensures { (waiters : List Waiter) → said (msgq_peek queue.now.size queue.now.most queue.now.messages waiters) ≡ result }
{
    if queue.len() == 0 {
        return at_once(Reply::Fail(Errno::ENOMSG));
    }
    at_once(Reply::Num(0))
}

/// What a call on a queue says.
pub fn says(queue: &MessageQueue, waiters: &Waiters, who: &Waiter) -> Said
    ensures { said (msgq_act queue.now.size queue.now.most queue.now.messages waiters.now who.now who.now.ask) ≡ result }
{
    match who.ask {
        Ask::MsgqPut { timeout } => says_put(queue, waiters, timeout),
        Ask::MsgqGet { timeout } => says_get(queue, waiters, timeout),
        Ask::MsgqPeek => says_peek(queue),
        Ask::MsgqPurge => Said {
            answer: Answer::Now(Reply::Void),
            woken: all_told(waiters, Served::Putters, Errno::ENOMSG),
        },
        Ask::MsgqUsed => at_once(Reply::Num(queue.len() as u32)),
        _ => at_once(Reply::Void),
    }
}
