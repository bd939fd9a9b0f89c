//! What an act does with an object's contents.

ghost use Rattle.std.specs.Prelude.{◌≡◌, ◌<◌, ◌≤◌, IsTrue, List, [], None, false};
ghost use Rattle.um_base.specs.declared.ask.Waiter.{Waiter};
ghost use Rattle.um_machine.specs.declared.contents.Contents.TheVariants as Contents;
ghost use Rattle.um_machine.specs.{
  Limits.{is_sound_ask},
  Services.{renews, fills, uses, acted, queue, stack, pipe},
  Table.{replies_of},
};
ghost use Rattle.um_service.specs.{Left.{left}, Preview.{said}};

use crate::outcome::Outcome;
use crate::preview::{Said, at_once};
use crate::waking::answers;
use crate::{message_queue, mutex, pipe, semaphore, stack, timer};
use um_base::{Ask, Errno, Reply, THREADS, Waiter};
use um_machine::{BytePipe, Contents, MessageQueue, ValueStack, Waiters};

/// New contents where none are in use.
#[inline(never)]
fn fills(contents: &mut Contents, new: Contents, outcome: &mut Outcome)
    ensures { (waiters : List Waiter) → fills new contents.old waiters ≡ left contents.new waiters outcome.new }
{
    match contents {
        Contents::Nothing => {
            *contents = new;
            answers(Reply::Num(0), outcome);
        }
        _ => answers(Reply::Fail(Errno::EADDRINUSE), outcome),
    }
}

/// An act on contents that are in use.
fn uses(contents: &mut Contents, waiters: &mut Waiters, who: &Waiter, outcome: &mut Outcome)
    requires { who.now.thread.0 < THREADS }
    ensures { uses contents.old waiters.old who.now who.now.ask ≡ left contents.new waiters.new outcome.new }
{
    match contents {
        Contents::Sem { count, limit } => semaphore::act(count, *limit, waiters, who, outcome),
        Contents::Mutex { owner, depth } => mutex::act(owner, depth, waiters, who, outcome),
        Contents::Msgq(queue) => message_queue::act(queue, waiters, who, outcome),
        Contents::Stack(stack) => stack::act(stack, waiters, who, outcome),
        Contents::Pipe(pipe) => pipe::act(pipe, waiters, who, outcome),
        Contents::Stopped { status } => {
            let status = *status;
            timer::act_stopped(contents, status, who, outcome);
        }
        Contents::Running { deadline } => {
            let deadline = *deadline;
            timer::act_running(contents, deadline, waiters, who, outcome);
        }
        Contents::Nothing | Contents::Named(_) => answers(Reply::Void, outcome),
    }
}

/// A semaphore with this count and limit, from any state where nobody waits.
#[inline(never)]
fn renews_semaphore(
    contents: &mut Contents,
    count: u32,
    limit: u32,
    waiters: &Waiters,
    outcome: &mut Outcome,
)
    ensures { renews (Contents.Sem count limit) contents.old waiters.now ≡ left contents.new waiters.now outcome.new }
{
    if !waiters.is_empty() {
        return answers(Reply::Fail(Errno::EBUSY), outcome);
    }
    match contents {
        Contents::Sem {
            count: old_count,
            limit: old_limit,
        } => {
            *old_count = count;
            *old_limit = limit;
        }
        _ => *contents = Contents::Sem { count, limit },
    }
    answers(Reply::Num(0), outcome);
}

/// A mutex without owner, from any state where nobody waits.
#[inline(never)]
fn renews_mutex(contents: &mut Contents, waiters: &Waiters, outcome: &mut Outcome)
    ensures { renews (Contents.Mutex None 0) contents.old waiters.now ≡ left contents.new waiters.now outcome.new }
{
    if waiters.len() > 0 {
        return answers(Reply::Fail(Errno::EBUSY), outcome);
    }
    match contents {
        Contents::Mutex { owner, depth } => {
            *owner = None;
            *depth = 0;
        }
        _ => {
            *contents = Contents::Mutex {
                owner: None,
                depth: 0,
            }
        }
    }
    answers(Reply::Num(0), outcome);
}

/// An empty message queue where no contents are in use.
#[inline(never)]
fn fills_queue(contents: &mut Contents, size: u32, most: u32, outcome: &mut Outcome)
    requires { most ≤ 64 }
    ensures { (waiters : List Waiter) → fills (queue size most []) contents.old waiters ≡ left contents.new waiters outcome.new }
{
    fills(
        contents,
        Contents::Msgq(MessageQueue::new(size, most)),
        outcome,
    );
}

/// An empty stack where no contents are in use.
#[inline(never)]
fn fills_stack(contents: &mut Contents, most: u32, outcome: &mut Outcome)
    requires { most ≤ 64 }
    ensures { (waiters : List Waiter) → fills (stack most []) contents.old waiters ≡ left contents.new waiters outcome.new }
{
    fills(contents, Contents::Stack(ValueStack::new(most)), outcome);
}

/// An empty, open pipe where no contents are in use.
#[inline(never)]
fn fills_pipe(contents: &mut Contents, size: u32, outcome: &mut Outcome)
    requires { size ≤ 256 }
    ensures { (waiters : List Waiter) → fills (pipe size [] false) contents.old waiters ≡ left contents.new waiters outcome.new }
{
    fills(contents, Contents::Pipe(BytePipe::new(size)), outcome);
}

/// What a thread's act does with an object's contents and with those who wait on it.
#[inline(never)]
pub fn act(contents: &mut Contents, waiters: &mut Waiters, who: &Waiter, outcome: &mut Outcome)
    requires thread { who.now.thread.0 < THREADS }
    requires sound { IsTrue (is_sound_ask who.now.ask) }
    ensures { acted contents.old waiters.old who.now ≡ left contents.new waiters.new outcome.new }
{
    match &who.ask {
        Ask::SemInit { count, limit } => renews_semaphore(
            contents, *count, *limit, waiters, outcome,
        ),
        Ask::MutexInit => renews_mutex(contents, waiters, outcome),
        Ask::MsgqInit {
            msg_size,
            max_msgs,
            ..
        } => fills_queue(contents, *msg_size, *max_msgs, outcome),
        Ask::StackInit { entries, .. } => fills_stack(contents, *entries, outcome),
        Ask::PipeInit { size, .. } => fills_pipe(contents, *size, outcome),
        _ => uses(contents, waiters, who, outcome),
    }
}

/// What new contents say, where nobody may wait.
fn says_renews(waiters: &Waiters) -> Said
    ensures { (new : Contents) (old : Contents) → said (renews new old waiters.now) ≡ result }
{
    if waiters.is_empty() {
        return at_once(Reply::Num(0));
    }
    at_once(Reply::Fail(Errno::EBUSY))
}

/// What new contents say, where none may be in use.
fn says_fills(contents: &Contents) -> Said
    ensures { (new : Contents) (waiters : List Waiter) → said (fills new contents.now waiters) ≡ result }
{
    match contents {
        Contents::Nothing => at_once(Reply::Num(0)),
        _ => at_once(Reply::Fail(Errno::EADDRINUSE)),
    }
}

/// What an act on contents that are in use says.
fn says_uses(contents: &Contents, waiters: &Waiters, who: &Waiter) -> Said
    ensures { said (uses contents.now waiters.now who.now who.now.ask) ≡ result }
{
    match contents {
        Contents::Sem { count, limit } => semaphore::says(*count, *limit, waiters, who),
        Contents::Mutex { owner, depth } => mutex::says(*owner, *depth, waiters, who),
        Contents::Msgq(queue) => message_queue::says(queue, waiters, who),
        Contents::Stack(stack) => stack::says(stack, waiters, who),
        Contents::Pipe(pipe) => pipe::says(pipe, waiters, who),
        Contents::Stopped { status } => timer::says_stopped(*status, who),
        Contents::Running { .. } => timer::says_running(waiters, who),
        Contents::Nothing | Contents::Named(_) => at_once(Reply::Void),
    }
}

/// What a thread's act on an object's contents says, where it only looks.
#[inline(never)]
pub fn says(contents: &Contents, waiters: &Waiters, who: &Waiter) -> Said
    ensures answer { result.answer ≡ (acted contents.now waiters.now who.now).answer }
    ensures woken { result.woken ≡ replies_of (acted contents.now waiters.now who.now).woken }
{
    match &who.ask {
        Ask::SemInit { .. } | Ask::MutexInit => says_renews(waiters),
        Ask::MsgqInit { .. } | Ask::StackInit { .. } | Ask::PipeInit { .. } => says_fills(contents),
        _ => says_uses(contents, waiters, who),
    }
}
