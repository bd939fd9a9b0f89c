//! Stacks (Zephyr: Kernel Services, Stacks).

ghost use Rattle.std.specs.Prelude.{◌≡◌, ◌<◌, ℕ, List, reverse};
ghost use Rattle.um_base.specs.declared.ask.Waiter.{Waiter};
ghost use Rattle.um_machine.specs.{Memory.{le_bytes}, Services.{in_order, stack_push, stack_pop, stack_act}};
ghost use Rattle.um_machine.specs.declared.contents.Contents.TheVariants as Contents;
ghost use Rattle.um_service.specs.{Left.{left}, Preview.{said}};

use crate::outcome::Outcome;
use crate::preview::{Said, at_once, blocked, first_told};
use crate::waking::{answers, blocks, gives, wakes};
use um_base::{Answer, Ask, Errno, Piece, Reply, THREADS, Timeout, Waiter};
use um_machine::pieces::piece;
use um_machine::{Served, ValueStack, Waiters};

/// The four bytes of a value, the lowest first.
fn value_bytes(value: u32) -> Piece
    ensures { result ≡ le_bytes 4 value }
{
    piece(&value.to_le_bytes())
}

/// Hands a value to the waiter that is served first, or puts it on top.
fn push(stack: &mut ValueStack, waiters: &mut Waiters, value: u32, outcome: &mut Outcome)
    ensures { stack_push stack.old.most stack.old.values waiters.old value (in_order waiters.old) ≡ left (Contents.Stack stack.new) waiters.new outcome.new }
{
    match waiters.take_first(Served::All) {
        Some(first) => wakes(Reply::Num(0), &first, &value_bytes(value), outcome),
        None => {
            if stack.len() >= stack.most() as usize {
                return answers(Reply::Fail(Errno::ENOMEM), outcome);
            }
            stack.push(value);
            answers(Reply::Num(0), outcome);
        }
    }
}

/// Takes the value on top, or waits for one.
#[tactic(auto, using(crate::proofs::StackLemmas::from_the_last))]
fn pop(
    stack: &mut ValueStack,
    waiters: &mut Waiters,
    who: &Waiter,
    timeout: Timeout,
    outcome: &mut Outcome,
)
    requires { who.now.thread.0 < THREADS }
    ensures { stack_pop stack.old.most (reverse stack.old.values) waiters.old who.now timeout ≡ left (Contents.Stack stack.new) waiters.new outcome.new }
{
    match stack.pop() {
        Some(value) => gives(Reply::Num(0), &value_bytes(value), outcome),
        None => blocks(waiters, who, timeout, Errno::EBUSY, outcome),
    }
}

/// What a call asks of a stack.
pub fn act(stack: &mut ValueStack, waiters: &mut Waiters, who: &Waiter, outcome: &mut Outcome)
    requires { who.now.thread.0 < THREADS }
    ensures { stack_act stack.old.most stack.old.values waiters.old who.now who.now.ask ≡ left (Contents.Stack stack.new) waiters.new outcome.new }
{
    match who.ask {
        Ask::StackPush { value } => push(stack, waiters, value, outcome),
        Ask::StackPop { timeout } => pop(stack, waiters, who, timeout, outcome),
        _ => answers(Reply::Void, outcome),
    }
}

/// What a push says.
fn says_push(stack: &ValueStack, waiters: &Waiters) -> Said
    ensures { (value : ℕ) → said (stack_push stack.now.most stack.now.values waiters.now value (in_order waiters.now)) ≡ result }
{
    let woken = first_told(waiters, Served::All);
    if woken.len() == 0 && stack.len() >= stack.most() as usize {
        return at_once(Reply::Fail(Errno::ENOMEM));
    }
    Said {
        answer: Answer::Now(Reply::Num(0)),
        woken,
    }
}

/// What a pop says.
fn says_pop(stack: &ValueStack, timeout: Timeout) -> Said
    ensures { (waiters : List Waiter) (who : Waiter) → said (stack_pop stack.now.most (reverse stack.now.values) waiters who timeout) ≡ result }
{
    if stack.len() == 0 {
        return blocked(timeout, Errno::EBUSY);
    }
    at_once(Reply::Num(0))
}

/// What a call on a stack says.
pub fn says(stack: &ValueStack, waiters: &Waiters, who: &Waiter) -> Said
    ensures { said (stack_act stack.now.most stack.now.values waiters.now who.now who.now.ask) ≡ result }
{
    match who.ask {
        Ask::StackPush { .. } => says_push(stack, waiters),
        Ask::StackPop { timeout } => says_pop(stack, timeout),
        _ => at_once(Reply::Void),
    }
}
