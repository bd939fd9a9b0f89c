//! Timers (Zephyr: Kernel Services, Timers). A timer that was started runs out once.

ghost use Rattle.std.specs.Prelude.{◌≡◌, ◌<◌, ℕ, List};
ghost use Rattle.um_base.specs.declared.ask.Waiter.{Waiter};
ghost use Rattle.um_machine.specs.declared.contents.Contents.TheVariants as Contents;
ghost use Rattle.um_machine.specs.{
  Services.{in_order, timer_stops, stopped_act, running_act, runs_out},
  Table.{replies_of},
};
ghost use Rattle.um_service.specs.{Left.{left}, Preview.{said}};

use crate::order::queue_of;
use crate::outcome::{Outcome, Woken};
use crate::preview;
use crate::preview::{Said, at_once, first_told};
use crate::waking::{answers, waits, wakes};
use um_base::{Answer, Ask, Piece, Replies, Reply, THREADS, Told, Waiter};
use um_machine::{Contents, Served, Waiters};

/// What a call asks of a timer that is stopped.
#[inline(never)]
pub fn act_stopped(contents: &mut Contents, status: u32, who: &Waiter, outcome: &mut Outcome)
    requires { contents.old ≡ Contents.Stopped status }
    ensures { (waiters : List Waiter) → stopped_act status waiters who.now who.now.ask ≡ left contents.new waiters outcome.new }
{
    match who.ask {
        Ask::TimerStart { deadline } => {
            *contents = Contents::Running { deadline };
            answers(Reply::Void, outcome);
        }
        Ask::TimerStatus | Ask::TimerSync => {
            *contents = Contents::Stopped { status: 0 };
            answers(Reply::Num(status), outcome);
        }
        _ => answers(Reply::Void, outcome),
    }
}

/// A timer that runs stops, and the waiter that is served first is woken.
fn stop(contents: &mut Contents, waiters: &mut Waiters, outcome: &mut Outcome)
    ensures { timer_stops waiters.old (in_order waiters.old) ≡ left contents.new waiters.new outcome.new }
{
    *contents = Contents::Stopped { status: 0 };
    match waiters.take_first(Served::All) {
        Some(first) => wakes(Reply::Void, &first, &Piece::new(), outcome),
        None => answers(Reply::Void, outcome),
    }
}

/// What a call asks of a timer that runs.
#[inline(never)]
pub fn act_running(
    contents: &mut Contents,
    deadline: u64,
    waiters: &mut Waiters,
    who: &Waiter,
    outcome: &mut Outcome,
)
    requires thread { who.now.thread.0 < THREADS }
    requires runs { contents.old ≡ Contents.Running deadline }
    ensures { running_act deadline waiters.old who.now who.now.ask ≡ left contents.new waiters.new outcome.new }
{
    match who.ask {
        Ask::TimerStart { deadline: later } => {
            *contents = Contents::Running { deadline: later };
            answers(Reply::Void, outcome);
        }
        Ask::TimerStop => stop(contents, waiters, outcome),
        Ask::TimerStatus => answers(Reply::Num(0), outcome),
        Ask::TimerSync => waits(waiters, who, outcome),
        _ => answers(Reply::Void, outcome),
    }
}

/// A timer runs out: the waiter that is served first is told that it did so once, or the timer keeps that.
#[inline(never)]
pub fn run_out(contents: &mut Contents, waiters: &mut Waiters, woken: &mut Woken)
    ensures { runs_out waiters.old (in_order waiters.old) ≡ (contents.new, waiters.new, woken.new) }
{
    woken.clear();
    match waiters.take_first(Served::All) {
        Some(first) => {
            *contents = Contents::Stopped { status: 0 };
            woken.push(
                first.thread,
                &Told {
                    reply: Reply::Num(1),
                    taken: Piece::new(),
                },
            );
        }
        None => *contents = Contents::Stopped { status: 1 },
    }
}

/// What a call on a timer that is stopped says.
pub fn says_stopped(status: u32, who: &Waiter) -> Said
    ensures { (waiters : List Waiter) → said (stopped_act status waiters who.now who.now.ask) ≡ result }
{
    match who.ask {
        Ask::TimerStatus | Ask::TimerSync => at_once(Reply::Num(status)),
        _ => at_once(Reply::Void),
    }
}

/// What a call on a timer that runs says.
pub fn says_running(waiters: &Waiters, who: &Waiter) -> Said
    ensures { (deadline : ℕ) → said (running_act deadline waiters.now who.now who.now.ask) ≡ result }
{
    match who.ask {
        Ask::TimerStop => Said {
            answer: Answer::Now(Reply::Void),
            woken: first_told(waiters, Served::All),
        },
        Ask::TimerStatus => at_once(Reply::Num(0)),
        Ask::TimerSync => preview::waits(),
        _ => at_once(Reply::Void),
    }
}

/// What those are told who are woken as a timer runs out.
pub fn says_run_out(waiters: &Waiters) -> Replies
    ensures { result ≡ replies_of (runs_out waiters.now (in_order waiters.now)).2 }
{
    let queue = queue_of(waiters, Served::All);
    let mut woken = Replies::new();
    if !queue.is_empty() {
        woken.push(queue.as_slice()[0].thread, Reply::Num(1));
    }
    woken
}
