//! What the services share: answers, waiting and waking.

ghost use Rattle.std.specs.Prelude.{◌≡◌, ◌<◌, ◌≤◌, [], ◌∷◌, ◌++◌, length};
ghost use Rattle.um_base.specs.declared.act.Answer.TheVariants as Answer;
ghost use Rattle.um_base.specs.declared.names.Reply.TheVariants as Reply;
ghost use Rattle.um_machine.specs.{
  declared.contents.Contents.{Contents},
  Services.{told, all_told, blocks, without},
  Serving.{served, unserved},
};
ghost use Rattle.um_service.specs.Left.{left};

use crate::outcome::{Outcome, Woken};
use um_base::{Answer, Errno, Piece, Reply, THREADS, Timeout, Told, Waiter};
use um_machine::{Served, Waiters};

/// An answer at once that wakes nobody.
pub fn answers(reply: Reply, outcome: &mut Outcome)
    ensures { outcome.new ≡ record { answer = Answer.Now reply; taken = []; woken = [] } }
{
    outcome.answers(Answer::Now(reply));
}

/// The same, with bytes that the caller takes.
pub fn gives(reply: Reply, taken: &Piece, outcome: &mut Outcome)
    ensures { outcome.new ≡ record { answer = Answer.Now reply; taken = taken.now; woken = [] } }
{
    outcome.becomes(Answer::Now(reply), taken);
}

/// The caller waits after all others.
pub fn waits(waiters: &mut Waiters, who: &Waiter, outcome: &mut Outcome)
    requires { who.now.thread.0 < THREADS }
    ensures outcome { outcome.new ≡ record { answer = Answer.Wait; taken = []; woken = [] } }
    ensures waiters { waiters.new ≡ without who.now.thread.0 waiters.old ++ who.now ∷ [] }
{
    waiters.wait(who);
    outcome.answers(Answer::Wait);
}

/// The caller waits after all others, or gets an error if it doesn't wait.
pub fn blocks(
    waiters: &mut Waiters,
    who: &Waiter,
    timeout: Timeout,
    error: Errno,
    outcome: &mut Outcome,
)
    requires { who.now.thread.0 < THREADS }
    ensures { (contents : Contents) → blocks contents waiters.old who.now timeout error ≡ left contents waiters.new outcome.new }
{
    match timeout {
        Timeout::NoWait => answers(Reply::Fail(error), outcome),
        Timeout::Forever | Timeout::Ticks(_) => waits(waiters, who, outcome),
    }
}

/// An answer at once that wakes a waiter, which is told a number and takes bytes.
pub fn wakes(reply: Reply, first: &Waiter, taken: &Piece, outcome: &mut Outcome)
    ensures { outcome.new ≡ record { answer = Answer.Now reply; taken = []; woken = told first.now (Reply.Num 0) taken.now ∷ [] } }
{
    answers(reply, outcome);
    outcome.woken.push(
        first.thread,
        &Told {
            reply: Reply::Num(0),
            taken: *taken,
        },
    );
}

/// Tells an error to those whom an act serves, in the order of service.
pub fn wake_all(waiters: &mut Waiters, which: Served, error: Errno, woken: &mut Woken)
    ensures woken { woken.new ≡ all_told error (served which waiters.old) }
    ensures others { waiters.new ≡ unserved which waiters.old }
{
    let waiting = waiters.len();
    prove!(waiting <= THREADS);
    let told = Told {
        reply: Reply::Fail(error),
        taken: Piece::new(),
    };
    woken.clear();
    'waiting: loop {
        match waiters.take_first(which) {
            Some(first) => woken.push(first.thread, &told),
            None => return,
        }
    }
}

/// An answer at once that empties the list of waiters.
pub fn wakes_all(waiters: &mut Waiters, reply: Reply, error: Errno, outcome: &mut Outcome)
    ensures outcome { outcome.new ≡ record { answer = Answer.Now reply; taken = []; woken = all_told error waiters.old } }
    ensures nobody { waiters.new ≡ [] }
{
    answers(reply, outcome);
    wake_all(waiters, Served::All, error, &mut outcome.woken);
}
