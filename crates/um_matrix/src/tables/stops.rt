//! The steps that abort, suspend and resume threads, and those of threads that wait for the end of another.

ghost use Rattle.std.specs.Prelude.{◌≡◌, ◌<◌, ◌≤◌, ◌↔◌, ℕ, [], IsTrue, drop};
ghost use Rattle.um_base.specs.declared.limits.TheConstants.{FUTEX_CELL};
ghost use Rattle.um_machine.specs.Order.{Steps};

use crate::tables::Tables;
use crate::tables::waiting::{after_asking, wake};
use um_base::{Act, Answer, Ask, Errno, ROWS, Reply, THREADS, ThreadIx, Timeout};
use um_machine::{Life, Pending};
use um_service::{end_joins, says_end_joins};
use um_steps::waits::{is_joined, is_joining};

impl<'a> Tables<'a> {
    ghost use Rattle.um_machine.specs.{
      Joins.{deadlocks, is_joined, join_answer, not_over},
      Run.{MayChoose},
      State.{is_living, object_at, thread_at},
      Table.{act_of, after},
      Writes.{Effect, Flag, only, write},
    };
    ghost use Rattle.um_base.specs.Places.{own_row};

    /// Whether a thread lives.
    pub(crate) fn lives(&self, who: ThreadIx) -> bool
        ensures { result ≡ is_living (thread_at self.now who.0).life }
    {
        match self.threads.get(who.0 as usize) {
            None => false,
            Some(thread) => thread.life == Life::Living,
        }
    }

    /// A thread is marked as aborted, where it lives.
    fn mark_aborted(&mut self, who: ThreadIx)
        ensures { self.new ≡ write (only (is_living (thread_at self.old who.0).life)
            (Effect.flags who.0 Flag.aborted)) self.old }
    {
        if self.lives(who) {
            self.threads[who.0 as usize].aborted = true;
        }
    }

    /// The mark of a suspended thread comes or goes, where it lives.
    fn mark_suspended(&mut self, who: ThreadIx, on: bool)
        ensures { self.new ≡ write (only (is_living (thread_at self.old who.0).life)
            (Effect.flags who.0 (Flag.suspended on))) self.old }
    {
        if self.lives(who) {
            self.threads[who.0 as usize].suspended = on;
        }
    }

    /// A thread is aborted, where it lives.
    #[tactic(auto, using(crate::proofs::PairLemmas::pendings_kept))]
    pub(crate) fn abort(&mut self, t: usize, who: ThreadIx, taken: usize)
        requires { t < THREADS }
        ensures { self.new ≡ after self.old t 0 (Pending.Abort who)
            (drop taken (thread_at self.old t).pending) }
    {
        self.mark_aborted(who);
        self.threads[t].goes_on(self.image, taken);
    }

    /// A thread is suspended, where it lives.
    #[tactic(auto, using(crate::proofs::PairLemmas::pendings_kept))]
    pub(crate) fn suspend(&mut self, t: usize, who: ThreadIx, taken: usize)
        requires { t < THREADS }
        ensures { self.new ≡ after self.old t 0 (Pending.Suspend who)
            (drop taken (thread_at self.old t).pending) }
    {
        self.mark_suspended(who, true);
        self.threads[t].goes_on(self.image, taken);
    }

    /// A thread is suspended no longer, where it lives.
    #[tactic(auto, using(crate::proofs::PairLemmas::pendings_kept))]
    pub(crate) fn resume_other(&mut self, t: usize, who: ThreadIx, taken: usize)
        requires { t < THREADS }
        ensures { self.new ≡ after self.old t 0 (Pending.Continue who)
            (drop taken (thread_at self.old t).pending) }
    {
        self.mark_suspended(who, false);
        self.threads[t].goes_on(self.image, taken);
    }

    /// An aborted thread waits no longer, and has only its end left.
    pub(crate) fn cut(&mut self, x: usize, who: ThreadIx)
        requires { x ≤ FUTEX_CELL }
        ensures { self.new ≡ after self.old 0 x (Pending.Cut who) [] }
    {
        self.leave(x, who);
        if (who.0 as usize) < THREADS {
            self.threads[who.0 as usize].turns_to(&Pending::Killed);
        }
    }

    /// An aborted thread ends.
    pub(crate) fn killed(&mut self, t: usize)
        requires { t < THREADS }
        ensures { (rest : Steps) → self.new ≡ after self.old t 0 Pending.Killed rest }
    {
        self.exit(t);
    }

    /// What a join says of a thread that isn't over.
    fn not_over(&self, t: usize, who: ThreadIx, timeout: Timeout) -> Answer
        ensures { result ≡ not_over self.now t who.0 timeout }
    {
        match timeout {
            Timeout::NoWait => Answer::Now(Reply::Fail(Errno::EBUSY)),
            Timeout::Forever | Timeout::Ticks(_) => {
                if self.deadlocks(t, who) {
                    Answer::Now(Reply::Fail(Errno::EDEADLK))
                } else {
                    Answer::Wait
                }
            }
        }
    }

    /// Whether a join would wait for itself.
    fn deadlocks(&self, t: usize, who: ThreadIx) -> bool
        ensures { result ≡ deadlocks self.now t who.0 }
    {
        who.0 as usize == t || is_joining(who.0 as usize, t, self.joins.as_slice())
    }

    /// What a join says, by the number that it chooses.
    pub(crate) fn join_answer(&self, t: usize, x: usize, who: ThreadIx, timeout: Timeout) -> Answer
        ensures { result ≡ join_answer self.now t x who.0 timeout }
    {
        if x == 0 {
            self.not_over(t, who, timeout)
        } else {
            Answer::Now(Reply::Num(0))
        }
    }

    /// Whether the object of a thread is initialised.
    fn own_init(&self, who: ThreadIx) -> bool
        ensures { result ≡ (object_at self.now (own_row self.now.image who.0)).init }
    {
        let x = self.own_row(who);
        x < ROWS && self.objects.row(x).init
    }

    /// Whether a join may choose a number.
    pub(crate) fn may_join(&self, t: usize, x: usize, who: ThreadIx, timeout: Timeout) -> bool
        ensures { IsTrue result ↔ MayChoose self.now t x (Pending.Join who timeout) }
    {
        if x > 0 {
            return !self.lives(who);
        }
        let init = self.own_init(who);
        match timeout {
            Timeout::NoWait => init,
            Timeout::Forever | Timeout::Ticks(_) => self.deadlocks(t, who) || init,
        }
    }

    /// Whether somebody waits for the end of a thread.
    pub(crate) fn is_joined(&self, t: usize) -> bool
        ensures { result ≡ is_joined self.now t }
    {
        is_joined(t, self.joins.as_slice())
    }

    /// A thread asks for the end of another, and waits for it where it isn't over.
    pub(crate) fn join(&mut self, t: usize, x: usize, who: ThreadIx, timeout: Timeout, taken: usize)
        requires thread { t < THREADS }
        requires taken { 0 < taken }
        ensures { self.new ≡ after self.old t x (Pending.Join who timeout)
            (drop taken (thread_at self.old t).pending) }
    {
        let answer = self.join_answer(t, x, who, timeout);
        let waiter = self.worker(t, &Ask::Join { who });
        if answer == Answer::Wait {
            self.joins.wait(&waiter);
        }
        after_asking(self.image, &mut self.threads[t], answer, taken);
    }

    /// Those who wait for the end of a thread are told that it comes.
    #[tactic(auto, using(crate::proofs::WorkLemmas::woken_threads))]
    pub(crate) fn left(&mut self, t: usize)
        requires { t < THREADS }
        ensures { (rest : Steps) → self.new ≡ after self.old t 0 Pending.Left rest }
    {
        let woken = &mut self.outcome[0].woken;
        end_joins(&mut self.joins, ThreadIx(t as u8), woken);
        wake(&mut self.threads, woken.as_slice());
    }

    /// What it says then.
    #[inline(never)]
    pub(crate) fn says_left(&self, t: usize, act: &mut Act)
        requires { t < THREADS }
        ensures { (x : ℕ) → act.new ≡ act_of self.now t x Pending.Left }
    {
        let who = ThreadIx(t as u8);
        *act = Act::Left {
            who,
            woken: says_end_joins(&self.joins, who),
        };
    }
}
