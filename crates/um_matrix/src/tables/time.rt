//! The steps of virtual time: deadlines, ticks, waits that end by one, and timers that run out.

ghost use Rattle.std.specs.Prelude.{◌≡◌, ◌<◌, ◌≤◌, ℕ, [], drop, length};
ghost use Rattle.um_base.specs.declared.limits.TheConstants.{FUTEX_CELL, MOST_WEIGHT};

use crate::tables::Tables;
use crate::tables::waiting::{tell, wake};
use um_base::{Act, FUTEX_CELL, JOIN_CELL, Piece, ROWS, Reply, THREADS, ThreadIx, Told};
use um_machine::{Pending, Waiters};
use um_service::run_out;
use um_steps::order::runs_to;
use um_steps::time::late_reply;
use um_steps::waits::{is_waiting, stands_in};

impl<'a> Tables<'a> {
    ghost use Rattle.um_machine.specs.{
      Run.{waits_at},
      Services.{without},
      State.{thread_at, waiters_in, with_waiters},
      Table.{act_of, after},
    };

    /// Those who wait in a cell.
    pub(crate) fn waiters_in(&self, x: usize) -> &Waiters
        requires { x ≤ FUTEX_CELL }
        ensures { result.now ≡ waiters_in self.now x }
    {
        if x == JOIN_CELL {
            &self.joins
        } else if x == FUTEX_CELL {
            &self.futexes
        } else {
            &self.objects.row(x).waiters
        }
    }

    /// A thread leaves those who wait in a cell.
    pub(crate) fn leave(&mut self, x: usize, who: ThreadIx)
        requires { x ≤ FUTEX_CELL }
        ensures { self.new ≡ with_waiters self.old x (without who.0 (waiters_in self.old x)) }
    {
        if x == JOIN_CELL {
            self.joins.remove(who);
        } else if x == FUTEX_CELL {
            self.futexes.remove(who);
        } else {
            self.objects.row_mut(x).waiters.remove(who);
        }
    }

    /// Whether a thread waits in a cell.
    pub(crate) fn waits_at(&self, who: ThreadIx, x: usize) -> bool
        requires { x ≤ FUTEX_CELL }
        ensures { result ≡ waits_at self.now who.0 x }
    {
        let t = who.0 as usize;
        match self.threads.get(t) {
            None => false,
            Some(thread) => is_waiting(thread) && stands_in(t, self.waiters_in(x).as_slice()),
        }
    }

    /// A call arms its deadline.
    pub(crate) fn arm(&mut self, t: usize, ticks: u32, taken: usize)
        requires thread { t < THREADS }
        requires room { length self.old.armed < MOST_WEIGHT }
        ensures { self.new ≡ after self.old t 0 (Pending.Arm ticks)
            (drop taken (thread_at self.old t).pending) }
    {
        let deadline = self.clock.arm(ticks);
        let thread = &mut self.threads[t];
        thread.until = Some(deadline);
        thread.goes_on(self.image, taken);
    }

    /// A call arms the deadline of a timer, which it starts next.
    pub(crate) fn arm_timer(&mut self, t: usize, ticks: u32, taken: usize)
        requires thread { t < THREADS }
        requires room { length self.old.armed < MOST_WEIGHT }
        ensures { self.new ≡ after self.old t 0 (Pending.ArmTimer ticks)
            (drop taken (thread_at self.old t).pending) }
    {
        let deadline = self.clock.arm(ticks);
        let thread = &mut self.threads[t];
        thread.until = None;
        thread.pending.skip(taken);
        runs_to(&mut thread.pending, deadline);
        thread.rests(self.image);
    }

    /// Time goes on to the next deadline.
    pub(crate) fn tick(&mut self)
        ensures { self.new ≡ after self.old 0 0 Pending.Tick [] }
    {
        self.clock.tick();
    }

    /// What time says that goes on.
    pub(crate) fn says_tick(&self, act: &mut Act)
        ensures { (t x : ℕ) → act.new ≡ act_of self.now t x Pending.Tick }
    {
        *act = Act::Tick {
            now: self.clock.next().unwrap_or(self.clock.now()),
        };
    }

    /// A wait ends whose deadline has come.
    pub(crate) fn time_out(&mut self, x: usize, who: ThreadIx)
        requires { x ≤ FUTEX_CELL }
        ensures { self.new ≡ after self.old 0 x (Pending.TimeOut who) [] }
    {
        self.leave(x, who);
        let late = Told {
            reply: Reply::Fail(late_reply(x)),
            taken: Piece::new(),
        };
        tell(&mut self.threads, who, &late);
    }

    /// A timer runs out, and wakes the thread that is served first.
    #[inline(never)]
    #[tactic(auto, using(crate::proofs::WorkLemmas::woken_threads))]
    pub(crate) fn expire(&mut self, x: usize)
        requires { x < ROWS }
        ensures { self.new ≡ after self.old 0 x Pending.Expire [] }
    {
        let object = self.objects.row_mut(x);
        let outcome = &mut self.outcome[0];
        run_out(
            &mut object.contents,
            &mut object.waiters,
            &mut outcome.woken,
        );
        wake(&mut self.threads, outcome.woken.as_slice());
    }
}
