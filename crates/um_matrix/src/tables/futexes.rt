//! The steps of calls on futexes.

ghost use Rattle.std.specs.Prelude.{◌≡◌, ◌<◌, ℕ, drop};
ghost use Rattle.um_machine.specs.{Futexes.{roused}, Services.{still_waiting}, State.{State}};
ghost use Rattle.um_service.specs.Awaits.{all_well};

use crate::tables::Tables;
use crate::tables::waiting::{after_asking, wake};
use um_base::{Access, Act, Addr, Answer, Ask, Errno, Replies, THREADS, Timeout};
use um_machine::{Pending, Waiters};
use um_service::{Woken, says_wake_futex, wake_futex};
use um_steps::bytes::le_value;
use um_steps::futexes::{futex_wait, is_futex, wake_answer};

/// Those whom a wake rouses wait no longer: nobody, where it is refused.
fn rouse(waiters: &mut Waiters, a: Addr, all: bool, refusal: Option<Errno>, woken: &mut Woken)
    ensures woken { (s : State) → s.futexes ≡ waiters.old → woken.new ≡ all_well (roused s a.0 all refusal) }
    ensures left { waiters.new ≡ still_waiting woken.new waiters.old }
{
    match refusal {
        Some(_) => woken.clear(),
        None => wake_futex(waiters, a, all, woken),
    }
}

impl<'a> Tables<'a> {
    ghost use Rattle.um_machine.specs.{
      Futexes.{futex_answer, futex_refusal},
      State.{thread_at},
      Table.{act_of, after},
    };

    /// Why a call on a futex is refused, if it is.
    fn futex_refusal(&self, t: usize, a: Addr) -> Option<Errno>
        requires { t < THREADS }
        ensures { result ≡ futex_refusal self.now t a.0 }
    {
        if !self.allowed(t, Access::Read, a.0, 4) {
            Some(Errno::EACCES)
        } else if !is_futex(self.image, a.0) {
            Some(Errno::EINVAL)
        } else {
            None
        }
    }

    /// What a wait says.
    pub(crate) fn futex_answer(&self, t: usize, a: Addr, value: u32, timeout: Timeout) -> Answer
        requires { t < THREADS }
        ensures { result ≡ futex_answer self.now t a.0 value timeout }
    {
        let found = le_value(self.bytes_at(a.0, 4));
        futex_wait(value, found, timeout, self.futex_refusal(t, a))
    }

    /// A thread waits on a futex, where the number there is this one.
    pub(crate) fn futex_wait(
        &mut self,
        t: usize,
        a: Addr,
        value: u32,
        timeout: Timeout,
        taken: usize,
    )
        requires thread { t < THREADS }
        requires taken { 0 < taken }
        ensures { self.new ≡ after self.old t 0 (Pending.FutexWait a value timeout)
            (drop taken (thread_at self.old t).pending) }
    {
        let answer = self.futex_answer(t, a, value, timeout);
        let waiter = self.worker(t, &Ask::FutexWait { addr: a });
        if answer == Answer::Wait {
            self.futexes.wait(&waiter);
        }
        after_asking(self.image, &mut self.threads[t], answer, taken);
    }

    /// Those who wait on a futex are woken, or the one that is served first.
    pub(crate) fn futex_wake(&mut self, t: usize, a: Addr, all: bool, taken: usize)
        requires thread { t < THREADS }
        requires taken { 0 < taken }
        ensures { self.new ≡ after self.old t 0 (Pending.FutexWake a all)
            (drop taken (thread_at self.old t).pending) }
    {
        let refusal = self.futex_refusal(t, a);
        let woken = &mut self.outcome[0].woken;
        rouse(&mut self.futexes, a, all, refusal, woken);
        let answer = wake_answer(refusal, woken.len() as u32);
        wake(&mut self.threads, woken.as_slice());
        after_asking(self.image, &mut self.threads[t], answer, taken);
    }

    /// What a wake says.
    #[inline(never)]
    pub(crate) fn says_futex_wake(&self, t: usize, a: Addr, all: bool, act: &mut Act)
        requires { t < THREADS }
        ensures { (x : ℕ) → act.new ≡ act_of self.now t x (Pending.FutexWake a all) }
    {
        let refusal = self.futex_refusal(t, a);
        let woken = match refusal {
            Some(_) => Replies::new(),
            None => says_wake_futex(&self.futexes, a, all),
        };
        *act = Act::FutexWake {
            addr: a,
            answer: wake_answer(refusal, woken.len() as u32),
            woken,
        };
    }
}
